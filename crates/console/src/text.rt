ghost use Rattle.std.specs.Prelude.{◌≡◌, Some};
ghost use Rattle.console.specs.Texts.{code_text, parts_of, fixed_text, version_text};

use std::fmt;

// An F2DOT14 number, in decimal with four places.
#[derive(Clone, Copy, PartialEq, Eq, Debug)]
pub struct Fixed(pub u16);

// The size of an F2DOT14 number in ten-thousandths, rounded.
fn ten_thousandths(bits: u16) -> u32
    ensures { result ≡ parts_of bits }
{
    let size = if bits < 0x8000 {
        u32::from(bits)
    } else {
        0x10000 - u32::from(bits)
    };
    (size * 10000 + 8192) / 16384
}

impl fmt::Display for Fixed {
    ghost output = { λ x. Some (fixed_text x.0) };

    fn fmt<W: fmt::Write>(&self, f: &mut fmt::Formatter<W>) -> fmt::Result {
        let sign = if self.0 < 0x8000 { "" } else { "-" };
        let n = ten_thousandths(self.0);
        // Tried as `{rest:04}`: the proof didn't close.
        let (a, b, c, d) = (n / 1000 % 10, n / 100 % 10, n / 10 % 10, n % 10);
        let whole = n / 10000;
        write!(f, "{sign}{whole}.{a}{b}{c}{d}")
    }
}

// A version: the high 16 bits, a point and the low 16 bits.
#[derive(Clone, Copy, PartialEq, Eq, Debug)]
pub struct Version(pub u32);

impl fmt::Display for Version {
    ghost output = { λ v. Some (version_text v.0) };

    fn fmt<W: fmt::Write>(&self, f: &mut fmt::Formatter<W>) -> fmt::Result {
        let major = self.0 / 65536;
        let minor = self.0 % 65536;
        write!(f, "{major}.{minor}")
    }
}

// A character by its number, with four digits or more.
#[derive(Clone, Copy, PartialEq, Eq, Debug)]
pub struct CodePoint(pub u32);

impl fmt::Display for CodePoint {
    ghost output = { λ x. Some (code_text x.0) };

    fn fmt<W: fmt::Write>(&self, f: &mut fmt::Formatter<W>) -> fmt::Result {
        let [_, plane, b, c] = self.0.to_be_bytes();
        if plane == 0 {
            write!(f, "U+{b:02X}{c:02X}")
        } else {
            write!(f, "U+{plane:X}{b:02X}{c:02X}")
        }
    }
}
