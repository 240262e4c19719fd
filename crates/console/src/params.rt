ghost use Rattle.std.specs.Prelude.{◌≡◌};
ghost use Rattle.console.specs.Fields.{size_by, set_by, variant_by, variant_char};

use font::{bytes_at, u16_at};

// The parameters of a size feature; sizes in tenths of a point.
#[derive(Clone, Copy, PartialEq, Eq, Debug)]
pub struct SizeFields {
    pub design: u16,
    pub subfamily: u16,
    pub name: u16,
    pub start: u16,
    pub end: u16,
}

// The parameters of a stylistic set.
#[derive(Clone, Copy, PartialEq, Eq, Debug)]
pub struct SetFields {
    pub version: u16,
    pub name: u16,
}

// The parameters of a character variant, but for its characters.
#[derive(Clone, Copy, PartialEq, Eq, Debug)]
pub struct VariantFields {
    pub format: u16,
    pub label: u16,
    pub tooltip: u16,
    pub sample: u16,
    pub parameters: u16,
    pub first: u16,
    pub characters: u16,
}

pub fn size_fields(bytes: &[u8]) -> Option<SizeFields>
    ensures { result ≡ size_by bytes.now }
{
    Some(SizeFields {
        design: u16_at(bytes, 0)?,
        subfamily: u16_at(bytes, 2)?,
        name: u16_at(bytes, 4)?,
        start: u16_at(bytes, 6)?,
        end: u16_at(bytes, 8)?,
    })
}

pub fn set_fields(bytes: &[u8]) -> Option<SetFields>
    ensures { result ≡ set_by bytes.now }
{
    Some(SetFields {
        version: u16_at(bytes, 0)?,
        name: u16_at(bytes, 2)?,
    })
}

pub fn variant_fields(bytes: &[u8]) -> Option<VariantFields>
    ensures { result ≡ variant_by bytes.now }
{
    let characters = u16_at(bytes, 12)?;
    if 14 + 3 * usize::from(characters) > bytes.len() {
        return None;
    }
    Some(VariantFields {
        format: u16_at(bytes, 0)?,
        label: u16_at(bytes, 2)?,
        tooltip: u16_at(bytes, 4)?,
        sample: u16_at(bytes, 6)?,
        parameters: u16_at(bytes, 8)?,
        first: u16_at(bytes, 10)?,
        characters,
    })
}

// The character at a place among those of a character variant.
pub fn character(bytes: &[u8], k: u16) -> Option<u32>
    ensures { result ≡ variant_char bytes.now k }
{
    let [a, b, c] = bytes_at::<3>(bytes, 14 + 3 * usize::from(k))?;
    Some(u32::from_be_bytes([0, a, b, c]))
}
