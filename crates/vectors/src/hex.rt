ghost use Rattle.std.specs.Prelude.{◌≡◌, ◌<◌, IfSome, IfOk};
ghost use Rattle.vectors.specs.Hex.{digit_by, byte_by, Spells};
ghost use Rattle.vectors.specs.Tags.{SpellsTag, HasTag};

use kept::{Part, Unread, put};
use keys::Tag;
use std::alloc::{AllocError, Global};

// The value of a hexadecimal digit.
fn digit_value(byte: u8) -> Option<u8>
    ensures value { result ≡ digit_by byte }
    ensures bound { IfSome result (λ d. d < 16) }
{
    char::from(byte).to_digit(16).map(|digit| digit as u8)
}

// The byte that two hexadecimal digits give.
fn byte_value(high: u8, low: u8) -> Option<u8>
    ensures { result ≡ byte_by high low }
{
    Some(digit_value(high)? * 16 + digit_value(low)?)
}

// The bytes that hexadecimal digits give, two to a byte.
pub(crate) fn read_hex(heap: Global, digits: &[u8]) -> Result<Vec<u8>, Unread>
    ensures { IfOk result (λ v. Spells digits.now v.items) }
{
    if digits.len() % 2 != 0 {
        return Err(Unread::WrongPart);
    }
    let mut bytes = Vec::new(heap);
    let mut left = digits;
    while let [high, low, rest @ ..] = left {
        bytes.push(byte_value(*high, *low).ok_or(Unread::WrongPart)?)?;
        left = rest;
    }
    Ok(bytes)
}

// A tag that stands as eight hexadecimal digits.
#[derive(Clone, Copy, PartialEq, Eq, Debug)]
pub(crate) struct HexTag(pub(crate) Tag);

impl HexTag {
    fn parse(digits: &[u8]) -> Option<HexTag>
        ensures { IfSome result (SpellsTag digits.now) }
    {
        let [a, b, c, d, e, f, g, h] = digits else {
            return None;
        };
        Some(HexTag(Tag::new([
            byte_value(*a, *b)?,
            byte_value(*c, *d)?,
            byte_value(*e, *f)?,
            byte_value(*g, *h)?,
        ])))
    }
}

impl Part for HexTag {
    type Key = Tag;

    ghost says = { SpellsTag };

    ghost has = { HasTag };

    fn read(text: &str) -> Option<HexTag> {
        HexTag::parse(text.as_bytes())
    }

    fn put_into(self, set: &mut Vec<Tag>) -> Result<(), AllocError> {
        put(set, self.0)
    }
}
