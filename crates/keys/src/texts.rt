// A tag in text.
ghost use Rattle.std.specs.Prelude.{◌≡◌, Some};
ghost use Rattle.keys.specs.Texts.{printable, all_four, padded, tag_text, Spells};

use crate::tags::Tag;
use std::fmt;
use std::str::FromStr;

// A text that is no tag.
#[derive(Clone, Copy, PartialEq, Eq, Debug)]
pub struct NoTag;

fn is_printable(byte: u8) -> bool
    ensures { result ≡ printable byte }
{
    byte >= b' ' && byte <= b'~'
}

fn are_printable(bytes: [u8; 4]) -> bool
    ensures { result ≡ all_four printable bytes }
{
    let [a, b, c, d] = bytes;
    is_printable(a) && is_printable(b) && is_printable(c) && is_printable(d)
}

// The byte at a place of a tag's text; after its end, a space.
fn tag_byte(text: &[u8], at: usize) -> u8
    ensures { result ≡ padded text.now at }
{
    text.get(at).copied().unwrap_or(b' ')
}

// A tag of one to four printable characters, with spaces after them.
impl FromStr for Tag {
    type Err = NoTag;

    ghost from_str_gives = { Spells };

    fn from_str(text: &str) -> Result<Tag, NoTag> {
        let text = text.as_bytes();
        if text.is_empty() || text.len() > 4 {
            return Err(NoTag);
        }
        let bytes = [
            tag_byte(text, 0),
            tag_byte(text, 1),
            tag_byte(text, 2),
            tag_byte(text, 3),
        ];
        if are_printable(bytes) {
            Ok(Tag::new(bytes))
        } else {
            Err(NoTag)
        }
    }
}

// A tag's four characters where each is printable ASCII, else its number in hexadecimal.
impl fmt::Display for Tag {
    ghost output = { λ t. Some (tag_text t.code) };

    fn fmt<W: fmt::Write>(&self, f: &mut fmt::Formatter<W>) -> fmt::Result {
        let bytes = self.to_bytes();
        let [a, b, c, d] = bytes;
        if are_printable(bytes) {
            let (a, b, c, d) = (char::from(a), char::from(b), char::from(c), char::from(d));
            write!(f, "{a}{b}{c}{d}")
        } else {
            write!(f, "0x{a:02X}{b:02X}{c:02X}{d:02X}")
        }
    }
}
