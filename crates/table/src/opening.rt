ghost use Rattle.std.specs.Prelude.{◌≡◌, Some, None, Ok, Err};
ghost use Rattle.table.specs.Format.{header_whole};
ghost use Rattle.table.specs.Opening.{refusal};

use crate::bytes::Table;
use crate::fields::u16_at;
use source::{Kind, Refusal};

// Whether the bytes begin with a whole header of major version 1.
pub(crate) fn has_header(bytes: &[u8]) -> bool
    ensures { result ≡ header_whole bytes.now }
{
    if bytes.len() < 10 {
        return false;
    }
    let major = u16_at(bytes, 0);
    let minor = u16_at(bytes, 2);
    major == 1 && (minor == 0 || bytes.len() >= 14)
}

impl<'a> Table<'a> {
    // A source over a table's bytes, which are a GSUB or a GPOS table as the caller says.
    pub fn open(kind: Kind, bytes: &'a [u8]) -> Result<Table<'a>, Refusal>
        ensures { elim result [ Ok t ↦ (refusal bytes.now ≡ None) × (t.kind ≡ kind) × (t.bytes.now ≡ bytes.now) | Err e ↦ refusal bytes.now ≡ Some e ] }
    {
        if bytes.len() > 65535 {
            return Err(Refusal::SourceTooLarge);
        }
        if !has_header(bytes) {
            return Err(Refusal::BadHeader);
        }
        Ok(Table { kind, bytes })
    }
}
