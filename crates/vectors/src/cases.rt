ghost use Rattle.std.specs.Prelude.{IfOk};
ghost use Rattle.keys.specs.Slots.{Ascending};

use crate::hex::{HexTag, read_hex};
use kept::{Part, Run, Unread, read_set};
use keys::Tag;
use source::Kind;
use std::alloc::Global;

// A table, and what is kept of it.
#[derive(Drop)]
pub(crate) struct Case {
    pub(crate) kind: Kind,
    pub(crate) table: Vec<u8>,
    pub(crate) lookups: Vec<u16>,
    pub(crate) features: Vec<u16>,
    pub(crate) scripts: Vec<Tag>,
}

// The bytes of a table, of which `-` has none.
fn read_table(heap: Global, word: &str) -> Result<Vec<u8>, Unread> {
    match word {
        "-" => Ok(Vec::new(heap)),
        digits => read_hex(heap, digits.as_bytes()),
    }
}

// A set that a word lists, of which `-` has nothing.
fn read_kept<P: Part>(heap: Global, word: &str) -> Result<Vec<P::Key>, Unread>
    ensures { IfOk result (λ v. Ascending P.Key.before v.items) }
{
    match word {
        "-" => Ok(Vec::new(heap)),
        list => read_set::<P>(heap, list),
    }
}

// The case of a line of six words: kind, table, lookups, features, scripts, and a length that the numbering does not
// ask for.
pub(crate) fn read_case(heap: Global, line: &str) -> Result<Case, Unread> {
    let words = line.split(' ').collect::<Vec<&str>>(heap)?;
    let [kind, table, lookups, features, scripts, _] = words.as_slice() else {
        return Err(Unread::WrongPart);
    };
    Ok(Case {
        kind: kind.parse().ok().ok_or(Unread::WrongPart)?,
        table: read_table(heap, table)?,
        lookups: read_kept::<Run>(heap, lookups)?,
        features: read_kept::<Run>(heap, features)?,
        scripts: read_kept::<HexTag>(heap, scripts)?,
    })
}
