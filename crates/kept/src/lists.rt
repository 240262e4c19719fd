// Sets that lists of parts give.
ghost use Rattle.std.specs.Prelude.{length, IfOk};
ghost use Rattle.keys.specs.Slots.{Ascending};
ghost use Rattle.kept.specs.Cuts.{Listed, Covers};

use crate::parts::Part;
use std::alloc::{AllocError, AllocFailed, Global};

// Why a word gives no set.
#[derive(Clone, Copy, PartialEq, Eq, Debug)]
pub enum Unread {
    Memory,
    // A part between commas is not what the set is of.
    WrongPart,
}

impl From<AllocError> for Unread {
    fn from(_error: AllocError) -> Unread {
        Unread::Memory
    }
}

impl<T: Drop> From<AllocFailed<T>> for Unread {
    fn from(_error: AllocFailed<T>) -> Unread {
        Unread::Memory
    }
}

// The set of the keys that the parts of a list have.
pub fn read_set<P: Part>(heap: Global, text: &str) -> Result<Vec<P::Key>, Unread>
    ensures ascending { IfOk result (λ v. Ascending P.Key.before v.items) }
    ensures covers { IfOk result (λ v. Listed text.now (λ ps. Covers P.Key.same P.says P.has ps v.items (length ps))) }
{
    let mut set = Vec::new(heap);
    for part in text.split(',') {
        P::read(part).ok_or(Unread::WrongPart)?.put_into(&mut set)?;
    }
    Ok(set)
}
