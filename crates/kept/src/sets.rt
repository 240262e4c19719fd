ghost use Rattle.std.specs.Prelude.{OnOk};
ghost use Rattle.keys.specs.Slots.{Ascending, Joined};

use keys::{Key, find};
use std::alloc::AllocError;

// Puts a key in its place in a set, unless it is there. Sets are lists here and in what calls this: a set type of its own
// would ask more of callers, who may pass any list.
pub fn put<K: Key>(set: &mut Vec<K>, key: K) -> Result<(), AllocError>
    ensures ascending { Ascending K.before set.old.items → Ascending K.before set.new.items }
    ensures joined { OnOk result (Joined K.same set.old.items set.new.items key) }
{
    match find(set.as_slice(), key) {
        Ok(_) => Ok(()),
        Err(at) => {
            set.insert(at, key)?;
            Ok(())
        }
    }
}
