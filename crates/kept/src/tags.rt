// Sets of tags.
ghost use Rattle.std.specs.Prelude.{length, IfOk};
ghost use Rattle.keys.specs.Slots.{Ascending};
ghost use Rattle.keys.specs.Tags.{TagBefore, TagSame};
ghost use Rattle.kept.specs.Tags.{SpellsTag, Covers};
ghost use Rattle.kept.specs.Cuts.{Listed};

use crate::lists::{Unread, read_set};
use crate::parts::Part;
use crate::sets::put;
use keys::Tag;
use std::alloc::{AllocError, Global};

impl Part for Tag {
    type Key = Tag;

    ghost says = { SpellsTag };

    ghost has = { TagSame };

    fn read(text: &str) -> Option<Tag> {
        text.parse().ok()
    }

    fn put_into(self, set: &mut Vec<Tag>) -> Result<(), AllocError> {
        put(set, self)
    }
}

// The set of tags that a list like `latn,DFLT` gives.
pub fn read_tags(heap: Global, text: &str) -> Result<Vec<Tag>, Unread>
    ensures ascending { IfOk result (λ v. Ascending TagBefore v.items) }
    ensures covers { IfOk result (λ v. Listed text.now (λ ps. Covers ps v.items (length ps))) }
{
    read_set::<Tag>(heap, text)
}
