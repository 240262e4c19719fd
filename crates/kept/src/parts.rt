// What a part of a list gives to a set.
ghost use Rattle.std.specs.Prelude.{ℕ, List, IfSome, OnOk};
ghost use Rattle.keys.specs.Slots.{Ascending};
ghost use Rattle.kept.specs.Cuts.{Gains};

use keys::Key;
use std::alloc::AllocError;

// A part between commas: it is read from its text, and has some keys.
pub trait Part: Copy {
    type Key: Key;

    // What the text says.
    ghost says: { List ℕ → Self → Type 0 };

    ghost has: { Self → Self.Key → Type 0 };

    fn read(text: &str) -> Option<Self>
        ensures { IfSome result (says text.now) };

    // Puts the part's keys into a set.
    fn put_into(self, set: &mut Vec<Self::Key>) -> Result<(), AllocError>
        ensures ascending { Ascending Self.Key.before set.old.items → Ascending Self.Key.before set.new.items }
        ensures gains { OnOk result (Gains Self.Key.same set.old.items set.new.items (has self)) };
}
