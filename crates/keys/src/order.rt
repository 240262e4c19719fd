// What a key type owes: a total order, and a call that tells which of the three cases holds.
ghost use Rattle.std.specs.Prelude.{◌≡◌, ◌<◌};
ghost use Rattle.std.specs.Ordering.{MatchOrdering};
ghost use Rattle.std.proofs.Common.{rules};
ghost use Rattle.keys.specs.Orders.{Ordered};

use std::cmp::Ordering;

// A type whose values stand in a total order. Of two keys exactly one holds: the first is before the second, they
// are the same key, or the second is before the first. `Ord` in its place is no plainer: contracts would say
// `cmp x y ≡ Less` where they now say `x < y`. `order` has no body here, since one by `cmp` would ask for `Ord`.
pub trait Key: Copy {
    ghost before: { Self → Self → Type 0 };

    ghost same: { Self → Self → Type 0 };

    fn order(self, other: Self) -> Ordering
        ensures ranked { MatchOrdering result (before self other) (same self other) (before other self) };

    ghost laws: { Ordered before same };
}

// A 16-bit index, in the order of the numbers.
impl Key for u16 {
    ghost before = { λ x y. x < y };

    ghost same = { λ x y. x ≡ y };

    ghost laws = { Prim.search rules };

    fn order(self, other: u16) -> Ordering {
        self.cmp(&other)
    }
}
