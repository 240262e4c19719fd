// A position of a language system as a key.
ghost use Rattle.keys.specs.Pairs.{PairBefore, PairSame};
ghost use Rattle.std.proofs.Common.{rules};

use crate::order::Key;
use std::cmp::Ordering;

// Where a language system stands: its script's position, then its own position in that script.
#[derive(Clone, Copy, PartialEq, Eq, PartialOrd, Ord, Hash, Debug)]
pub struct Pair {
    pub script: u16,
    pub lang_sys: u16,
}

// By script, and within a script by language system.
impl Key for Pair {
    ghost before = { PairBefore };

    ghost same = { PairSame };

    ghost laws = { Prim.search rules };

    fn order(self, other: Pair) -> Ordering {
        self.cmp(&other)
    }
}
