// A four-byte tag as a key.
ghost use Rattle.std.specs.Prelude.{◌≡◌};
ghost use Rattle.std.specs.Ordering.{MatchOrdering};
ghost use Rattle.keys.specs.Tags.{coded, spelt, TagBefore, TagSame, ByBytes};
ghost use Rattle.std.proofs.Common.{rules};

use crate::order::Key;
use std::cmp::Ordering;

// Four bytes, kept as one number: the first byte is its highest.
#[derive(Clone, Copy, PartialEq, Eq, PartialOrd, Ord, Hash, Debug)]
pub struct Tag {
    pub code: u32,
}

impl Tag {
    // The tag of four bytes, first byte first.
    #[tactic(auto, using(crate::proofs::Codes::spelt_code))]
    pub fn new(bytes: [u8; 4]) -> Tag
        ensures code { result.code ≡ coded bytes }
        ensures bytes { spelt result.code ≡ bytes }
    {
        Tag {
            code: u32::from_be_bytes(bytes),
        }
    }

    // The four bytes, first byte first.
    pub fn to_bytes(self) -> [u8; 4]
        ensures bytes { result ≡ spelt self.code }
        ensures code { coded result ≡ self.code }
    {
        self.code.to_be_bytes()
    }
}

// By the number, which is the order of the four bytes compared first byte first.
impl Key for Tag {
    ghost before = { TagBefore };

    ghost same = { TagSame };

    ghost laws = { Prim.search rules };

    #[tactic(auto, using(crate::proofs::Codes::by_bytes))]
    fn order(self, other: Tag) -> Ordering
        ensures ranked { MatchOrdering result (TagBefore self other) (TagSame self other) (TagBefore other self) }
        ensures bytes { ByBytes self other result }
    {
        self.cmp(&other)
    }
}
