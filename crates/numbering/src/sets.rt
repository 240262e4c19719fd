// Sets of indices.
ghost use Rattle.std.specs.Prelude.{◌≡◌, Decides, MatchOption, MatchResult};
ghost use Rattle.numbering.specs.Sets.{Ascends, among};
ghost use Rattle.numbering.specs.Numbering.{Kept};

use keys::{Tag, contains, is_ascending};

// The sizes of kept sets.
pub const MAX_LOOKUPS: usize = 1024;

pub const MAX_FEATURES: usize = 512;

pub const MAX_SCRIPTS: usize = 64;

// Indices that ascend.
#[derive(Clone, Copy)]
pub(crate) struct IndexSet<'a> {
    pub(crate) items: &'a [u16],
    ghost ascends: { Ascends items.now },
}

impl<'a> IndexSet<'a> {
    // Indices as a set, if they ascend.
    pub(crate) fn new(items: &'a [u16]) -> Option<IndexSet<'a>>
        ensures { MatchOption result (Ascends items.now → ⊥) (λ s. s.items.now ≡ items.now) }
    {
        // Tried as `then`: the proof didn't close, since its closure doesn't know what the test told.
        if is_ascending(items) {
            Some(IndexSet { items })
        } else {
            None
        }
    }

    // Whether an index is in the set.
    pub(crate) fn contains(&self, index: u16) -> bool
        ensures { result ≡ among self.now.items.now index }
    {
        contains(self.items, index)
    }
}

// Kept sets: lookups (at most 1,024), features (at most 512) and script tags (at most 64), which ascend.
#[derive(Clone, Copy)]
pub struct KeptSets<'a> {
    pub lookups: &'a [u16],
    pub features: &'a [u16],
    pub scripts: &'a [Tag],
    ghost kept: { Kept lookups.now features.now scripts.now },
}

// Sets that do not ascend or are too large.
#[derive(Clone, Copy, PartialEq, Eq, Debug)]
pub struct NotKeptSets;

// Whether kept sets ascend and none is over its size.
pub(crate) fn are_kept_sets(lookups: &[u16], features: &[u16], scripts: &[Tag]) -> bool
    ensures { Decides result (Kept lookups.now features.now scripts.now) }
{
    lookups.len() <= MAX_LOOKUPS
        && features.len() <= MAX_FEATURES
        && scripts.len() <= MAX_SCRIPTS
        && is_ascending(lookups)
        && is_ascending(features)
        && is_ascending(scripts)
}

impl<'a> KeptSets<'a> {
    // Sets that are tested.
    pub fn new(
        lookups: &'a [u16],
        features: &'a [u16],
        scripts: &'a [Tag],
    ) -> Result<KeptSets<'a>, NotKeptSets>
        ensures { MatchResult result (λ s. (s.lookups.now ≡ lookups.now) × (s.features.now ≡ features.now) × (s.scripts.now ≡ scripts.now)) (λ _. Kept lookups.now features.now scripts.now → ⊥) }
    {
        if !are_kept_sets(lookups, features, scripts) {
            return Err(NotKeptSets);
        }
        Ok(KeptSets {
            lookups,
            features,
            scripts,
        })
    }
}
