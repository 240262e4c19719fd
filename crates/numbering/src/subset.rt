// What is asked of a source and the lookups that are kept.
ghost use Rattle.std.specs.Prelude.{◌≡◌};
ghost use Rattle.std.specs.List.{slice_get};
ghost use Rattle.source.specs.Questions.{feature, lookups_of};
ghost use Rattle.numbering.specs.Sets.{among, any, passes};

use crate::sets::IndexSet;
use source::{FeaturePlace, Source};

// A source, and the lookups of it that are kept. What its functions write goes to slices that are lent, so each asks for
// room in its own.
#[derive(Drop)]
pub(crate) struct Subset<'a, 'b, S> {
    pub(crate) source: &'a S,
    pub(crate) lookups: IndexSet<'b>,
}

impl<'a, 'b, S: Source> Subset<'a, 'b, S> {
    // Whether a feature has a kept lookup at a place.
    fn names_kept_at(&self, at: FeaturePlace, k: u16) -> bool
        ensures { result ≡ passes (among self.now.lookups.items.now) (slice_get (lookups_of (feature (S.reading self.now.source.now) at)) k) }
    {
        let Some(lookup) = self.source.lookup(at, k) else {
            return false;
        };
        self.lookups.contains(lookup)
    }

    // Whether a feature names a kept lookup.
    pub(crate) fn feature_intersects_lookups(&self, at: FeaturePlace) -> bool
        ensures { result ≡ any (among self.now.lookups.items.now) (lookups_of (feature (S.reading self.now.source.now) at)) }
    {
        let count = self.source.feature(at).count();
        (0..count).any(|k| self.names_kept_at(at, k))
    }
}
