// Features that are alike: equal tags, and equal kept lookups.
ghost use Rattle.std.specs.Prelude.{◌≡◌, ◌<◌, map};
ghost use Rattle.source.specs.Questions.{feature, lookups_of};
ghost use Rattle.source.specs.declared.parts.FeaturePlace.TheVariants.{Listed};
ghost use Rattle.numbering.specs.Chains.{bucket_in};
ghost use Rattle.numbering.specs.Sets.{if_among};
ghost use Rattle.numbering.specs.Stages.{alike};

use crate::chains::BUCKETS;
use crate::sequence::{MIX_MODULUS, Sequence, mix_numbers, same_numbers};
use crate::subset::Subset;
use source::{FeaturePlace, Source};

// The kept lookups of a listed feature.
#[derive(Drop)]
pub(crate) struct KeptLookups<'s, 'a, 'b, S> {
    subset: &'s Subset<'a, 'b, S>,
    index: u16,
}

impl<'s, 'a, 'b, S: Source> Sequence for KeptLookups<'s, 'a, 'b, S> {
    ghost places = { λ q. map (if_among q.subset.now.lookups.items.now) (lookups_of (feature (S.Source.reading q.subset.now.source.now) (Listed q.index))) };

    fn count(&self) -> u16 {
        let at = FeaturePlace::Listed {
            feature: self.index,
        };
        self.subset.source.feature(at).count()
    }

    fn number_at(&self, k: u16) -> Option<u16> {
        let at = FeaturePlace::Listed {
            feature: self.index,
        };
        let lookup = self.subset.source.lookup(at, k)?;
        self.subset.lookups.contains(lookup).then_some(lookup)
    }
}

impl<'a, 'b, S: Source> Subset<'a, 'b, S> {
    // Whether two listed features have equal tags and equal kept lookups.
    #[tactic(auto, using(crate::proofs::Matching::alike_by_lookups, crate::proofs::Matching::unlike_by_tags))]
    pub(crate) fn is_alike(&self, j: u16, i: u16) -> bool
        ensures { result ≡ alike (S.reading self.now.source.now) self.now.lookups.items.now j i }
    {
        if self.source.feature_tag(j) != self.source.feature_tag(i) {
            return false;
        }
        let a = KeptLookups {
            subset: self,
            index: j,
        };
        let b = KeptLookups {
            subset: self,
            index: i,
        };
        same_numbers(&a, &b)
    }

    // The bucket of a listed feature, by its tag and its kept lookups.
    pub(crate) fn bucket_of(&self, index: u16) -> usize
        ensures value { result ≡ bucket_in (S.reading self.now.source.now) self.now.lookups.items.now index }
        ensures below { result < 239 }
    {
        let q = KeptLookups {
            subset: self,
            index,
        };
        let h = mix_numbers(&q, self.source.feature_tag(index).code % MIX_MODULUS);
        (h % BUCKETS) as usize
    }
}
