// Survivors chained by their buckets.
ghost use Rattle.std.specs.Prelude.{◌≡◌, ℕ, ◌+◌, ◌<◌, ◌≤◌, length, take, slice_index};
ghost use Rattle.numbering.specs.Chains.{bucket_in, Chained};
ghost use Rattle.numbering.specs.Stages.{earliest};

use crate::duplicates::Earlier;
use crate::subset::Subset;
use source::Source;

// How many buckets there are.
pub(crate) const BUCKETS: u32 = 239;

// `heads` has the last place of each bucket, and `nexts` has for each place the one before it in its bucket. Places in
// fixed tables link the chains, since there is no heap.
#[derive(Drop)]
pub(crate) struct Chains {
    pub(crate) heads: [Option<u16>; 239],
    pub(crate) nexts: [Option<u16>; 512],
}

impl Chains {
    pub(crate) fn new() -> Chains
        ensures { (f : ℕ → ℕ) → Chained result f 0 }
    {
        Chains {
            heads: [None; 239],
            nexts: [None; 512],
        }
    }

    // Puts the next place into a bucket.
    fn add(&mut self, place: usize, bucket: usize)
        requires place { place < 512 }
        requires bucket { bucket < 239 }
        ensures { (f : ℕ → ℕ) → Chained self.old f place → f place ≡ bucket → Chained self.new f (place + 1) }
    {
        self.nexts[place] = self.heads[bucket];
        self.heads[bucket] = Some(place as u16);
    }

    // The earliest match of the survivor at a place: one of its bucket that is alike has the same.
    fn earliest_match<S: Source>(
        &self,
        subset: &Subset<'_, '_, S>,
        survivors: &[u16],
        known: &[u16],
        v: usize,
        bucket: usize,
    ) -> u16
        requires place { v < length survivors.now }
        requires slot { v < 512 }
        requires written { v ≤ length known.now }
        requires chains { Chained self.now (λ p. bucket_in (S.reading subset.now.source.now) subset.now.lookups.items.now (slice_index survivors.now p)) v }
        requires bucket { bucket ≡ bucket_in (S.reading subset.now.source.now) subset.now.lookups.items.now (slice_index survivors.now v) }
        requires below { bucket < 239 }
        requires known { (k : ℕ) → k < v → slice_index known.now k ≡ earliest (S.reading subset.now.source.now) subset.now.lookups.items.now (take k survivors.now) (slice_index survivors.now k) }
        ensures { result ≡ earliest (S.reading subset.now.source.now) subset.now.lookups.items.now (take v survivors.now) (slice_index survivors.now v) }
    {
        let i = survivors[v];
        let mut at = self.heads[bucket];
        while let Some(p) = at {
            let p = p as usize;
            if subset.is_alike(survivors[p], i) {
                return known[p];
            }
            at = self.nexts[p];
        }
        i
    }
}

// Compares with the survivors of one bucket, of at most 512 survivors.
impl Earlier for Chains {
    ghost holds = { λ k r ls vs v. (length vs ≤ 512) × Chained k (λ p. bucket_in r ls (slice_index vs p)) v };

    fn join<S: Source>(
        &mut self,
        subset: &Subset<'_, '_, S>,
        survivors: &[u16],
        known: &[u16],
        v: usize,
    ) -> u16 {
        let bucket = subset.bucket_of(survivors[v]);
        let found = self.earliest_match(subset, survivors, known, v, bucket);
        self.add(v, bucket);
        found
    }
}
