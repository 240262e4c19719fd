// The earliest match of each survivor: the first survivor before it that is alike, or itself.
ghost use Rattle.std.specs.Prelude.{◌≡◌, ℕ, ◌+◌, ◌<◌, ◌≤◌, List, length, take, slice_index};
ghost use Rattle.source.specs.Reading.{Reading};
ghost use Rattle.numbering.specs.Stages.{matched, earliest, earliest_of};

use crate::subset::Subset;
use source::{FeaturePlace, Source, Standing};

// A way to look through the survivors that have joined.
pub(crate) trait Earlier {
    // The survivors below a place have joined, under a reading and kept lookups.
    ghost holds: { Self → Reading → List ℕ → List ℕ → ℕ → Type 0 };

    // Finds the earliest match of the survivor at a place, which joins. Those of the survivors before it are known. The
    // slices and the place go together through this call alone, so a struct of them would be no plainer.
    fn join<S: Source>(
        &mut self,
        subset: &Subset<'_, '_, S>,
        survivors: &[u16],
        known: &[u16],
        v: usize,
    ) -> u16
        requires place { v < length survivors.now }
        requires written { v ≤ length known.now }
        requires holds { holds self.old (S.reading subset.now.source.now) subset.now.lookups.items.now survivors.now v }
        requires known { (k : ℕ) → k < v → slice_index known.now k ≡ earliest (S.reading subset.now.source.now) subset.now.lookups.items.now (take k survivors.now) (slice_index survivors.now k) }
        ensures earliest { result ≡ earliest (S.reading subset.now.source.now) subset.now.lookups.items.now (take v survivors.now) (slice_index survivors.now v) }
        ensures holds { holds self.new (S.reading subset.now.source.now) subset.now.lookups.items.now survivors.now (v + 1) };
}

// Compares with every survivor before, of any number.
#[derive(Drop)]
pub(crate) struct All;

impl Earlier for All {
    ghost holds = { λ s r ls vs v. Unit {0} };

    fn join<S: Source>(
        &mut self,
        subset: &Subset<'_, '_, S>,
        survivors: &[u16],
        known: &[u16],
        v: usize,
    ) -> u16 {
        subset.first_alike(&survivors[..v], survivors[v])
    }
}

impl<'a, 'b, S: Source> Subset<'a, 'b, S> {
    // The first of some features that is alike, or the feature itself.
    fn first_alike(&self, seen: &[u16], i: u16) -> u16
        ensures { result ≡ earliest (S.reading self.now.source.now) self.now.lookups.items.now seen.now i }
    {
        seen.iter()
            .copied()
            .find(|j| self.is_alike(*j, i))
            .unwrap_or(i)
    }

    // Writes the earliest match of each survivor, and answers how many have one: the first survivor that cannot be
    // read and all later ones have none.
    pub(crate) fn find_duplicates<E: Earlier>(
        &self,
        earlier: &mut E,
        survivors: &[u16],
        out: &mut [u16],
    ) -> usize
        requires room { length survivors.now ≤ length out.old }
        requires holds { E.holds earlier.old (S.reading self.now.source.now) self.now.lookups.items.now survivors.now 0 }
        ensures count { result ≤ length survivors.now }
        ensures front { take result survivors.now ≡ matched (S.reading self.now.source.now) survivors.now }
        ensures list { take result out.new ≡ earliest_of (S.reading self.now.source.now) self.now.lookups.items.now survivors.now }
    {
        for (v, i) in survivors.iter().enumerate() {
            let at = FeaturePlace::Listed { feature: *i };
            let Standing::There(_) = self.source.feature(at) else {
                return v;
            };
            out[v] = earlier.join(self, survivors, &*out, v);
        }
        survivors.len()
    }
}
