// Numbers that stand at some places of a list, compared in order.
ghost use Rattle.std.specs.Prelude.{◌≡◌, ℕ, ◌<◌, List, length, None, Option, slice_index_or};
ghost use Rattle.numbering.specs.Chains.{mixed};
ghost use Rattle.numbering.specs.Sets.{somes, equal_lists};

// Mixed numbers are below it.
pub(crate) const MIX_MODULUS: u32 = 65521;

// A list in which some places are left out.
pub(crate) trait Sequence {
    ghost places: { Self → List (Option ℕ) };

    fn count(&self) -> u16
        ensures { result ≡ length (places self.now) };

    // The number at a place, unless it is left out.
    fn number_at(&self, k: u16) -> Option<u16>
        ensures { result ≡ slice_index_or (places self.now) k None };
}

// Whether two sequences give the same numbers in the same order.
pub(crate) fn same_numbers<Q: Sequence>(a: &Q, b: &Q) -> bool
    ensures { result ≡ equal_lists (somes (Q.places a.now)) (somes (Q.places b.now)) }
{
    let ours = (0..a.count()).filter_map(|k| a.number_at(k));
    let theirs = (0..b.count()).filter_map(|k| b.number_at(k));
    ours.eq(theirs)
}

// The numbers of a sequence, mixed into one.
#[tactic(auto, using(crate::proofs::Somes::turns))]
pub(crate) fn mix_numbers<Q: Sequence>(q: &Q, start: u32) -> u32
    requires { start < 65521 }
    ensures { result ≡ mixed start (somes (Q.places q.now)) }
{
    // Tried as a `fold`: its closure doesn't know that `h` is small, so the proof didn't close.
    let mut h = start;
    for k in 0..q.count() {
        if let Some(x) = q.number_at(k) {
            h = (h * 31 + (x as u32 + 1)) % MIX_MODULUS;
        }
    }
    h
}
