// The numbers of retained indices.
ghost use Rattle.std.specs.Prelude.{◌≡◌, ℕ, ◌<◌, ◌≤◌, false, map, length, take, drop, MatchOption, slice_index};
ghost use Rattle.numbering.specs.Sets.{Ascends, among};
ghost use Rattle.numbering.specs.Numbers.{Settled, owners, number};

use keys::find;

// The place of a number in an ascending set. The new number of a kept lookup is its place among the kept ones.
pub fn place_in(set: &[u16], x: u16) -> Option<usize>
    ensures { Ascends set.now → MatchOption result (among set.now x ≡ false) (λ q. (q < length set.now) × (slice_index set.now q ≡ x)) }
{
    find(set, x).ok()
}

// Gives each retained index its number, lowest first: that of its earliest match where it is retained and lower, else
// the next own number. Answers how many own numbers there are.
pub(crate) fn remap_feature_indices(
    retained: &[u16],
    earliest: &[u16],
    numbers: &mut [u16],
) -> usize
    requires ascends { Ascends retained.now }
    requires given { length retained.now ≤ length earliest.now }
    requires room { length retained.now ≤ length numbers.old }
    ensures within { result ≤ length retained.now }
    ensures count { (f : ℕ → ℕ) → take (length retained.now) earliest.now ≡ map f retained.now → Settled retained.now f → result ≡ length (owners retained.now f) }
    ensures list { (f : ℕ → ℕ) → take (length retained.now) earliest.now ≡ map f retained.now → Settled retained.now f → take (length retained.now) numbers.new ≡ map (number retained.now f) retained.now }
    ensures rest { drop (length retained.now) numbers.new ≡ drop (length retained.now) numbers.old }
{
    let mut own = 0;
    // By index: a turn reads both slices before `k` and writes at `k`, so no iterator over one of them is plainer. The
    // slice is lent, with room for all.
    for k in 0..retained.len() {
        match place_in(&retained[0..k], earliest[k]) {
            Some(q) => numbers[k] = numbers[q],
            None => {
                numbers[k] = own as u16;
                own += 1;
            }
        }
    }
    own
}
