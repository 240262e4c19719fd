// A search and an insertion over keys in order at the front of a slice.
ghost use Rattle.std.specs.Prelude.{◌≡◌, ◌+◌, ◌<◌, ◌≤◌, true, ◌++◌, length, take, drop, Decides, IfOk, MatchResult};
ghost use Rattle.std.specs.List.{insert};
ghost use Rattle.keys.specs.Slots.{Ascending, Held, Found, Placed, filled, Inserted, Joined};

use crate::order::Key;
use std::cmp::Ordering;

// No slot is free.
#[derive(Clone, Copy, PartialEq, Eq, Debug)]
pub struct Full;

// The place of `key` in keys that ascend, or the place where it would go.
pub fn find<K: Key>(keys: &[K], key: K) -> Result<usize, usize>
    ensures found { Found K.same keys.now key result }
    ensures placed { Ascending K.before keys.now → Placed K.before K.same keys.now key result }
{
    // Tried as `binary_search_by`: the proof didn't close, since it wants a function where `order` has relations.
    let mut low = 0;
    let mut high = keys.len();
    while low < high {
        let mid = low + (high - low) / 2;
        match keys[mid].order(key) {
            Ordering::Less => low = mid + 1,
            Ordering::Equal => return Ok(mid),
            Ordering::Greater => high = mid,
        }
    }
    Err(low)
}

// Whether `key` is among keys that ascend.
#[tactic(auto, using(crate::proofs::Searches::held))]
pub fn contains<K: Key>(keys: &[K], key: K) -> bool
    ensures held { result ≡ true → Held K.same keys.now key }
    ensures found { Ascending K.before keys.now → Held K.same keys.now key → result ≡ true }
{
    find(keys, key).is_ok()
}

// Whether each key is before the next one.
pub fn is_ascending<K: Key>(keys: &[K]) -> bool
    ensures { Decides result (Ascending K.before keys.now) }
{
    // Tried as `keys.iter().is_sorted_by(..)`: the proof didn't close.
    for i in 1..keys.len() {
        if !keys[i - 1].order(keys[i]).is_lt() {
            return false;
        }
    }
    true
}

// Writes `key` at `at`, and moves what stands from there up to `end` one place on, over what stands at `end`.
#[tactic(auto, using(crate::proofs::Shifts::put_shifted))]
fn put<K: Key>(slots: &mut [K], at: usize, end: usize, key: K)
    requires order { at ≤ end }
    requires room { end < length slots.old }
    ensures slots { slots.new ≡ insert (take end slots.old) at key ++ drop (end + 1) slots.old }
{
    slots.copy_within(at..end, at + 1);
    slots[at] = key;
}

// The slots are lent, with how many of them are filled beside, since the library has no heap.
//
// Puts `key` among the first `len` slots, which are filled in order, and answers how many are filled then.
pub fn insert<K: Key>(slots: &mut [K], len: usize, key: K) -> Result<usize, Full>
    ensures inserted { Inserted K.before K.same len key slots.old slots.new result }
    ensures ascending { Ascending K.before (filled len slots.old) → MatchResult result (λ n. Ascending K.before (filled n slots.new)) (λ _. Ascending K.before slots.new) }
    ensures joined { IfOk result (λ n. Joined K.same (filled len slots.old) (filled n slots.new) key) }
{
    let end = len.min(slots.len());
    match find(&slots[0..end], key) {
        Ok(_) => Ok(end),
        Err(at) => {
            if end == slots.len() {
                return Err(Full);
            }
            put(slots, at, end, key);
            Ok(end + 1)
        }
    }
}
