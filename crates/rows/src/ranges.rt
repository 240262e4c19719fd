ghost use Rattle.std.specs.Prelude.{◌≡◌, ◌≤◌, length, take};
ghost use Rattle.std.specs.List.{slice_get};
ghost use Rattle.source.specs.Standings.{mapped, listed, ForThere};
ghost use Rattle.rows.specs.Format.{ranged};
ghost use Rattle.rows.specs.Sizes.{most_rows};
ghost use Rattle.rows.specs.Standings.{Follows};

use crate::slices::MOST_ROWS;
use source::Standing;

// The rows within the capacity.
#[tactic(auto, using(crate::proofs::Readings::all_taken))]
pub(crate) fn capped<T>(rows: &[T]) -> &[T]
    ensures cut { result.now ≡ take most_rows rows.now }
    ensures few { length result.now ≤ most_rows }
{
    rows.get(..MOST_ROWS).unwrap_or(rows)
}

// The element at a place.
fn element<T: Copy>(elements: &[T], at: u16) -> Option<T>
    ensures { result ≡ slice_get elements.now at }
{
    elements.get(at as usize).copied()
}

// The row at a place, within the capacity.
pub(crate) fn row_at<T: Copy>(rows: &[T], at: u16) -> Option<T>
    ensures { result ≡ slice_get (take most_rows rows.now) at }
{
    element(capped(rows), at)
}

// The elements of a range, if it ends within the slice.
pub(crate) fn range<T>(rows: &[T], first: u16, count: u16) -> Standing<&[T]>
    ensures { mapped (λ r. r.now) result ≡ ranged rows.now first count }
{
    let first = first as usize;
    match rows.get(first..first + count as usize) {
        Some(range) => Standing::There(range),
        None => Standing::Unreadable,
    }
}

// The element at a place of a range.
pub(crate) fn range_at<T: Copy>(range: Standing<&[T]>, k: u16) -> Option<T>
    ensures { result ≡ slice_get (listed (mapped (λ r. r.now) range.entry)) k }
{
    element(range.there()?, k)
}

// What a function answers of a part, if it is there. It is not a method of the standing, since a public one would ask
// of its caller that the function may be called.
pub(crate) fn and_then<T, U, F: FnOnce(T) -> Standing<U>>(place: Standing<T>, f: F) -> Standing<U>
    requires { ForThere place (F.pre f) }
    ensures { Follows place (F.post f) result }
{
    match place {
        Standing::There(part) => f(part),
        Standing::Unreadable => Standing::Unreadable,
        Standing::Absent => Standing::Absent,
    }
}
