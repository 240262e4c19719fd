// Sets of indices.
ghost use Rattle.std.specs.Prelude.{◌+◌, ◌≤◌, length, IfSome, MatchOption, IfOk, OnOk};
ghost use Rattle.std.specs.Option.{SomeIff};
ghost use Rattle.kept.specs.Ranges.{index_of, Writes, From, Both, Ranges, InRun, Ascends, Filled, Covers};
ghost use Rattle.kept.specs.Cuts.{Listed};

use crate::lists::{Unread, read_set};
use crate::parts::Part;
use crate::runs::Run;
use crate::sets::put;
use std::alloc::{AllocError, Global};

// The index that a text writes in decimal.
fn read_index(text: &str) -> Option<u16>
    ensures { SomeIff result (Writes text.now) (index_of text.now) }
{
    text.parse().ok()
}

// A run, unless it goes backward.
fn forward(first: u16, last: u16) -> Option<Run>
    ensures { MatchOption result (first ≤ last → ⊥) (From first last) }
{
    if first <= last {
        Some(Run { first, last })
    } else {
        None
    }
}

// The run between the indices that two texts write, unless it goes backward.
fn read_two(first: &str, last: &str) -> Option<Run>
    ensures { IfSome result (Both first.now last.now) }
{
    forward(read_index(first)?, read_index(last)?)
}

// A range: `4-9`, or one index.
fn read_range(text: &str) -> Option<Run>
    ensures { IfSome result (Ranges text.now) }
{
    if let Some((first, last)) = text.split_once('-') {
        return read_two(first, last);
    }
    let index = read_index(text)?;
    forward(index, index)
}

// Puts the indices of a run into a set.
fn put_range(set: &mut Vec<u16>, run: Run) -> Result<(), AllocError>
    ensures ascending { Ascends set.old.items → Ascends set.new.items }
    ensures filled { OnOk result (Filled set.old.items set.new.items run.first (run.last + 1)) }
{
    for index in run.first..=run.last {
        put(set, index)?;
    }
    Ok(())
}

impl Part for Run {
    type Key = u16;

    ghost says = { Ranges };

    ghost has = { InRun };

    fn read(text: &str) -> Option<Run> {
        read_range(text)
    }

    fn put_into(self, set: &mut Vec<u16>) -> Result<(), AllocError> {
        put_range(set, self)
    }
}

// The set of indices that a list like `0,1,4-9` gives.
pub fn read_indices(heap: Global, text: &str) -> Result<Vec<u16>, Unread>
    ensures ascending { IfOk result (λ v. Ascends v.items) }
    ensures covers { IfOk result (λ v. Listed text.now (λ ps. Covers ps v.items (length ps))) }
{
    read_set::<Run>(heap, text)
}
