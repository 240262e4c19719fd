ghost use Rattle.std.specs.Prelude.{◌≤◌, IfOk};

use crate::answers::answer_line;
use console::Page;
use std::alloc::{AllocError, Global};

// How many cases were answered, and how many as recorded.
#[derive(Clone, Copy)]
pub(crate) struct Tally {
    pub(crate) cases: usize,
    pub(crate) same: usize,
}

fn write_difference(
    page: &mut Page,
    at: usize,
    wanted: &str,
    given: &str,
) -> Result<(), AllocError> {
    writeln!(page, "line {at} is not answered as recorded")?;
    writeln!(page, "  recorded: {wanted}")?;
    writeln!(page, "  given:    {given}")
}

// Answers the case of a line, and compares the answer with the recorded one.
fn compare(
    heap: Global,
    page: &mut Page,
    at: usize,
    case: &str,
    wanted: &str,
) -> Result<bool, AllocError> {
    let given = answer_line(heap, case, at)?;
    if given.as_str() == wanted {
        return Ok(true);
    }
    write_difference(page, at, wanted, given.as_str())?;
    Ok(false)
}

// Compares the cases of a text of case lines, each with its recorded answer on the next line.
pub(crate) fn replay(heap: Global, page: &mut Page, text: &str) -> Result<Tally, AllocError>
    ensures { IfOk result (λ t. t.same ≤ t.cases) }
{
    let lines = text.lines().collect::<Vec<&str>>(heap)?;
    // The cases are counted, since their number is told.
    let (mut cases, mut same) = (0, 0);
    let mut left = lines.as_slice();
    while let [case, wanted, rest @ ..] = left {
        if compare(heap, page, 2 * cases + 1, case, wanted)? {
            same += 1;
        }
        cases += 1;
        left = rest;
    }
    Ok(Tally { cases, same })
}
