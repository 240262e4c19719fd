use crate::cases::{Case, read_case};
use kept::Unread;
use keys::Pair;
use numbering::{Numbering, Unnumbered, number_features};
use std::alloc::{AllocError, Global};
use table::Table;

// The answer to the case of a line, which stands at a place from 1 on.
pub(crate) fn answer_line(heap: Global, line: &str, at: usize) -> Result<String, AllocError> {
    match read_case(heap, line) {
        Ok(case) => answer_case(heap, &case),
        Err(Unread::WrongPart) => format!(in heap; "? line {at}"),
        Err(Unread::Memory) => Err(AllocError),
    }
}

fn answer_case(heap: Global, case: &Case) -> Result<String, AllocError> {
    let table = match Table::open(case.kind, case.table.as_slice()) {
        Ok(table) => table,
        Err(refusal) => {
            let number = refusal.number();
            return format!(in heap; "open refused {number}");
        }
    };
    match number_features(
        &table,
        case.lookups.as_slice(),
        case.features.as_slice(),
        case.scripts.as_slice(),
    ) {
        Ok(numbering) => write_numbering(heap, &numbering),
        Err(why) => write_unnumbered(heap, why),
    }
}

fn write_unnumbered(heap: Global, why: Unnumbered) -> Result<String, AllocError> {
    match why {
        Unnumbered::NotKeptSets => String::from_str(heap, "number refused kept sets"),
        Unnumbered::Refused(refusal) => {
            let number = refusal.number();
            format!(in heap; "number refused {number}")
        }
    }
}

fn write_numbering(heap: Global, numbering: &Numbering) -> Result<String, AllocError> {
    let retained = numbering.retained.as_slice();
    let (count, own) = (retained.len(), numbering.own);
    let mut text = format!(in heap; "number ok {count} {own} rows")?;
    write_rows(&mut text, retained, numbering.numbers.as_slice())?;
    text.push_str(" pairs")?;
    write_pairs(&mut text, numbering.pairs.as_slice())?;
    Ok(text)
}

fn write_rows(text: &mut String, retained: &[u16], numbers: &[u16]) -> Result<(), AllocError> {
    if retained.is_empty() {
        text.push_str(" -")?;
    }
    for (old, new) in retained.iter().zip(numbers.iter()) {
        write!(text, " {old}:{new}")?;
    }
    Ok(())
}

fn write_pairs(text: &mut String, pairs: &[Pair]) -> Result<(), AllocError> {
    if pairs.is_empty() {
        text.push_str(" -")?;
    }
    for pair in pairs {
        let (script, system) = (pair.script, pair.lang_sys);
        write!(text, " {script}:{system}")?;
    }
    Ok(())
}
