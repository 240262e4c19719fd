ghost use Rattle.std.specs.Prelude.{map};
ghost use Rattle.numbering.specs.Numbering.{Kept, Answered};
ghost use Rattle.numbering.specs.Systems.{code_of};

use crate::choices::{KeptSets, keep};
use crate::faults::Untold;
use crate::features::{Account, first_unread};
use crate::systems::write_pairs;
use console::{Page, SetWords};
use numbering::Numbering;
use source::{Refusal, Source};
use std::alloc::{AllocError, Global};

fn write_sizes(page: &mut Page, sets: &KeptSets) -> Result<(), AllocError> {
    let (lookups, features, scripts) = (
        sets.lookups.len(),
        sets.features.len(),
        sets.scripts.len(),
    );
    writeln!(
        page,
        "Kept: lookups {lookups}, features {features}, script tags {scripts}"
    )
}

fn write_told<S: Source>(page: &mut Page, account: &Account<'_, S>) -> Result<(), AllocError> {
    let numbering = account.numbering;
    write_sizes(page, account.sets)?;
    account.write_features(page)?;
    write_pairs(account.source, page, numbering.pairs.as_slice())?;
    let (retained, own) = (numbering.retained.as_slice().len(), numbering.own);
    writeln!(page, "Features retained: {retained}, under {own} numbers")
}

// The numbering of kept sets.
fn number_kept<S: Source>(source: &S, sets: &KeptSets) -> Result<Numbering, Refusal>
    requires { Kept sets.now.lookups.items sets.now.features.items sets.now.scripts.items }
    ensures { Answered (S.reading source.now) sets.now.lookups.items sets.now.features.items (map code_of sets.now.scripts.items) result }
{
    let kept = numbering::KeptSets {
        lookups: sets.lookups.as_slice(),
        features: sets.features.as_slice(),
        scripts: sets.scripts.as_slice(),
    };
    numbering::number_kept(source, &kept)
}

// Tells under a heading what becomes of the features of a table, of which three words say what is kept.
pub fn tell_numbering<'a, S: Source>(
    heap: Global,
    source: &S,
    heading: &str,
    words: SetWords<'a>,
) -> Result<Page, Untold<'a>> {
    let sets = keep(heap, source, words)?;
    // Of kept sets a numbering is refused for one reason alone.
    let numbering = number_kept(source, &sets).map_err(|_| Untold::TooManyPairs)?;
    let mut page = Page::new(heap);
    page.line(heading)?;
    page.end()?;
    write_told(
        &mut page,
        &Account {
            source,
            sets: &sets,
            numbering: &numbering,
            unread: first_unread(source, sets.features.as_slice()),
        },
    )?;
    Ok(page)
}
