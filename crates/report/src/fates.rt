// What becomes of kept features.
ghost use Rattle.std.specs.Prelude.{MatchOption};
ghost use Rattle.numbering.specs.Numbering.{held};
ghost use Rattle.report.specs.Fates.{Lacks, Stands, Like, Fated};

use numbering::Numbering;

// What becomes of a kept feature.
#[derive(Clone, Copy, PartialEq, Eq, Debug)]
pub enum Fate {
    // It does not survive.
    Dropped,
    // It survives, but it or a survivor before it cannot be read.
    Unread,
    // No language system that is collected names it.
    Unnamed,
    // It has a number, perhaps that of an earlier feature that is like it.
    Numbered { number: u16, like: Option<u16> },
}

// The first place of a number.
fn place_of(list: &[u16], x: u16) -> Option<usize>
    ensures { MatchOption result (Lacks list.now x) (Stands list.now x) }
{
    list.iter().position(|y| *y == x)
}

// The earliest match whose number is shared.
fn shared(retained: &[u16], earliest: u16, index: u16) -> Option<u16>
    ensures { Like retained.now earliest index result }
{
    if earliest == index {
        return None;
    }
    place_of(retained, earliest).map(|_| earliest)
}

// What becomes of a kept feature, by the lists of a numbering.
fn fate_in(
    survivors: &[u16],
    earliest: &[u16],
    retained: &[u16],
    numbers: &[u16],
    index: u16,
) -> Fate
    ensures { Fated survivors.now earliest.now retained.now numbers.now index result }
{
    let Some(at) = place_of(survivors, index) else {
        return Fate::Dropped;
    };
    if at >= earliest.len() {
        return Fate::Unread;
    }
    match place_of(retained, index) {
        Some(place) => Fate::Numbered {
            number: numbers.get(place).copied().unwrap_or(0),
            like: shared(retained, earliest[at], index),
        },
        None => Fate::Unnamed,
    }
}

// What a numbering makes of a kept feature.
pub fn fate_of(numbering: &Numbering, index: u16) -> Fate
    ensures { Fated (held numbering.now.survivors) (held numbering.now.earliest) (held numbering.now.retained) (held numbering.now.numbers) index result }
{
    fate_in(
        numbering.survivors.as_slice(),
        numbering.earliest.as_slice(),
        numbering.retained.as_slice(),
        numbering.numbers.as_slice(),
        index,
    )
}
