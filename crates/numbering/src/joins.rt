// From kept lookups and features to the features that survive and the earliest match of each.
ghost use Rattle.std.specs.Option.{MatchOption};
ghost use Rattle.numbering.specs.Joins.{Joinable, Joined};

use crate::duplicates::All;
use crate::sets::IndexSet;
use crate::subset::Subset;
use source::Source;

// How many features survive, and how many of those have an earliest match. The lists themselves stand in slices that the
// caller lends.
#[derive(Clone, Copy, PartialEq, Eq, Debug)]
pub struct Joins {
    pub survivors: usize,
    pub matched: usize,
}

// Writes the surviving features, ascending, and the earliest match of each, or answers none where the lookups do not
// ascend or a slice is shorter than the kept features.
pub fn join_features<S: Source>(
    source: &S,
    lookups: &[u16],
    features: &[u16],
    survivors: &mut [u16],
    earliest: &mut [u16],
) -> Option<Joins>
    ensures { MatchOption result (Joinable lookups.now features.now survivors.old earliest.old → ⊥) (Joined (S.reading source.now) lookups.now features.now survivors.new earliest.new) }
{
    if survivors.len() < features.len() || earliest.len() < features.len() {
        return None;
    }
    let lookups = IndexSet::new(lookups)?;
    let subset = Subset { source, lookups };
    let count = subset.prune_features(features, survivors);
    let matched = subset.find_duplicates(&mut All, &survivors[..count], earliest);
    Some(Joins {
        survivors: count,
        matched,
    })
}
