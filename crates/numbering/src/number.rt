// The numbering: from kept sets to the retained features and their numbers.
ghost use Rattle.std.specs.Prelude.{◌≤◌, map, length, IfOk};
ghost use Rattle.numbering.specs.Systems.{code_of};
ghost use Rattle.numbering.specs.Numbering.{held_pairs, Answered, TurnedAway, RefusedWith, NumberedOrNot};

use crate::chains::Chains;
use crate::equals::Matches;
use crate::filled::{Filled, Indices, Pairs};
use crate::remap::remap_feature_indices;
use crate::sets::{IndexSet, KeptSets, NotKeptSets};
use crate::subset::Subset;
use crate::systems::PruneLangSysContext;
use crate::walk::ScriptWalk;
use keys::Tag;
use source::{Refusal, Source};

// What becomes of the kept features. `survivors` are those that survive, ascending; `earliest` has the earliest match
// of each survivor up to the first that cannot be read. `retained` are the indices that keep a number, ascending, and
// `numbers` has the number of each; `own` numbers are different. The lists stand beside one another and not in pairs: an
// index is looked up among the indices alone, and `earliest` ends where `survivors` goes on, so pairs are no plainer. `pairs` are the language systems that are kept.
#[derive(Drop)]
pub struct Numbering {
    pub survivors: Indices,
    pub earliest: Indices,
    pub retained: Indices,
    pub numbers: Indices,
    pub pairs: Pairs,
    pub own: usize,
}

// Why there is no numbering: the kept sets do not ascend or are too large, or the call is refused.
#[derive(Clone, Copy, PartialEq, Eq, Debug)]
pub enum Unnumbered {
    NotKeptSets,
    Refused(Refusal),
}

impl From<NotKeptSets> for Unnumbered {
    ghost from_gives = { TurnedAway };

    fn from(_: NotKeptSets) -> Unnumbered {
        Unnumbered::NotKeptSets
    }
}

impl From<Refusal> for Unnumbered {
    ghost from_gives = { RefusedWith };

    fn from(refusal: Refusal) -> Unnumbered {
        Unnumbered::Refused(refusal)
    }
}

// Numbers the features that a site keeps.
pub fn number_kept<S: Source>(source: &S, sets: &KeptSets<'_>) -> Result<Numbering, Refusal>
    ensures answered { Answered (S.reading source.now) sets.now.lookups.now sets.now.features.now (map code_of sets.now.scripts.now) result }
    ensures few { IfOk result (λ n. length (held_pairs n.pairs) ≤ 2048) }
{
    // Each table has its count beside it until the end: two stages write slices that `join_features` lends, and the others
    // read what those wrote, so tables that grow would be no plainer.
    let mut survivors = [0; 512];
    let mut earliest = [0; 512];
    let subset = Subset {
        source,
        lookups: IndexSet {
            items: sets.lookups,
        },
    };
    let survived = subset.prune_features(sets.features, &mut survivors);
    let matched = subset.find_duplicates(&mut Chains::new(), &survivors[..survived], &mut earliest);
    let walk = ScriptWalk {
        source,
        matches: Matches {
            matched: &survivors[..matched],
            earliest: &earliest[..matched],
        },
        tags: sets.scripts,
    };
    let mut context = PruneLangSysContext::new();
    let mut retained = [0; 512];
    let mut targets = [0; 512];
    let mut numbers = [0; 512];
    let count = context.prune_langsys(&walk, &mut retained)?;
    context.choose(&earliest[..matched], &mut targets);
    let own = remap_feature_indices(&retained[..count], &targets, &mut numbers);
    Ok(Numbering {
        survivors: Filled::front(survivors, survived),
        earliest: Filled::front(earliest, matched),
        retained: Filled::front(retained, count),
        numbers: Filled::front(numbers, count),
        pairs: context.pairs,
        own,
    })
}

// Numbers the features that a site keeps, unless the slices are no kept sets.
pub fn number_features<S: Source>(
    source: &S,
    lookups: &[u16],
    features: &[u16],
    scripts: &[Tag],
) -> Result<Numbering, Unnumbered>
    ensures { NumberedOrNot (S.reading source.now) lookups.now features.now scripts.now result }
{
    let sets = KeptSets::new(lookups, features, scripts)?;
    Ok(number_kept(source, &sets)?)
}
