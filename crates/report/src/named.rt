// The sets for the word `all`.
ghost use Rattle.std.specs.Prelude.{[], IfOk};
ghost use Rattle.keys.specs.Slots.{Ascending};
ghost use Rattle.keys.specs.Tags.{TagBefore};
ghost use Rattle.kept.specs.Ranges.{Ascends, Filled};
ghost use Rattle.report.specs.Features.{feature_count};

use kept::put;
use keys::Tag;
use source::{FeaturePlace, Source, Standing};
use std::alloc::{AllocError, Global};

// Each feature of the list.
pub(crate) fn all_features<S: Source>(heap: Global, source: &S) -> Result<Vec<u16>, AllocError>
    ensures { IfOk result (λ v. Ascends v.items × Filled [] v.items 0 (feature_count (S.reading source.now))) }
{
    let mut set = Vec::new(heap);
    for index in 0..source.feature_list().count() {
        put(&mut set, index)?;
    }
    Ok(set)
}

// The tag of each script of the list.
pub(crate) fn all_scripts<S: Source>(heap: Global, source: &S) -> Result<Vec<Tag>, AllocError>
    ensures { IfOk result (λ v. Ascending TagBefore v.items) }
{
    let mut set = Vec::new(heap);
    for at in 0..source.script_list().count() {
        put(&mut set, source.script_tag(at))?;
    }
    Ok(set)
}

// Puts the lookups of a feature into a set.
fn put_lookups<S: Source>(
    set: &mut Vec<u16>,
    source: &S,
    place: FeaturePlace,
) -> Result<(), AllocError>
    ensures { Ascends set.old.items → Ascends set.new.items }
{
    for k in 0..source.feature(place).count() {
        if let Some(lookup) = source.lookup(place, k) {
            put(set, lookup)?;
        }
    }
    Ok(())
}

// Puts the lookups of the alternates of a variation into a set.
fn put_alternates<S: Source>(
    set: &mut Vec<u16>,
    source: &S,
    variation: u32,
) -> Result<(), AllocError>
    ensures { Ascends set.old.items → Ascends set.new.items }
{
    let Standing::There(found) = source.substitution(variation) else {
        return Ok(());
    };
    for substitution in 0..found.count {
        put_lookups(
            set,
            source,
            FeaturePlace::Alternate {
                variation,
                substitution,
            },
        )?;
    }
    Ok(())
}

// Puts the lookups of all alternates into a set.
fn put_variations<S: Source>(set: &mut Vec<u16>, source: &S) -> Result<(), AllocError>
    ensures { Ascends set.old.items → Ascends set.new.items }
{
    let Standing::There(found) = source.variations() else {
        return Ok(());
    };
    for variation in 0..found.count {
        put_alternates(set, source, variation)?;
    }
    Ok(())
}

// Each lookup that a feature or an alternate names.
pub(crate) fn all_lookups<S: Source>(heap: Global, source: &S) -> Result<Vec<u16>, AllocError>
    ensures { IfOk result (λ v. Ascends v.items) }
{
    let mut set = Vec::new(heap);
    for feature in 0..source.feature_list().count() {
        put_lookups(&mut set, source, FeaturePlace::Listed { feature })?;
    }
    put_variations(&mut set, source)?;
    Ok(set)
}
