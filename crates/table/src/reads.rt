// What is read of a table that was found: conditions, parameters, and what it says besides its entries.
ghost use Rattle.std.specs.Prelude.{◌≡◌, ◌+◌, ◌==◌, cond};
ghost use Rattle.source.specs.Standings.{mapped};
ghost use Rattle.source.specs.Questions.{params_meaning};
ghost use Rattle.source.specs.declared.parts.Standing.TheVariants.{Absent};
ghost use Rattle.table.specs.Format.{condition_set_layout, condition_by_format, condition_at, condition_entry_at, listed_params, params_at, alternate_params};
ghost use Rattle.table.specs.Places.{at_entry, feature_place, params_of_place, lang_sys_fields, variations_fields, substitution_fields};
ghost use Rattle.table.specs.Spots.{spots, variations_spots, found};

use crate::counted::Counted;
use crate::fields::u32_at;
use crate::layouts::{ConditionSet, Feature, Substitutions, System};
use crate::located;
use crate::place::Place;
use crate::places::{mapped, tag_of};
use crate::variations::VariationList;
use keys::Tag;
use source::{Condition, FeatureParams, FeaturePlace, LangSys, Standing, Substitution, Variations};

// The condition at a place, of which the format is known.
fn condition_by_format(place: Place<'_>, format: u16) -> Standing<Condition>
    ensures { result ≡ condition_by_format place.entry.bytes.now format place.entry.at }
{
    match format {
        1 if place.lent(8).is_unreadable() => Standing::Unreadable,
        1 => Standing::There(Condition::Format1 {
            axis: place.short(2),
            minimum: place.short(4),
            maximum: place.short(6),
        }),
        2..=5 => Standing::There(Condition::Other),
        _ => Standing::Unreadable,
    }
}

// The condition that an offset of a condition set leads to.
fn condition_at(set: &Counted<'_, ConditionSet>, offset: u32) -> Standing<Condition>
    ensures { result ≡ cond (offset == 0) Absent (condition_at set.now.bytes.now (set.now.at + offset)) }
{
    if offset == 0 {
        return Standing::Absent;
    }
    let place = set.place(offset);
    if place.lent(2).is_unreadable() {
        return Standing::Unreadable;
    }
    condition_by_format(place, place.short(0))
}

// The condition at an entry of a condition set.
pub(crate) fn condition_of(set: Standing<Counted<'_, ConditionSet>>, k: u16) -> Standing<Condition>
    ensures { result ≡ found (spots set.entry) Absent (λ b p. at_entry b condition_set_layout p k Absent (condition_entry_at b p)) }
{
    let Some(set) = set.there() else {
        return Standing::Absent;
    };
    let Some(e) = set.entry(k) else {
        return Standing::Absent;
    };
    condition_at(&set, e.long(0))
}

// The parameters at a place, by the feature's tag.
fn params_at(place: Place<'_>, tag: Tag) -> Standing<FeatureParams<'_>>
    ensures { mapped params_meaning result ≡ params_at place.entry.bytes.now tag.code place.entry.at }
{
    match tag.to_bytes() {
        [b's', b'i', b'z', b'e'] => mapped(place.lent(10), FeatureParams::Size),
        [b's', b's', ..] => mapped(place.lent(4), FeatureParams::StylisticSet),
        [b'c', b'v', ..] => {
            let count = u32::from(place.short(12));
            mapped(place.lent(14 + 3 * count), FeatureParams::CharacterVariant)
        }
        _ => Standing::Unreadable,
    }
}

// The parameters of a listed feature, which has that tag.
#[tactic(auto, using(crate::proofs::Spots::first_field))]
fn listed_params<'a>(feature: &Counted<'a, Feature>, tag: Tag) -> Standing<FeatureParams<'a>>
    ensures { mapped params_meaning result ≡ listed_params feature.now.bytes.now tag.code feature.now.at }
{
    let offset = feature.field(0);
    if offset == 0 {
        return Standing::Absent;
    }
    params_at(feature.place(u32::from(offset)), tag)
}

// The parameters of an alternate feature, which cannot be read.
fn alternate_params<'a>(feature: &Counted<'a, Feature>) -> Standing<FeatureParams<'a>>
    ensures { mapped params_meaning result ≡ alternate_params feature.now.bytes.now feature.now.at }
{
    if feature.field(0) == 0 {
        return Standing::Absent;
    }
    Standing::Unreadable
}

// The parameters of the feature that is asked for.
#[tactic(auto, using(crate::proofs::Spots::tag_found, crate::proofs::Spots::listed_params_found, crate::proofs::Spots::alternate_params_found))]
pub(crate) fn params_of(bytes: &[u8], at: FeaturePlace) -> Standing<FeatureParams<'_>>
    ensures { mapped params_meaning result ≡ params_of_place bytes.now at (feature_place bytes.now at) }
{
    let Some(found) = located::feature(bytes, at).there() else {
        return Standing::Absent;
    };
    match at {
        FeaturePlace::Listed { feature } => {
            listed_params(&found, tag_of(located::feature_list(bytes), feature))
        }
        FeaturePlace::Alternate { .. } => alternate_params(&found),
    }
}

// What a language system says besides its indices.
pub(crate) fn lang_sys_head(system: Standing<Counted<'_, System>>) -> Standing<LangSys>
    ensures { result ≡ mapped (λ s. lang_sys_fields s.bytes s.at) (spots system.entry) }
{
    mapped(
        system,
        |system| LangSys {
            required: system.field(2),
            count: system.len(),
        },
    )
}

// The version and the count of a variation list.
pub(crate) fn variations_head(list: Standing<VariationList<'_>>) -> Standing<Variations>
    ensures { result ≡ mapped (λ s. variations_fields s.bytes s.at) (variations_spots list.entry) }
{
    mapped(
        list,
        |list| Variations {
            version: u32_at(list.bytes, list.at),
            count: list.len(),
        },
    )
}

// The version and the count of a substitution table.
pub(crate) fn substitution_head(
    table: Standing<Counted<'_, Substitutions>>,
) -> Standing<Substitution>
    ensures { result ≡ mapped (λ s. substitution_fields s.bytes s.at) (spots table.entry) }
{
    mapped(
        table,
        |table| Substitution {
            version: u32_at(table.bytes, table.at),
            count: table.len(),
        },
    )
}
