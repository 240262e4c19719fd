// Where each table lies, by its place in the lists above it.
ghost use Rattle.std.specs.Prelude.{◌≡◌, ◌+◌, ◌*◌, cond, nat_lt};
ghost use Rattle.source.specs.declared.parts.Standing.TheVariants.{Absent};
ghost use Rattle.table.specs.Format.{list_layout, lang_sys_layout, substitution_layout, feature_layout, u16_at, u32_at, led, script_list_place, feature_list_place, variations_place};
ghost use Rattle.table.specs.Places.{at_entry, script_place, lang_sys_place, condition_set_place, substitution_place, feature_place};
ghost use Rattle.table.specs.Spots.{placed, spots, variations_spots, found};

use crate::counted::Counted;
use crate::fields::{u16_at, u32_at};
use crate::layouts::{ConditionSet, Feature, List, Part, Script, Substitutions, System};
use crate::places::record_led_to;
use crate::variations::VariationList;
use source::{FeaturePlace, LangSysPlace, Standing};

// The list that the offset at a place of the header leads to.
#[inline(always)]
fn list(bytes: &[u8], place: u8) -> Standing<Counted<'_, List>>
    ensures { spots result ≡ placed bytes.now (led bytes.now list_layout 0 (u16_at bytes.now place)) }
{
    Counted::led_to(bytes, 0, u32::from(u16_at(bytes, place as usize)))
}

#[inline(always)]
pub(crate) fn script_list(bytes: &[u8]) -> Standing<Counted<'_, List>>
    ensures { spots result ≡ placed bytes.now (script_list_place bytes.now) }
{
    list(bytes, 4)
}

#[inline(always)]
pub(crate) fn feature_list(bytes: &[u8]) -> Standing<Counted<'_, List>>
    ensures { spots result ≡ placed bytes.now (feature_list_place bytes.now) }
{
    list(bytes, 6)
}

#[tactic(auto, using(crate::proofs::Spots::record_found))]
#[inline(always)]
pub(crate) fn script(bytes: &[u8], at: u16) -> Standing<Counted<'_, Script>>
    ensures { spots result ≡ placed bytes.now (script_place bytes.now at) }
{
    record_led_to(script_list(bytes), at)
}

// The default language system of a script.
#[inline(always)]
fn default_lang_sys(script: Standing<Counted<'_, Script>>) -> Standing<Counted<'_, System>>
    ensures { spots result ≡ found (spots script.entry) Absent (λ b p. placed b (led b lang_sys_layout p (u16_at b p))) }
{
    let Some(script) = script.there() else {
        return Standing::Absent;
    };
    script.follow(u32::from(script.field(0)))
}

#[tactic(auto, using(crate::proofs::Spots::record_found, crate::proofs::Spots::default_found))]
#[inline(always)]
pub(crate) fn lang_sys(bytes: &[u8], at: LangSysPlace) -> Standing<Counted<'_, System>>
    ensures { spots result ≡ placed bytes.now (lang_sys_place bytes.now at) }
{
    match at {
        LangSysPlace::Default { script: s } => default_lang_sys(script(bytes, s)),
        LangSysPlace::Record {
            script: s,
            lang_sys: l,
        } => record_led_to(script(bytes, s), l),
    }
}

#[inline(always)]
pub(crate) fn variations(bytes: &[u8]) -> Standing<VariationList<'_>>
    ensures { variations_spots result ≡ placed bytes.now (variations_place bytes.now) }
{
    if u16_at(bytes, 2) == 0 {
        return Standing::Absent;
    }
    VariationList::led_to(bytes, u32_at(bytes, 10))
}

// Where the offset of a variation record leads, of which the first four bytes are the condition set's offset and the
// next four, `from` 4, that of the substitution table.
#[inline(always)]
fn variation_led_to<P: Part>(
    list: Standing<VariationList<'_>>,
    at: u32,
    from: u8,
) -> Standing<Counted<'_, P>>
    ensures { spots result ≡ found (variations_spots list.entry) Absent (λ b p. cond (nat_lt at (u32_at b (p + 4))) (placed b (led b P.LAYOUT p (u32_at b (p + 8 + 8 * at + from)))) Absent) }
{
    let Some(list) = list.there() else {
        return Standing::Absent;
    };
    let Some(record) = list.record(at) else {
        return Standing::Absent;
    };
    Counted::led_to(list.bytes, list.at, record.long(from))
}

#[tactic(auto, using(crate::proofs::Spots::variation_found))]
#[inline(always)]
pub(crate) fn condition_set(bytes: &[u8], at: u32) -> Standing<Counted<'_, ConditionSet>>
    ensures { spots result ≡ placed bytes.now (condition_set_place bytes.now at) }
{
    variation_led_to(variations(bytes), at, 0)
}

#[tactic(auto, using(crate::proofs::Spots::variation_found))]
#[inline(always)]
pub(crate) fn substitution(bytes: &[u8], at: u32) -> Standing<Counted<'_, Substitutions>>
    ensures { spots result ≡ placed bytes.now (substitution_place bytes.now at) }
{
    variation_led_to(variations(bytes), at, 4)
}

// The alternate feature that a record of a substitution table names. It stands beside `record_led_to` since these
// records have no tag and offsets of 32 bits: a parameter that says so at each call would be no shorter.
#[inline(always)]
fn alternate(list: Standing<Counted<'_, Substitutions>>, k: u16) -> Standing<Counted<'_, Feature>>
    ensures { spots result ≡ found (spots list.entry) Absent (λ b p. at_entry b substitution_layout p k Absent (λ e. placed b (led b feature_layout p (u32_at b (e + 2))))) }
{
    let Some(list) = list.there() else {
        return Standing::Absent;
    };
    let Some(e) = list.entry(k) else {
        return Standing::Absent;
    };
    list.follow(e.long(2))
}

#[tactic(auto, using(crate::proofs::Spots::record_found, crate::proofs::Spots::alternate_found))]
#[inline(always)]
pub(crate) fn feature(bytes: &[u8], at: FeaturePlace) -> Standing<Counted<'_, Feature>>
    ensures { spots result ≡ placed bytes.now (feature_place bytes.now at) }
{
    match at {
        FeaturePlace::Listed { feature: i } => record_led_to(feature_list(bytes), i),
        FeaturePlace::Alternate {
            variation: v,
            substitution: k,
        } => alternate(substitution(bytes, v), k),
    }
}
