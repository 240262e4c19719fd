ghost use Rattle.std.specs.Prelude.{◌≡◌, map, length};
ghost use Rattle.std.specs.List.{slice_get};
ghost use Rattle.source.specs.Reading.{Reading};
ghost use Rattle.source.specs.Standings.{mapped};
ghost use Rattle.source.specs.Questions.{script_record, script, lang_sys_records, lang_sys_record, lang_sys_of, lang_sys_head, indices_of, feature_record, feature, lookups_of, params_of, params_meaning, variations_head, variation_record, condition, substitution_head, substitution_records, index_of};

use crate::kinds::Kind;
use crate::parts::{
    Condition, FeatureParams, FeaturePlace, LangSys, LangSysPlace, Standing, Substitution,
    Variations,
};
use keys::Tag;

// A source answers questions about one layout table. Its meaning is its reading, a fixed value, and each
// answer is a part of that reading. A question never refuses and changes nothing: past a list's end, or
// of a list that is not there, a part is absent, a tag is 0 and a number is none. (That a tag is 0, and no option, is what
// callers were promised.)
pub trait Source {
    ghost reading: { Self → Reading };

    fn kind(&self) -> Kind
        ensures { result ≡ (reading self.now).kind };

    // How the script list stands, with the number of its scripts.
    fn script_list(&self) -> Standing<u16>
        ensures { result ≡ mapped length (reading self.now).scripts };

    fn script_tag(&self, at: u16) -> Tag
        ensures { result.code ≡ (script_record (reading self.now) at).tag };

    // How a script stands, with the number of its language system records.
    fn script(&self, at: u16) -> Standing<u16>
        ensures { result ≡ mapped (λ t. length t.records) (script (reading self.now) at) };

    fn lang_sys_tag(&self, at: u16, k: u16) -> Tag
        ensures { result.code ≡ (lang_sys_record (reading self.now) at k).tag };

    fn lang_sys(&self, at: LangSysPlace) -> Standing<LangSys>
        ensures { result ≡ mapped lang_sys_head (lang_sys_of (reading self.now) at) };

    // The feature index at a place among those that a language system lists.
    fn feature_index(&self, at: LangSysPlace, k: u16) -> Option<u16>
        ensures { result ≡ slice_get (indices_of (lang_sys_of (reading self.now) at)) k };

    // How the feature list stands, with the number of its features.
    fn feature_list(&self) -> Standing<u16>
        ensures { result ≡ mapped length (reading self.now).features };

    fn feature_tag(&self, at: u16) -> Tag
        ensures { result.code ≡ (feature_record (reading self.now) at).tag };

    // How a feature stands, with the number of its lookups.
    fn feature(&self, at: FeaturePlace) -> Standing<u16>
        ensures { result ≡ mapped (λ t. length t.lookups) (feature (reading self.now) at) };

    // The lookup at a place among those of a feature.
    fn lookup(&self, at: FeaturePlace, k: u16) -> Option<u16>
        ensures { result ≡ slice_get (lookups_of (feature (reading self.now) at)) k };

    fn params(&self, at: FeaturePlace) -> Standing<FeatureParams<'_>>
        ensures { mapped params_meaning result ≡ params_of (feature (reading self.now) at) };

    // How the variation list stands, with its version and the number of its records.
    fn variations(&self) -> Standing<Variations>
        ensures { result ≡ mapped variations_head (reading self.now).variations };

    // How the condition set of a variation stands, with the number of its conditions.
    fn condition_set(&self, at: u32) -> Standing<u16>
        ensures { result ≡ mapped length (variation_record (reading self.now) at).conditions };

    fn condition(&self, at: u32, k: u16) -> Standing<Condition>
        ensures { result ≡ condition (reading self.now) at k };

    // How the substitution table of a variation stands, with its version and the number of its records.
    fn substitution(&self, at: u32) -> Standing<Substitution>
        ensures { result ≡ mapped substitution_head (variation_record (reading self.now) at).substitution };

    // The feature index that a substitution record names.
    fn substituted_index(&self, at: u32, k: u16) -> Option<u16>
        ensures { result ≡ slice_get (map index_of (substitution_records (variation_record (reading self.now) at).substitution)) k };
}
