// The questions that a table's bytes answer.
ghost use Rattle.table.specs.Format.{read_table};

use crate::bytes::Table;
use crate::places::{count_of, number_of, tag_of};
use crate::{located, reads};
use keys::Tag;
use source::{
    Condition, FeatureParams, FeaturePlace, Kind, LangSys, LangSysPlace, Source, Standing,
    Substitution, Variations,
};

impl<'a> Source for Table<'a> {
    ghost reading = { λ t. read_table t.kind t.bytes.now };

    fn kind(&self) -> Kind {
        self.kind
    }

    #[tactic(auto, using(crate::proofs::Spots::count_found, crate::proofs::Laws::script_list_answer))]
    fn script_list(&self) -> Standing<u16> {
        count_of(located::script_list(self.bytes))
    }

    #[tactic(auto, using(crate::proofs::Spots::tag_found, crate::proofs::Laws::script_tag_law))]
    fn script_tag(&self, at: u16) -> Tag {
        tag_of(located::script_list(self.bytes), at)
    }

    #[tactic(auto, using(crate::proofs::Spots::count_found, crate::proofs::Laws::script_answer))]
    fn script(&self, at: u16) -> Standing<u16> {
        count_of(located::script(self.bytes, at))
    }

    #[tactic(auto, using(crate::proofs::Spots::tag_found, crate::proofs::Laws::lang_sys_of_tag_law))]
    fn lang_sys_tag(&self, at: u16, k: u16) -> Tag {
        tag_of(located::script(self.bytes, at), k)
    }

    #[tactic(auto, using(crate::proofs::Spots::lang_sys_found, crate::proofs::Laws::lang_sys_of_answer))]
    fn lang_sys(&self, at: LangSysPlace) -> Standing<LangSys> {
        reads::lang_sys_head(located::lang_sys(self.bytes, at))
    }

    #[tactic(auto, using(crate::proofs::Spots::number_found, crate::proofs::Laws::feature_index_law))]
    fn feature_index(&self, at: LangSysPlace, k: u16) -> Option<u16> {
        number_of(located::lang_sys(self.bytes, at), k)
    }

    #[tactic(auto, using(crate::proofs::Spots::count_found, crate::proofs::Laws::feature_list_answer))]
    fn feature_list(&self) -> Standing<u16> {
        count_of(located::feature_list(self.bytes))
    }

    #[tactic(auto, using(crate::proofs::Spots::tag_found, crate::proofs::Laws::feature_tag_law))]
    fn feature_tag(&self, at: u16) -> Tag {
        tag_of(located::feature_list(self.bytes), at)
    }

    #[tactic(auto, using(crate::proofs::Spots::count_found, crate::proofs::Laws::feature_answer))]
    fn feature(&self, at: FeaturePlace) -> Standing<u16> {
        count_of(located::feature(self.bytes, at))
    }

    #[tactic(auto, using(crate::proofs::Spots::number_found, crate::proofs::Laws::lookup_law))]
    fn lookup(&self, at: FeaturePlace, k: u16) -> Option<u16> {
        number_of(located::feature(self.bytes, at), k)
    }

    #[tactic(auto, using(crate::proofs::Laws::params_law))]
    fn params(&self, at: FeaturePlace) -> Standing<FeatureParams<'_>> {
        reads::params_of(self.bytes, at)
    }

    #[tactic(auto, using(crate::proofs::Spots::variations_found, crate::proofs::Laws::variations_answer))]
    fn variations(&self) -> Standing<Variations> {
        reads::variations_head(located::variations(self.bytes))
    }

    #[tactic(auto, using(crate::proofs::Spots::count_found, crate::proofs::Laws::condition_set_answer))]
    fn condition_set(&self, at: u32) -> Standing<u16> {
        count_of(located::condition_set(self.bytes, at))
    }

    #[tactic(auto, using(crate::proofs::Spots::condition_found, crate::proofs::Laws::condition_law))]
    fn condition(&self, at: u32, k: u16) -> Standing<Condition> {
        reads::condition_of(located::condition_set(self.bytes, at), k)
    }

    #[tactic(auto, using(crate::proofs::Spots::substitution_found, crate::proofs::Laws::substitution_answer))]
    fn substitution(&self, at: u32) -> Standing<Substitution> {
        reads::substitution_head(located::substitution(self.bytes, at))
    }

    #[tactic(auto, using(crate::proofs::Spots::number_found, crate::proofs::Laws::substituted_law))]
    fn substituted_index(&self, at: u32, k: u16) -> Option<u16> {
        number_of(located::substitution(self.bytes, at), k)
    }
}
