// Matched indices, and language systems that are equal: the same required index, and the same earliest matches in order.
ghost use Rattle.std.specs.Prelude.{◌≡◌, map, MatchOption, nat_eq};
ghost use Rattle.keys.specs.Slots.{At, Held};
ghost use Rattle.source.specs.declared.parts.LangSysPlace.TheVariants.{Default, Record};
ghost use Rattle.source.specs.Questions.{lang_sys_of, indices_of};
ghost use Rattle.numbering.specs.Systems.{like_default};
ghost use Rattle.numbering.specs.Context.{Paired};
ghost use Rattle.numbering.specs.Sets.{lookup_beside};

use crate::sequence::{Sequence, same_numbers};
use crate::walk::ScriptWalk;
use keys::find;
use source::{LangSysPlace, Source, Standing};

// Indices that ascend, at most 512, each with its earliest match beside it. They are two slices, not one of pairs, since
// the stage before writes them so, into slices that are lent.
#[derive(Clone, Copy)]
pub(crate) struct Matches<'a> {
    pub(crate) matched: &'a [u16],
    pub(crate) earliest: &'a [u16],
    ghost paired: { Paired matched.now earliest.now },
}

impl<'a> Matches<'a> {
    // The place of an index, if it is matched.
    pub(crate) fn place(&self, index: u16) -> Option<usize>
        ensures { MatchOption result (Held (λ a b. a ≡ b) self.now.matched.now index → ⊥) (At (λ y. y ≡ index) self.now.matched.now) }
    {
        find(self.matched, index).ok()
    }

    // The earliest match of an index, if it has one.
    fn earliest_of(&self, index: u16) -> Option<u16>
        ensures { result ≡ lookup_beside nat_eq self.now.matched.now self.now.earliest.now index }
    {
        let place = self.place(index)?;
        Some(self.earliest[place])
    }
}

// The earliest matches of the indices that a language system lists.
#[derive(Drop)]
pub(crate) struct MatchedIndices<'a, 'b, S> {
    source: &'a S,
    matches: Matches<'b>,
    at: LangSysPlace,
}

impl<'a, 'b, S: Source> Sequence for MatchedIndices<'a, 'b, S> {
    ghost places = { λ q. map (lookup_beside nat_eq q.matches.matched.now q.matches.earliest.now) (indices_of (lang_sys_of (S.Source.reading q.source.now) q.at)) };

    fn count(&self) -> u16 {
        self.source.lang_sys(self.at).there().map_or(0, |l| l.count)
    }

    fn number_at(&self, k: u16) -> Option<u16> {
        let index = self.source.feature_index(self.at, k)?;
        self.matches.earliest_of(index)
    }
}

impl<'a, 'b, 'c, S: Source> ScriptWalk<'a, 'b, 'c, S> {
    // Whether a language system record equals the default of its script.
    #[tactic(auto, using(crate::proofs::Looking::like_defaults))]
    pub(crate) fn is_like_default(&self, script: u16, lang_sys: u16) -> bool
        ensures { result ≡ like_default (lookup_beside nat_eq self.now.matches.matched.now self.now.matches.earliest.now) (lang_sys_of (S.reading self.now.source.now) (Record script lang_sys)) (lang_sys_of (S.reading self.now.source.now) (Default script)) }
    {
        let record = LangSysPlace::Record { script, lang_sys };
        let default = LangSysPlace::Default { script };
        let Standing::There(l) = self.source.lang_sys(record) else {
            return false;
        };
        let Standing::There(d) = self.source.lang_sys(default) else {
            return false;
        };
        if l.required != d.required {
            return false;
        }
        let a = MatchedIndices {
            source: self.source,
            matches: self.matches,
            at: record,
        };
        let b = MatchedIndices {
            source: self.source,
            matches: self.matches,
            at: default,
        };
        same_numbers(&a, &b)
    }
}
