// The language systems that are collected, and the pairs that are kept.
ghost use Rattle.std.specs.Prelude.{◌≡◌, ℕ, ◌<◌, ◌≤◌, List, map, length, take, if◌then◌else◌, IfOk, MatchResult, nat_eq, nat_lt};
ghost use Rattle.source.specs.declared.parts.Standing.TheVariants.{There};
ghost use Rattle.source.specs.declared.parts.LangSysPlace.TheVariants.{Default, Record};
ghost use Rattle.source.specs.declared.refusals.Refusal.TheVariants.{TooManyPairs};
ghost use Rattle.source.specs.Questions.{script, script_record, lang_sys_of, lang_sys_records, lang_sys_head, indices_of};
ghost use Rattle.source.specs.Standings.{mapped, listed};
ghost use Rattle.numbering.specs.Sets.{among, lookup_beside};
ghost use Rattle.numbering.specs.Systems.{Walk, no_walk, names_of, code_of, walk_records, walk_scripts, counted_script, script_step, record_step, visit_default};
ghost use Rattle.numbering.specs.Context.{Agrees, Marked, counted, visited, with_pair, Walks, Goes, Pruned, chosen};

use crate::equals::Matches;
use crate::filled::{Filled, Pairs};
use crate::walk::ScriptWalk;
use keys::Pair;
use source::{LangSys, LangSysPlace, Refusal, Source, Standing};

const MAX_SCRIPTS: u16 = 500;

const MAX_LANGSYS_FEATURE_COUNT: u16 = 5000;

// What a walk over scripts has done. A flag stands beside each matched index that is to be retained, in a table of fixed
// size, since there is no heap.
#[derive(Drop)]
pub(crate) struct PruneLangSysContext {
    pub(crate) script_count: u16,
    pub(crate) langsys_feature_count: u16,
    pub(crate) named: [bool; 512],
    pub(crate) pairs: Pairs,
}

// Each step says what it makes of a walk that agrees with the context. The walk is a value of proofs alone, so the context
// can't hold it, and a type for it would be no plainer.
impl PruneLangSysContext {
    pub(crate) fn new() -> PruneLangSysContext
        ensures { (ms : List ℕ) → length ms ≤ 512 → Agrees ms result no_walk }
    {
        let pair = Pair {
            script: 0,
            lang_sys: 0,
        };
        PruneLangSysContext {
            script_count: 0,
            langsys_feature_count: 0,
            named: [false; 512],
            pairs: Filled::new(pair),
        }
    }

    // Counts a script, unless the most are counted.
    fn visit_script(&mut self) -> bool
        ensures counted { result ≡ nat_lt self.old.script_count 500 }
        ensures context { self.new ≡ (if result then counted self.old else self.old) }
    {
        let counted = self.script_count < MAX_SCRIPTS;
        if counted {
            self.script_count += 1;
        }
        counted
    }

    // Adds the count of a language system to the sum, and answers whether the visit succeeds.
    fn visit_langsys(&mut self, feature_count: u16) -> bool
        ensures context { self.new ≡ visited feature_count self.old }
        ensures succeeds { result ≡ nat_lt (visited feature_count self.old).langsys_feature_count 5000 }
    {
        self.langsys_feature_count = self.langsys_feature_count.saturating_add(feature_count);
        self.langsys_feature_count < MAX_LANGSYS_FEATURE_COUNT
    }

    // Retains an index that has an earliest match.
    fn retain(&mut self, matches: &Matches<'_>, index: u16)
        ensures { Marked matches.now.matched.now (nat_eq index) self.old self.new }
    {
        if let Some(p) = matches.place(index) {
            self.named[p] = true;
        }
    }

    // Retains the listed indices of a language system. A source answers by place, so this and the walks go over places.
    fn retain_listed<S: Source>(
        &mut self,
        walk: &ScriptWalk<'_, '_, '_, S>,
        at: LangSysPlace,
        count: u16,
    )
        requires { count ≡ length (indices_of (lang_sys_of (S.reading walk.now.source.now) at)) }
        ensures { Marked walk.now.matches.matched.now (among (indices_of (lang_sys_of (S.reading walk.now.source.now) at))) self.old self.new }
    {
        for k in 0..count {
            if let Some(index) = walk.source.feature_index(at, k) {
                self.retain(&walk.matches, index);
            }
        }
    }

    // Retains the required and the listed indices of a language system.
    fn collect_langsys_features<S: Source>(
        &mut self,
        walk: &ScriptWalk<'_, '_, '_, S>,
        at: LangSysPlace,
        langsys: LangSys,
    )
        requires { There langsys ≡ mapped lang_sys_head (lang_sys_of (S.reading walk.now.source.now) at) }
        ensures { Marked walk.now.matches.matched.now (among (names_of (lang_sys_of (S.reading walk.now.source.now) at))) self.old self.new }
    {
        if let Some(required) = langsys.required_feature() {
            self.retain(&walk.matches, required);
        }
        self.retain_listed(walk, at, langsys.count);
    }

    // Keeps a pair.
    fn add_script_langsys(&mut self, script: u16, lang_sys: u16) -> Result<(), Refusal>
        ensures { MatchResult result (λ _. (length self.old.pairs < 2048) × (self.new ≡ with_pair (record { script = script; lang_sys = lang_sys }) self.old)) (λ f. (f ≡ TooManyPairs) × (2048 ≤ length self.old.pairs)) }
    {
        if self.pairs.is_full() {
            return Err(Refusal::TooManyPairs);
        }
        self.pairs.push(Pair { script, lang_sys });
        Ok(())
    }

    // Visits a language system record, and answers whether the records after it are walked.
    #[tactic(auto, using(crate::proofs::Walking::collected_records))]
    fn prune_record<S: Source>(
        &mut self,
        walk: &ScriptWalk<'_, '_, '_, S>,
        script: u16,
        lang_sys: u16,
    ) -> Result<bool, Refusal>
        ensures { (w : Walk) → Agrees walk.now.matches.matched.now self.old w → Goes walk.now.matches.matched.now (record_step (lookup_beside nat_eq walk.now.matches.matched.now walk.now.matches.earliest.now) (lang_sys_of (S.reading walk.now.source.now) (Default script)) (record { script = script; lang_sys = lang_sys }) (lang_sys_of (S.reading walk.now.source.now) (Record script lang_sys)) w) self.new result }
    {
        let at = LangSysPlace::Record { script, lang_sys };
        // Each of the three standings has an answer of its own, so a combinator is no plainer than the match.
        let langsys = match walk.source.lang_sys(at) {
            Standing::Absent => return Ok(true),
            Standing::Unreadable => return Ok(false),
            Standing::There(l) => l,
        };
        if !self.visit_langsys(langsys.count) {
            return Ok(false);
        }
        if !walk.is_like_default(script, lang_sys) {
            self.collect_langsys_features(walk, at, langsys);
            self.add_script_langsys(script, lang_sys)?;
        }
        Ok(true)
    }

    // Walks the language system records of a script.
    fn prune_records<S: Source>(
        &mut self,
        walk: &ScriptWalk<'_, '_, '_, S>,
        at: u16,
    ) -> Result<(), Refusal>
        ensures { (w : Walk) → Agrees walk.now.matches.matched.now self.old w → Walks walk.now.matches.matched.now (walk_records (lookup_beside nat_eq walk.now.matches.matched.now walk.now.matches.earliest.now) (lang_sys_of (S.reading walk.now.source.now) (Default at)) at 0 (lang_sys_records (script (S.reading walk.now.source.now) at)) w) self.new result }
    {
        for k in 0..walk.record_count(at) {
            if !self.prune_record(walk, at, k)? {
                return Ok(());
            }
        }
        Ok(())
    }

    // Visits the default language system of a script.
    fn prune_default<S: Source>(&mut self, walk: &ScriptWalk<'_, '_, '_, S>, script: u16)
        ensures { (w : Walk) → Agrees walk.now.matches.matched.now self.old w → Agrees walk.now.matches.matched.now self.new (visit_default (lang_sys_of (S.reading walk.now.source.now) (Default script)) w) }
    {
        let at = LangSysPlace::Default { script };
        if let Standing::There(langsys) = walk.source.lang_sys(at) {
            if self.visit_langsys(langsys.count) {
                self.collect_langsys_features(walk, at, langsys);
            }
        }
    }

    // Walks a script that can be read.
    fn prune_script_langsys<S: Source>(
        &mut self,
        walk: &ScriptWalk<'_, '_, '_, S>,
        at: u16,
    ) -> Result<(), Refusal>
        ensures { (w : Walk) → Agrees walk.now.matches.matched.now self.old w → Walks walk.now.matches.matched.now (counted_script (lookup_beside nat_eq walk.now.matches.matched.now walk.now.matches.earliest.now) at (lang_sys_of (S.reading walk.now.source.now) (Default at)) (lang_sys_records (script (S.reading walk.now.source.now) at)) w) self.new result }
    {
        if walk.is_empty_script(at) || !self.visit_script() {
            return Ok(());
        }
        self.prune_default(walk, at);
        self.prune_records(walk, at)
    }

    // Walks a script if its tag is kept, and answers whether the scripts after it are walked.
    fn prune_script<S: Source>(
        &mut self,
        walk: &ScriptWalk<'_, '_, '_, S>,
        script: u16,
    ) -> Result<bool, Refusal>
        ensures { (w : Walk) → Agrees walk.now.matches.matched.now self.old w → Goes walk.now.matches.matched.now (script_step (lookup_beside nat_eq walk.now.matches.matched.now walk.now.matches.earliest.now) (map code_of walk.now.tags.now) script (script_record (S.reading walk.now.source.now) script) w) self.new result }
    {
        if !walk.is_kept_script(script) {
            return Ok(true);
        }
        // As above: three standings, three answers.
        match walk.source.script(script) {
            Standing::Absent => Ok(true),
            Standing::Unreadable => Ok(false),
            Standing::There(_) => {
                self.prune_script_langsys(walk, script)?;
                Ok(true)
            }
        }
    }

    // Walks the scripts.
    fn prune_scripts<S: Source>(&mut self, walk: &ScriptWalk<'_, '_, '_, S>) -> Result<(), Refusal>
        ensures { (w : Walk) → Agrees walk.now.matches.matched.now self.old w → Walks walk.now.matches.matched.now (walk_scripts (lookup_beside nat_eq walk.now.matches.matched.now walk.now.matches.earliest.now) (map code_of walk.now.tags.now) 0 (listed (S.reading walk.now.source.now).scripts) w) self.new result }
    {
        let count = walk.source.script_list().count();
        for script in 0..count {
            if !self.prune_script(walk, script)? {
                return Ok(());
            }
        }
        Ok(())
    }

    // Writes the numbers that have a flag, and answers how many they are.
    #[tactic(auto, using(crate::proofs::Growing::choosing))]
    pub(crate) fn choose(&self, from: &[u16], out: &mut [u16]) -> usize
        requires few { length from.now ≤ 512 }
        requires room { length from.now ≤ length out.old }
        ensures within { result ≤ length from.now }
        ensures count { result ≡ length (chosen self.now.named from.now) }
        ensures list { take result out.new ≡ chosen self.now.named from.now }
    {
        // The place to write at is counted, since the slice is lent.
        let mut n = 0;
        for (p, number) in from.iter().enumerate() {
            if self.named[p] {
                out[n] = *number;
                n += 1;
            }
        }
        n
    }

    // Walks the scripts with kept tags, and writes the retained indices, ascending. Answers how many there are.
    pub(crate) fn prune_langsys<S: Source>(
        &mut self,
        walk: &ScriptWalk<'_, '_, '_, S>,
        out: &mut [u16],
    ) -> Result<usize, Refusal>
        requires { length walk.now.matches.matched.now ≤ length out.old }
        ensures within { IfOk result (λ n. n ≤ length walk.now.matches.matched.now) }
        ensures pruned { (w : Walk) → Agrees walk.now.matches.matched.now self.old w → Pruned walk.now.matches.matched.now (walk_scripts (lookup_beside nat_eq walk.now.matches.matched.now walk.now.matches.earliest.now) (map code_of walk.now.tags.now) 0 (listed (S.reading walk.now.source.now).scripts) w) self.new out.new result }
    {
        self.prune_scripts(walk)?;
        Ok(self.choose(walk.matches.matched, out))
    }
}
