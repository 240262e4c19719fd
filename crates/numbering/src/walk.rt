// What a walk over scripts reads: scripts that are kept, and scripts with nothing in them.
ghost use Rattle.std.specs.Prelude.{◌≡◌, map, length};
ghost use Rattle.keys.specs.Slots.{Ascending};
ghost use Rattle.keys.specs.Tags.{TagBefore};
ghost use Rattle.source.specs.declared.parts.LangSysPlace.TheVariants.{Default};
ghost use Rattle.source.specs.Questions.{script as script_of, script_record, lang_sys_of, lang_sys_records};
ghost use Rattle.numbering.specs.Sets.{among};
ghost use Rattle.numbering.specs.Systems.{code_of, is_empty};

use crate::equals::Matches;
use keys::{Tag, contains};
use source::{LangSysPlace, Source, Standing};

// A source, the matched indices, and the script tags that are kept.
#[derive(Drop)]
pub(crate) struct ScriptWalk<'a, 'b, 'c, S> {
    pub(crate) source: &'a S,
    pub(crate) matches: Matches<'b>,
    pub(crate) tags: &'c [Tag],
    ghost ascends: { Ascending TagBefore tags.now },
}

impl<'a, 'b, 'c, S: Source> ScriptWalk<'a, 'b, 'c, S> {
    // Whether the tag of a script is kept.
    pub(crate) fn is_kept_script(&self, script: u16) -> bool
        ensures { result ≡ among (map code_of self.now.tags.now) (script_record (S.reading self.now.source.now) script).tag }
    {
        contains(self.tags, self.source.script_tag(script))
    }

    // How many language system records a script has.
    pub(crate) fn record_count(&self, script: u16) -> u16
        ensures { result ≡ length (lang_sys_records (script_of (S.reading self.now.source.now) script)) }
    {
        self.source.script(script).count()
    }

    // Whether a script has neither a default nor a record.
    pub(crate) fn is_empty_script(&self, script: u16) -> bool
        ensures { result ≡ is_empty (lang_sys_records (script_of (S.reading self.now.source.now) script)) (lang_sys_of (S.reading self.now.source.now) (Default script)) }
    {
        self.record_count(script) == 0
            && matches!(
                self.source.lang_sys(LangSysPlace::Default { script }),
                Standing::Absent
            )
    }
}
