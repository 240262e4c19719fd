ghost use Rattle.std.specs.Prelude.{◌≡◌};
ghost use Rattle.source.specs.declared.parts.Standing.TheVariants.{Absent};
ghost use Rattle.source.specs.Questions.{script_record, no_script, script, default_of, lang_sys_record, no_lang_sys, lang_sys_of, feature_record, no_feature, feature};
ghost use Rattle.rows.specs.Format.{bound, value_by, read_feature, read_feature_record, read_lang_sys, read_lang_sys_record, read_script_record};
ghost use Rattle.rows.specs.Held.{reading_of};

use crate::ranges::{and_then, capped, range_at, row_at};
use crate::row::{FeatureRow, LangSysRow, ScriptRow};
use crate::slices::Rows;
use keys::Tag;
use source::{
    Condition, FeatureParams, FeaturePlace, Kind, LangSys, LangSysPlace, Source, Standing,
    Substitution, Variations,
};

// The tag of a record that is not there.
const NO_TAG: Tag = Tag { code: 0 };

impl<'a> Rows<'a> {
    // The row of the feature list at a place.
    fn feature_row(&self, at: u16) -> Option<FeatureRow>
        ensures { value_by (read_feature_record self.now.pool.now) no_feature result ≡ feature_record (reading_of self.now) at }
    {
        row_at(self.features, at)
    }

    // The row of the feature at a place; no alternate has one.
    fn place_row(&self, at: FeaturePlace) -> Option<FeatureRow>
        ensures { value_by (read_feature self.now.pool.now) Absent result ≡ feature (reading_of self.now) at }
    {
        match at {
            FeaturePlace::Listed { feature } => self.feature_row(feature),
            FeaturePlace::Alternate { .. } => None,
        }
    }

    // The row of the script list at a place.
    fn script_row(&self, at: u16) -> Option<ScriptRow>
        ensures { value_by (read_script_record self.now.pool.now self.now.systems.now) no_script result ≡ script_record (reading_of self.now) at }
    {
        row_at(self.scripts, at)
    }

    // The row of a script's record.
    fn record_row(&self, at: u16, k: u16) -> Option<LangSysRow>
        ensures { value_by (read_lang_sys_record self.now.pool.now) no_lang_sys result ≡ lang_sys_record (reading_of self.now) at k }
    {
        let script = self.script_row(at)?;
        range_at(script.records(self.systems), k)
    }

    // The row of a script's default language system.
    fn default_row(&self, at: u16) -> Standing<LangSysRow>
        ensures { bound (read_lang_sys self.now.pool.now) result ≡ default_of (script (reading_of self.now) at) }
    {
        let Some(script) = self.script_row(at) else {
            return Standing::Absent;
        };
        // Where the records leave the rows the default is absent, and not unreadable as `and_then` would have it.
        match script.records(self.systems) {
            Standing::There(_) => script.default_system(self.systems),
            Standing::Absent | Standing::Unreadable => Standing::Absent,
        }
    }

    // The row of the language system at a place.
    fn system_row(&self, at: LangSysPlace) -> Standing<LangSysRow>
        ensures { bound (read_lang_sys self.now.pool.now) result ≡ lang_sys_of (reading_of self.now) at }
    {
        match at {
            LangSysPlace::Default { script } => self.default_row(script),
            LangSysPlace::Record { script, lang_sys } => self
                .record_row(script, lang_sys)
                .map_or(Standing::Absent, Standing::There),
        }
    }
}

impl<'a> Source for Rows<'a> {
    ghost reading = { reading_of };

    fn kind(&self) -> Kind {
        self.kind
    }

    fn script_list(&self) -> Standing<u16> {
        Standing::There(capped(self.scripts).len() as u16)
    }

    fn script_tag(&self, at: u16) -> Tag {
        self.script_row(at).map_or(NO_TAG, |script| script.tag)
    }

    fn script(&self, at: u16) -> Standing<u16> {
        let Some(script) = self.script_row(at) else {
            return Standing::Absent;
        };
        and_then(
            script.records(self.systems),
            |_| Standing::There(script.count),
        )
    }

    fn lang_sys_tag(&self, at: u16, k: u16) -> Tag {
        self.record_row(at, k).map_or(NO_TAG, |system| system.tag)
    }

    fn lang_sys(&self, at: LangSysPlace) -> Standing<LangSys> {
        and_then(self.system_row(at), |system| system.head(self.pool))
    }

    fn feature_index(&self, at: LangSysPlace, k: u16) -> Option<u16> {
        let system = self.system_row(at).there()?;
        range_at(system.indices(self.pool), k)
    }

    fn feature_list(&self) -> Standing<u16> {
        Standing::There(capped(self.features).len() as u16)
    }

    fn feature_tag(&self, at: u16) -> Tag {
        self.feature_row(at).map_or(NO_TAG, |feature| feature.tag)
    }

    fn feature(&self, at: FeaturePlace) -> Standing<u16> {
        let Some(feature) = self.place_row(at) else {
            return Standing::Absent;
        };
        and_then(
            feature.lookups(self.pool),
            |_| Standing::There(feature.count),
        )
    }

    fn lookup(&self, at: FeaturePlace, k: u16) -> Option<u16> {
        let feature = self.place_row(at)?;
        range_at(feature.lookups(self.pool), k)
    }

    fn params(&self, _at: FeaturePlace) -> Standing<FeatureParams<'_>> {
        Standing::Absent
    }

    fn variations(&self) -> Standing<Variations> {
        Standing::Absent
    }

    fn condition_set(&self, _at: u32) -> Standing<u16> {
        Standing::Absent
    }

    fn condition(&self, _at: u32, _k: u16) -> Standing<Condition> {
        Standing::Absent
    }

    fn substitution(&self, _at: u32) -> Standing<Substitution> {
        Standing::Absent
    }

    fn substituted_index(&self, _at: u32, _k: u16) -> Option<u16> {
        None
    }
}
