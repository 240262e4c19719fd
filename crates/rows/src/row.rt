ghost use Rattle.std.specs.Prelude.{◌≡◌};
ghost use Rattle.source.specs.Standings.{mapped};
ghost use Rattle.source.specs.Questions.{lang_sys_head};
ghost use Rattle.rows.specs.Format.{ranged, numbered, read_lang_sys};

use crate::ranges::{and_then, range};
use keys::Tag;
use source::{LangSys, Standing};

// A feature: its lookups are `count` numbers of the pool from `first`.
#[derive(Clone, Copy)]
pub struct FeatureRow {
    pub tag: Tag,
    pub first: u16,
    pub count: u16,
}

// Each of the rows names its range as what it is; one type of range in their place would change the fields that others
// write.
impl FeatureRow {
    // The lookups, if they lie within the pool.
    pub(crate) fn lookups(self, pool: &[u16]) -> Standing<&[u16]>
        ensures { mapped (λ r. r.now) result ≡ ranged pool.now self.first self.count }
    {
        range(pool, self.first, self.count)
    }
}

// A language system: its feature indices are `count` numbers of the pool from `first`.
// A required index of 65,535 means that no feature is required.
#[derive(Clone, Copy)]
pub struct LangSysRow {
    pub tag: Tag,
    pub first: u16,
    pub count: u16,
    // A number and no option: whoever writes rows writes numbers, and another type would ask more of them.
    pub required: u16,
}

impl LangSysRow {
    // The feature indices, if they lie within the pool.
    pub(crate) fn indices(self, pool: &[u16]) -> Standing<&[u16]>
        ensures { mapped (λ r. r.now) result ≡ ranged pool.now self.first self.count }
    {
        range(pool, self.first, self.count)
    }

    // What the language system says besides its feature indices.
    pub(crate) fn head(self, pool: &[u16]) -> Standing<LangSys>
        ensures { result ≡ mapped lang_sys_head (read_lang_sys pool.now self) }
    {
        and_then(
            self.indices(pool),
            |_| Standing::There(LangSys {
                required: self.required,
                count: self.count,
            }),
        )
    }
}

// A script: its records are `count` language system rows from `first`. The default is a row's number,
// or 65,535 for none.
#[derive(Clone, Copy)]
pub struct ScriptRow {
    pub tag: Tag,
    // A number and no option: whoever writes rows writes numbers, and another type would ask more of them.
    pub default: u16,
    pub first: u16,
    pub count: u16,
}

impl ScriptRow {
    // A default of this number is none.
    const NO_DEFAULT: u16 = 65535;

    // The records, if they lie within the rows.
    pub(crate) fn records(self, systems: &[LangSysRow]) -> Standing<&[LangSysRow]>
        ensures { mapped (λ r. r.now) result ≡ ranged systems.now self.first self.count }
    {
        range(systems, self.first, self.count)
    }

    // The default language system, if the script has one.
    pub(crate) fn default_system(self, systems: &[LangSysRow]) -> Standing<LangSysRow>
        ensures { result ≡ numbered systems.now self.default }
    {
        if self.default == ScriptRow::NO_DEFAULT {
            return Standing::Absent;
        }
        match systems.get(self.default as usize) {
            Some(system) => Standing::There(*system),
            None => Standing::Unreadable,
        }
    }
}
