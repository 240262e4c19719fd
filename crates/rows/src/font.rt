ghost use Rattle.std.specs.Prelude.{◌≡◌};
ghost use Rattle.rows.specs.Builtin.{builtin_reading};
ghost use Rattle.rows.specs.Held.{reading_of};

use crate::row::{FeatureRow, LangSysRow, ScriptRow};
use crate::slices::Rows;
use keys::Tag;
use source::{Kind, LangSys};

// Tags by their numbers, since a constant's value may hold no call.
const LIGA: Tag = Tag { code: 0x6c69_6761 };

const LOCL: Tag = Tag { code: 0x6c6f_636c };

const PREF: Tag = Tag { code: 0x7072_6566 };

const LATN: Tag = Tag { code: 0x6c61_746e };

const DFLT: Tag = Tag { code: 0x6466_6c74 };

const ROM: Tag = Tag { code: 0x524f_4d20 };

const TRK: Tag = Tag { code: 0x5452_4b20 };

const FEATURES: [FeatureRow; 5] = [
    FeatureRow {
        tag: LIGA,
        first: 0,
        count: 1,
    },
    FeatureRow {
        tag: LOCL,
        first: 1,
        count: 1,
    },
    FeatureRow {
        tag: LOCL,
        first: 2,
        count: 2,
    },
    FeatureRow {
        tag: LOCL,
        first: 4,
        count: 1,
    },
    FeatureRow {
        tag: PREF,
        first: 5,
        count: 0,
    },
];

const SYSTEMS: [LangSysRow; 3] = [
    LangSysRow {
        tag: DFLT,
        first: 5,
        count: 2,
        required: LangSys::NONE_REQUIRED,
    },
    LangSysRow {
        tag: ROM,
        first: 7,
        count: 2,
        required: LangSys::NONE_REQUIRED,
    },
    LangSysRow {
        tag: TRK,
        first: 9,
        count: 2,
        required: LangSys::NONE_REQUIRED,
    },
];

const SCRIPTS: [ScriptRow; 1] = [ScriptRow {
    tag: LATN,
    default: 0,
    first: 1,
    count: 2,
}];

// The lookups of the features, then the feature indices of the language systems.
const POOL: [u16; 11] = [0, 1, 1, 3, 2, 0, 1, 0, 2, 2, 4];

// The built-in font.
pub fn builtin() -> Rows<'static>
    ensures { reading_of result ≡ builtin_reading }
{
    Rows {
        kind: Kind::Gsub,
        features: &FEATURES,
        systems: &SYSTEMS,
        scripts: &SCRIPTS,
        pool: &POOL,
    }
}
