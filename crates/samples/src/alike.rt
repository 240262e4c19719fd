// Fonts over rows with features that are alike, or nearly so, and the numbers of those features.
ghost use Rattle.std.specs.Prelude.{◌≡◌, [], ◌∷◌};
ghost use Rattle.numbering.specs.Stages.{survivors, earliest_of};
ghost use Rattle.samples.specs.Alike.{apart_reading, swapped_reading, trimmed_reading, Says};
ghost use Rattle.samples.specs.Kept.{latn_retained, latn_numbers};

use keys::Tag;
use rows::{FeatureRow, LangSysRow, Rows, ScriptRow};
use source::{Kind, LangSys, Refusal};

const LIGA: Tag = Tag { code: 0x6c69_6761 };

const LOCL: Tag = Tag { code: 0x6c6f_636c };

const LATN: Tag = Tag { code: 0x6c61_746e };

const DFLT: Tag = Tag { code: 0x6466_6c74 };

const ROM: Tag = Tag { code: 0x524f_4d20 };

const TRK: Tag = Tag { code: 0x5452_4b20 };

const APART_FEATURES: [FeatureRow; 4] = [
    FeatureRow {
        tag: LIGA,
        first: 0,
        count: 1,
    },
    FeatureRow {
        tag: LOCL,
        first: 1,
        count: 1,
    },
    FeatureRow {
        tag: LOCL,
        first: 1,
        count: 1,
    },
    FeatureRow {
        tag: LOCL,
        first: 1,
        count: 1,
    },
];

const APART_SYSTEMS: [LangSysRow; 3] = [
    LangSysRow {
        tag: DFLT,
        first: 2,
        count: 1,
        required: LangSys::NONE_REQUIRED,
    },
    LangSysRow {
        tag: ROM,
        first: 3,
        count: 1,
        required: LangSys::NONE_REQUIRED,
    },
    LangSysRow {
        tag: TRK,
        first: 4,
        count: 1,
        required: LangSys::NONE_REQUIRED,
    },
];

const APART_SCRIPTS: [ScriptRow; 1] = [ScriptRow {
    tag: LATN,
    default: 0,
    first: 1,
    count: 2,
}];

// The lookups of the features, then the feature indices of the language systems.
const APART_POOL: [u16; 5] = [0, 1, 0, 2, 3];

// Features 1, 2 and 3 are alike, and no language system names feature 1.
pub fn apart_font() -> Result<Rows<'static>, Refusal>
    ensures { Says apart_reading result }
{
    Rows::open(
        Kind::Gsub,
        &APART_FEATURES,
        &APART_SYSTEMS,
        &APART_SCRIPTS,
        &APART_POOL,
    )
}

// The earliest match of each of its features, with lookups 0 and 1 kept.
pub fn apart_font_matches() -> [u16; 4]
    ensures { result ≡ earliest_of apart_reading (0 ∷ 1 ∷ []) (survivors apart_reading (0 ∷ 1 ∷ []) (0 ∷ 1 ∷ 2 ∷ 3 ∷ [])) }
{
    [0, 1, 1, 1]
}

// The features that are retained.
pub fn apart_font_retained() -> [u16; 3]
    ensures { result ≡ latn_retained apart_reading (0 ∷ 1 ∷ []) (0 ∷ 1 ∷ 2 ∷ 3 ∷ []) }
{
    [0, 2, 3]
}

// Their numbers: the earliest match of features 2 and 3 is not retained, so they share none.
pub fn apart_font_numbers() -> [u16; 3]
    ensures { result ≡ latn_numbers apart_reading (0 ∷ 1 ∷ []) (0 ∷ 1 ∷ 2 ∷ 3 ∷ []) }
{
    [0, 1, 2]
}

// Two features of four lookups in all.
const TWO_FEATURES: [FeatureRow; 2] = [
    FeatureRow {
        tag: LOCL,
        first: 0,
        count: 2,
    },
    FeatureRow {
        tag: LOCL,
        first: 2,
        count: 2,
    },
];

const ONE_SYSTEM: [LangSysRow; 1] = [LangSysRow {
    tag: DFLT,
    first: 4,
    count: 2,
    required: LangSys::NONE_REQUIRED,
}];

const DEFAULT_ONLY: [ScriptRow; 1] = [ScriptRow {
    tag: LATN,
    default: 0,
    first: 0,
    count: 0,
}];

const SWAPPED_POOL: [u16; 6] = [0, 1, 1, 0, 0, 1];

const TRIMMED_POOL: [u16; 6] = [0, 5, 0, 9, 0, 1];

// Two features of one tag have lookups 0 and 1, in two orders.
pub fn swapped_font() -> Result<Rows<'static>, Refusal>
    ensures { Says swapped_reading result }
{
    Rows::open(
        Kind::Gsub,
        &TWO_FEATURES,
        &ONE_SYSTEM,
        &DEFAULT_ONLY,
        &SWAPPED_POOL,
    )
}

// The numbers of its features with both lookups kept: they are not alike.
pub fn swapped_font_numbers() -> [u16; 2]
    ensures { result ≡ latn_numbers swapped_reading (0 ∷ 1 ∷ []) (0 ∷ 1 ∷ []) }
{
    [0, 1]
}

// Two features of one tag have lookup 0, and one more each.
pub fn trimmed_font() -> Result<Rows<'static>, Refusal>
    ensures { Says trimmed_reading result }
{
    Rows::open(
        Kind::Gsub,
        &TWO_FEATURES,
        &ONE_SYSTEM,
        &DEFAULT_ONLY,
        &TRIMMED_POOL,
    )
}

// The numbers of its features with lookup 0 alone kept: they are alike.
pub fn trimmed_font_numbers() -> [u16; 2]
    ensures { result ≡ latn_numbers trimmed_reading (0 ∷ []) (0 ∷ 1 ∷ []) }
{
    [0, 0]
}
