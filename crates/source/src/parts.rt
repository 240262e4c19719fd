ghost use Rattle.std.specs.Prelude.{◌≡◌};
ghost use Rattle.source.specs.Standings.{there, unreadable, counted, required_of};

// How a part of a table stands: no offset leads to it, it does not fit in the table, or it can be read. An
// `Option<Result<T, Unreadable>>` would nest the three cases in two types, and is no plainer.
#[derive(Clone, Copy, PartialEq, Eq, Debug)]
pub enum Standing<T> {
    Absent,
    Unreadable,
    There(T),
}

impl<T> Standing<T> {
    // The part, if it can be read.
    pub fn there(self) -> Option<T>
    where
        T: Drop,
        ensures { result ≡ there self }
    {
        match self {
            Standing::There(part) => Some(part),
            Standing::Absent | Standing::Unreadable => None,
        }
    }

    // Whether the part does not fit in the table.
    pub fn is_unreadable(&self) -> bool
        ensures { result ≡ unreadable self.now }
    {
        matches!(self, Standing::Unreadable)
    }
}

impl Standing<u16> {
    // The count of a list that is there, else 0.
    pub fn count(self) -> u16
        ensures { result ≡ counted self }
    {
        self.there().unwrap_or(0)
    }
}

// What a language system says besides its feature indices. The required index is the table's own number, as the
// reading has it: an option would need a conversion in the definition, and is no plainer. `required_feature` reads it.
#[derive(Clone, Copy, PartialEq, Eq, Debug)]
pub struct LangSys {
    pub required: u16,
    pub count: u16,
}

impl LangSys {
    // A required index of this number means that no feature is required.
    pub const NONE_REQUIRED: u16 = 0xFFFF;

    // The index of the required feature, if there is one.
    pub fn required_feature(self) -> Option<u16>
        ensures { result ≡ required_of self.required }
    {
        if self.required == LangSys::NONE_REQUIRED {
            None
        } else {
            Some(self.required)
        }
    }
}

// Which language system: a script's default, or one of its records.
#[derive(Clone, Copy, PartialEq, Eq, Debug)]
pub enum LangSysPlace {
    Default { script: u16 },
    Record { script: u16, lang_sys: u16 },
}

// Which feature: one of the feature list, or an alternate that a substitution table names.
#[derive(Clone, Copy, PartialEq, Eq, Debug)]
pub enum FeaturePlace {
    Listed { feature: u16 },
    Alternate { variation: u32, substitution: u16 },
}

// A feature's parameters, in the table's own bytes.
#[derive(Clone, Copy, PartialEq, Eq, Debug)]
pub enum FeatureParams<'a> {
    Size(&'a [u8]),
    StylisticSet(&'a [u8]),
    CharacterVariant(&'a [u8]),
}

// The version and the count of records of a variation list.
#[derive(Clone, Copy, PartialEq, Eq, Debug)]
pub struct Variations {
    pub version: u32,
    pub count: u32,
}

// The version and the count of records of a feature table substitution.
#[derive(Clone, Copy, PartialEq, Eq, Debug)]
pub struct Substitution {
    pub version: u32,
    pub count: u16,
}

// A condition: an axis with the least and the greatest value (16 bits each, as they stand), or a format
// of which only the number is known.
#[derive(Clone, Copy, PartialEq, Eq, Debug)]
pub enum Condition {
    Format1 {
        axis: u16,
        minimum: u16,
        maximum: u16,
    },
    Other,
}
