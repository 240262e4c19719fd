// The kinds of layout table, by name and by tag.
ghost use Rattle.std.specs.Prelude.{◌≡◌, Some};
ghost use Rattle.source.specs.Kinds.{kind_text, Names, Tagged};

use keys::Tag;
use std::fmt;
use std::str::FromStr;

// The two layout tables.
#[derive(Clone, Copy, PartialEq, Eq, Debug)]
pub enum Kind {
    Gsub,
    Gpos,
}

impl Kind {
    pub fn name(self) -> &'static str
        ensures { result.now ≡ kind_text self }
    {
        match self {
            Kind::Gsub => "GSUB",
            Kind::Gpos => "GPOS",
        }
    }
}

// A text that names no layout table.
#[derive(Clone, Copy, PartialEq, Eq, Debug)]
pub struct UnknownKind;

impl FromStr for Kind {
    type Err = UnknownKind;

    ghost from_str_gives = { Names };

    fn from_str(name: &str) -> Result<Kind, UnknownKind> {
        match name {
            "GSUB" => Ok(Kind::Gsub),
            "GPOS" => Ok(Kind::Gpos),
            _ => Err(UnknownKind),
        }
    }
}

impl fmt::Display for Kind {
    ghost output = { λ k. Some (kind_text k) };

    fn fmt<W: fmt::Write>(&self, f: &mut fmt::Formatter<W>) -> fmt::Result {
        f.write_str(self.name())
    }
}

// The tag under which a font file has a table of the kind.
impl From<Kind> for Tag {
    ghost from_gives = { Tagged };

    fn from(kind: Kind) -> Tag {
        Tag::new(match kind {
            Kind::Gsub => *b"GSUB",
            Kind::Gpos => *b"GPOS",
        })
    }
}
