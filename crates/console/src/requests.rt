// What the program is asked to do with a table: to show it, or to number its features.
ghost use Rattle.std.specs.Prelude.{◌≡◌, map, string_bytes};
ghost use Rattle.std.specs.List.{slice_get};
ghost use Rattle.std.specs.Option.{option_map};
ghost use Rattle.console.specs.Requests.{Plainly, asked, sets_meaning, sets_by, then_numbered, errand_by};

use crate::arguments::{Command, Misuse, read_command, read_kind, word};
use source::Kind;
use std::fmt;

// What the program is asked to do.
#[derive(Clone, Copy, PartialEq, Eq, Debug)]
pub enum Request<'a> {
    Plain(Command<'a>),
    NumberBuiltin,
    Number {
        kind: Kind,
        path: &'a str,
        sets: SetWords<'a>,
    },
}

// The words that say what is kept.
#[derive(Clone, Copy, PartialEq, Eq, Debug)]
pub struct SetWords<'a> {
    pub lookups: &'a str,
    pub features: &'a str,
    pub scripts: &'a str,
}

// What is wrong with the words after the program's name.
#[derive(Clone, Copy, PartialEq, Eq, Debug)]
pub enum RequestMisuse<'a> {
    Plain(Misuse<'a>),
    UnknownTable(&'a str),
    PathMissing(Kind),
    ListMissing(Kind),
    WordAfterLists(&'a str),
}

impl<'a> From<Misuse<'a>> for RequestMisuse<'a> {
    ghost from_gives = { Plainly };

    fn from(misuse: Misuse<'a>) -> RequestMisuse<'a> {
        RequestMisuse::Plain(misuse)
    }
}

// The request that the words after the program's name give.
pub fn read_request(words: &[String]) -> Result<Request<'_>, RequestMisuse<'_>>
    ensures { asked result ≡ errand_by (map string_bytes words.now) }
{
    match word(words, 0) {
        Some("number") => read_number(words),
        _ => Ok(Request::Plain(read_command(words)?)),
    }
}

fn read_number(words: &[String]) -> Result<Request<'_>, RequestMisuse<'_>>
    ensures { asked result ≡ then_numbered (map string_bytes words.now) (slice_get (map string_bytes words.now) 1) }
{
    let Some(name) = word(words, 1) else {
        return Ok(Request::NumberBuiltin);
    };
    let kind = read_kind(name).ok_or(RequestMisuse::UnknownTable(name))?;
    let path = word(words, 2).ok_or(RequestMisuse::PathMissing(kind))?;
    let sets = read_sets(words).ok_or(RequestMisuse::ListMissing(kind))?;
    match word(words, 6) {
        Some(extra) => Err(RequestMisuse::WordAfterLists(extra)),
        None => Ok(Request::Number { kind, path, sets }),
    }
}

// The words that say what is kept, where all three are there.
fn read_sets(words: &[String]) -> Option<SetWords<'_>>
    ensures { option_map sets_meaning result ≡ sets_by (map string_bytes words.now) }
{
    Some(SetWords {
        lookups: word(words, 3)?,
        features: word(words, 4)?,
        scripts: word(words, 5)?,
    })
}

impl fmt::Display for RequestMisuse<'_> {
    fn fmt<W: fmt::Write>(&self, f: &mut fmt::Formatter<W>) -> fmt::Result {
        match *self {
            RequestMisuse::Plain(misuse) => write!(f, "{misuse}"),
            RequestMisuse::UnknownTable(word) => write!(
                f,
                "there is no table '{word}'; write GSUB or GPOS"
            ),
            RequestMisuse::PathMissing(kind) => {
                write!(
                    f,
                    "a file is missing; give after {kind} the path of a font file or of a bare {kind} table"
                )
            }
            RequestMisuse::ListMissing(kind) => {
                write!(
                    f,
                    "a list is missing; write hub number {kind} FILE LOOKUPS FEATURES SCRIPTS"
                )
            }
            RequestMisuse::WordAfterLists(word) => {
                write!(
                    f,
                    "'{word}' is one word too many; leave it out, or put a path with spaces in quotes"
                )
            }
        }
    }
}
