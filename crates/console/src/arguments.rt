ghost use Rattle.std.specs.Prelude.{◌≡◌, map, string_bytes};
ghost use Rattle.std.specs.List.{slice_get};
ghost use Rattle.std.specs.Option.{option_map};
ghost use Rattle.source.specs.Kinds.{kind_by};
ghost use Rattle.console.specs.Words.{meaning, then_kind, choice_by};

use source::Kind;
use std::fmt;

// What the program is asked to do.
#[derive(Clone, Copy, PartialEq, Eq, Debug)]
pub enum Command<'a> {
    Builtin,
    Help,
    Show { kind: Kind, path: &'a str },
}

// What is wrong with the words after the program's name.
#[derive(Clone, Copy, PartialEq, Eq, Debug)]
pub enum Misuse<'a> {
    UnknownCommand(&'a str),
    KindMissing,
    UnknownKind(&'a str),
    FileMissing(Kind),
    WordTooMany(&'a str),
}

// The word at a place.
pub(crate) fn word(words: &[String], at: usize) -> Option<&str>
    ensures { option_map (λ x. x.now) result ≡ slice_get (map string_bytes words.now) at }
{
    words.get(at).map(|word| word.as_str())
}

// The command that the words after the program's name give.
pub fn read_command(words: &[String]) -> Result<Command<'_>, Misuse<'_>>
    ensures { meaning result ≡ choice_by (map string_bytes words.now) }
{
    let Some(first) = word(words, 0) else {
        return Ok(Command::Builtin);
    };
    match first {
        "help" => match word(words, 1) {
            Some(extra) => Err(Misuse::WordTooMany(extra)),
            None => Ok(Command::Help),
        },
        "show" => read_show(words),
        _ => Err(Misuse::UnknownCommand(first)),
    }
}

fn read_show(words: &[String]) -> Result<Command<'_>, Misuse<'_>>
    ensures { meaning result ≡ then_kind (map string_bytes words.now) (slice_get (map string_bytes words.now) 1) }
{
    let name = word(words, 1).ok_or(Misuse::KindMissing)?;
    let kind = read_kind(name).ok_or(Misuse::UnknownKind(name))?;
    let path = word(words, 2).ok_or(Misuse::FileMissing(kind))?;
    match word(words, 3) {
        Some(extra) => Err(Misuse::WordTooMany(extra)),
        None => Ok(Command::Show { kind, path }),
    }
}

// The kind that a word names.
pub(crate) fn read_kind(name: &str) -> Option<Kind>
    ensures { result ≡ kind_by name.now }
{
    name.parse().ok()
}

impl fmt::Display for Misuse<'_> {
    fn fmt<W: fmt::Write>(&self, f: &mut fmt::Formatter<W>) -> fmt::Result {
        match *self {
            Misuse::UnknownCommand(word) => {
                write!(
                    f,
                    "there is no command '{word}'; give 'show', 'help' or no word at all"
                )
            }
            Misuse::KindMissing => {
                write!(
                    f,
                    "'show' needs a table and a file; write hub show GSUB FILE or hub show GPOS FILE"
                )
            }
            Misuse::UnknownKind(word) => write!(
                f,
                "there is no table '{word}' to show; write GSUB or GPOS after 'show'"
            ),
            Misuse::FileMissing(kind) => {
                write!(
                    f,
                    "'show {kind}' needs a file; give the path of a font file or of a bare {kind} table"
                )
            }
            Misuse::WordTooMany(word) => {
                write!(
                    f,
                    "'{word}' is one word too many; leave it out, or put a path with spaces in quotes"
                )
            }
        }
    }
}
