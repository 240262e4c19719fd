use numbering::{MAX_FEATURES, MAX_LOOKUPS, MAX_SCRIPTS};
use std::alloc::AllocError;
use std::fmt;

// Why nothing is told, in one line that says what to do.
#[derive(Clone, Copy, PartialEq, Eq, Debug)]
pub enum Untold<'a> {
    Memory,
    NotLookups(&'a str),
    NotFeatures(&'a str),
    NotScripts(&'a str),
    TooManyLookups(usize),
    TooManyFeatures(usize),
    TooManyScripts(usize),
    TooManyPairs,
}

impl<'a> From<AllocError> for Untold<'a> {
    fn from(_error: AllocError) -> Untold<'a> {
        Untold::Memory
    }
}

impl fmt::Display for Untold<'_> {
    fn fmt<W: fmt::Write>(&self, f: &mut fmt::Formatter<W>) -> fmt::Result {
        match *self {
            Untold::Memory => write!(
                f,
                "there is not enough memory; end other programs and try again"
            ),
            Untold::NotLookups(word) => write_not_indices(f, "lookup", word),
            Untold::NotFeatures(word) => write_not_indices(f, "feature", word),
            Untold::NotScripts(word) => {
                write!(
                    f,
                    "'{word}' is no list of script tags; write tags with commas, as latn,DFLT, or 'all' or 'none'"
                )
            }
            Untold::TooManyLookups(count) => write_too_many(f, "lookups", count, MAX_LOOKUPS),
            Untold::TooManyFeatures(count) => write_too_many(f, "features", count, MAX_FEATURES),
            Untold::TooManyScripts(count) => write_too_many(f, "script tags", count, MAX_SCRIPTS),
            Untold::TooManyPairs => {
                write!(
                    f,
                    "more than 2048 language systems would be kept (refusal 4); keep fewer scripts"
                )
            }
        }
    }
}

fn write_not_indices<W: fmt::Write>(
    f: &mut fmt::Formatter<W>,
    thing: &str,
    word: &str,
) -> fmt::Result {
    write!(
        f,
        "'{word}' is no list of {thing} indices; write indices and ranges with commas, as 0,1,4-9, or 'all' or 'none'"
    )
}

fn write_too_many<W: fmt::Write>(
    f: &mut fmt::Formatter<W>,
    things: &str,
    count: usize,
    most: usize,
) -> fmt::Result {
    write!(
        f,
        "{count} {things} are too many; write a list of at most {most} of them"
    )
}
