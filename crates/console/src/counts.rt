ghost use Rattle.std.specs.Prelude.{Some};
ghost use Rattle.console.specs.Counts.{count_text};

use source::Standing;
use std::fmt;

// How a list stands, with the number of its things.
#[derive(Clone, Copy, PartialEq, Eq, Debug)]
pub struct Counted<'a> {
    pub list: Standing<u16>,
    pub thing: &'a str,
}

impl fmt::Display for Counted<'_> {
    ghost output = { λ c. Some (count_text c.list c.thing.now) };

    fn fmt<W: fmt::Write>(&self, f: &mut fmt::Formatter<W>) -> fmt::Result {
        let thing = self.thing;
        match self.list {
            Standing::Absent => write!(f, "absent"),
            Standing::Unreadable => write!(f, "unreadable"),
            Standing::There(0) => write!(f, "no {thing}s"),
            Standing::There(1) => write!(f, "1 {thing}"),
            Standing::There(n) => write!(f, "{n} {thing}s"),
        }
    }
}
