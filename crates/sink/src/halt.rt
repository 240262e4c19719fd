use serialize::Fault;
use std::{fmt, io};

// Why the program stops early.
#[derive(Clone, Copy)]
pub(crate) enum Halt {
    Sink(Fault),
    Output,
}

impl From<Fault> for Halt {
    fn from(fault: Fault) -> Halt {
        Halt::Sink(fault)
    }
}

impl From<io::Error> for Halt {
    fn from(_error: io::Error) -> Halt {
        Halt::Output
    }
}

impl fmt::Display for Halt {
    fn fmt<W: fmt::Write>(&self, f: &mut fmt::Formatter<W>) -> fmt::Result {
        match self {
            Halt::Sink(fault) => {
                let number = fault.number();
                write!(f, "the sink refused a step, by number {number}")
            }
            Halt::Output => write!(
                f,
                "the text cannot be written; see that the output is open and has room"
            ),
        }
    }
}
