use font::FontFault;
use report::Untold;
use source::{Kind, Refusal};
use std::alloc::AllocError;
use std::io::ErrorKind;
use std::{fmt, io};

// What the system refuses.
#[derive(Clone, Copy)]
pub enum Halt {
    Memory,
    Output,
}

impl fmt::Display for Halt {
    fn fmt<W: fmt::Write>(&self, f: &mut fmt::Formatter<W>) -> fmt::Result {
        match self {
            Halt::Memory => write!(
                f,
                "there is not enough memory; end other programs and try again"
            ),
            Halt::Output => write!(
                f,
                "the text cannot be written; see that the output is open and has room"
            ),
        }
    }
}

// Why a file's table is not shown or numbered.
#[derive(Clone, Copy)]
pub enum Fault<'a> {
    Unread(ErrorKind),
    Font(FontFault),
    Refused(Refusal),
    Untold(Untold<'a>),
    Halted(Halt),
}

impl<'a> From<AllocError> for Fault<'a> {
    fn from(_error: AllocError) -> Fault<'a> {
        Fault::Halted(Halt::Memory)
    }
}

impl<'a> From<io::Error> for Fault<'a> {
    fn from(_error: io::Error) -> Fault<'a> {
        Fault::Halted(Halt::Output)
    }
}

impl<'a> From<FontFault> for Fault<'a> {
    fn from(fault: FontFault) -> Fault<'a> {
        Fault::Font(fault)
    }
}

impl<'a> From<Refusal> for Fault<'a> {
    fn from(refusal: Refusal) -> Fault<'a> {
        Fault::Refused(refusal)
    }
}

impl<'a> From<Untold<'a>> for Fault<'a> {
    fn from(untold: Untold<'a>) -> Fault<'a> {
        Fault::Untold(untold)
    }
}

// The same with the file, in one line that says what to do.
#[derive(Clone, Copy)]
pub struct Trouble<'a> {
    pub path: &'a str,
    pub kind: Kind,
    pub fault: Fault<'a>,
}

impl fmt::Display for Trouble<'_> {
    fn fmt<W: fmt::Write>(&self, f: &mut fmt::Formatter<W>) -> fmt::Result {
        let (path, kind) = (self.path, self.kind);
        match self.fault {
            Fault::Unread(reason) => {
                let why = unread_reason(reason);
                write!(
                    f,
                    "cannot read '{path}': {why}; give the path of a font file or of a bare {kind} table"
                )
            }
            Fault::Font(fault) => self.write_font_fault(f, fault),
            Fault::Refused(refusal) => self.write_refusal(f, refusal),
            Fault::Untold(untold) => write!(f, "{untold}"),
            Fault::Halted(halt) => write!(f, "{halt}"),
        }
    }
}

fn unread_reason(reason: ErrorKind) -> &'static str {
    match reason {
        ErrorKind::NotFound => "no such file",
        ErrorKind::PermissionDenied => "its permissions forbid it",
        ErrorKind::IsADirectory => "it is a folder",
        _ => "reading it failed",
    }
}

impl Trouble<'_> {
    fn write_font_fault<W: fmt::Write>(
        &self,
        f: &mut fmt::Formatter<W>,
        fault: FontFault,
    ) -> fmt::Result {
        let (path, kind) = (self.path, self.kind);
        match fault {
            FontFault::Collection => {
                write!(
                    f,
                    "'{path}' is a font collection; take one font out of it, and give the path of that font file"
                )
            }
            FontFault::Compressed => {
                write!(
                    f,
                    "'{path}' is a compressed web font; unpack it to an OpenType font file, and give the path of that"
                )
            }
            FontFault::ShortDirectory => {
                write!(
                    f,
                    "the font file '{path}' ends within its table directory; get a whole copy of the file"
                )
            }
            FontFault::NoTable => write!(
                f,
                "the font file '{path}' has no {kind} table; give the path of a font that has one"
            ),
            FontFault::PastEnd => {
                write!(
                    f,
                    "the {kind} table of '{path}' passes the end of the file; get a whole copy of the file"
                )
            }
        }
    }

    fn write_refusal<W: fmt::Write>(
        &self,
        f: &mut fmt::Formatter<W>,
        refusal: Refusal,
    ) -> fmt::Result {
        let (path, kind) = (self.path, self.kind);
        let number = refusal.number();
        match refusal {
            Refusal::SourceTooLarge => {
                write!(
                    f,
                    "the {kind} table of '{path}' is over 65535 bytes (refusal {number}); give a font with a smaller {kind} table"
                )
            }
            Refusal::BadHeader => {
                write!(
                    f,
                    "'{path}' has no {kind} header of major version 1 (refusal {number}); give the path of a font file or of a bare {kind} table"
                )
            }
            Refusal::TooManyPairs => {
                write!(
                    f,
                    "more than 2048 language systems of '{path}' would be kept (refusal {number}); keep fewer scripts"
                )
            }
        }
    }
}
