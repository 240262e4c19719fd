// What is done with a table: it is shown, or its features are numbered.
use crate::troubles::Fault;
use console::{Page, SetWords};
use font::{Part, find_table};
use keys::Tag;
use report::tell_numbering;
use source::{Kind, Source};
use std::alloc::Global;
use std::fs;
use table::Table;

// What is told of a table under a heading.
pub(crate) trait Task<'a>: Copy {
    fn page<S: Source>(self, heap: Global, source: &S, heading: &str) -> Result<Page, Fault<'a>>;
}

// The features are numbered that the words keep.
impl<'a> Task<'a> for SetWords<'a> {
    fn page<S: Source>(self, heap: Global, source: &S, heading: &str) -> Result<Page, Fault<'a>> {
        Ok(tell_numbering(heap, source, heading, self)?)
    }
}

pub(crate) fn work_builtin<'a, T: Task<'a>>(rt: &HostRuntime, task: T) -> Result<(), Fault<'a>> {
    let source = rows::builtin();
    let kind = source.kind();
    let heading = format!(in rt.alloc(); "{kind} table, built in")?;
    let page = task.page(rt.alloc(), &source, heading.as_str())?;
    Ok(rt.print(page.as_str())?)
}

pub(crate) fn work_file<'a, T: Task<'a>>(
    rt: &HostRuntime,
    kind: Kind,
    path: &str,
    task: T,
) -> Result<(), Fault<'a>> {
    let file = fs::read(rt, path).map_err(|error| Fault::Unread(error.kind()))?;
    let (bytes, holder) = match find_table(file.as_slice(), Tag::from(kind))? {
        Part::InFont(bytes) => (bytes, "font file"),
        Part::Bare(bytes) => (bytes, "bare table"),
    };
    let table = Table::open(kind, bytes)?;
    let size = bytes.len();
    let heading = format!(in rt.alloc(); "{kind} table, {size} bytes, of the {holder} '{path}'")?;
    let page = task.page(rt.alloc(), &table, heading.as_str())?;
    Ok(rt.print(page.as_str())?)
}
