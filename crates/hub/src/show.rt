use crate::troubles::Fault;
use crate::work::Task;
use console::Page;
use source::Source;
use std::alloc::{AllocError, Global};

// A table, and the page on which it is shown.
#[derive(Drop)]
pub(crate) struct Shown<'a, S> {
    pub(crate) source: &'a S,
    pub(crate) page: Page,
}

impl<'a, S: Source> Shown<'a, S> {
    // The text of a table under a heading.
    fn new(heap: Global, source: &'a S, heading: &str) -> Result<Shown<'a, S>, AllocError> {
        let mut page = Page::new(heap);
        page.line(heading)?;
        page.end()?;
        let mut shown = Shown { source, page };
        shown.write_scripts()?;
        shown.write_features()?;
        shown.write_variations()?;
        Ok(shown)
    }
}

// Each part of the table is told.
#[derive(Clone, Copy)]
pub(crate) struct Show;

impl<'a> Task<'a> for Show {
    fn page<S: Source>(self, heap: Global, source: &S, heading: &str) -> Result<Page, Fault<'a>> {
        Ok(Shown::new(heap, source, heading)?.page)
    }
}
