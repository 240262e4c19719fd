// A mark before a record: the counts stand as they were at its end, unless the record is kept. It borrows the counts alone,
// and asks nothing of them. It is built in place, as
// `let saved = *counts; let mut mark = Mark { counts, saved, kept: false };`.
ghost use Rattle.std.specs.Prelude.{◌≡◌, if◌then◌else◌};

use crate::tables::Counts;

pub struct Mark<'a> {
    pub counts: &'a mut Counts,
    pub saved: Counts,
    pub kept: bool,
}

impl Drop for Mark<'_> {
    fn drop(self)
        ensures { self.exit.0.now ≡ (if self.entry.kept then self.entry.counts.now else self.entry.saved) }
    {
        let Mark {
            counts,
            saved,
            kept,
        } = self;
        if !kept {
            *counts = saved;
        }
    }
}
