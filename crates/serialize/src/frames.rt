// The frame of an open object.
ghost use Rattle.std.specs.Prelude.{◌≡◌};

use crate::tables::{Counts, Frame};

impl Frame {
    // Records where the object's bytes and links begin. The top frame is lent for it.
    pub(crate) fn begin(&mut self, counts: Counts)
        ensures begun { self.new ≡ record { start = counts } }
    {
        self.start = counts;
    }
}
