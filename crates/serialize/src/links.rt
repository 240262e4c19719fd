// The links of the open object.
ghost use Rattle.std.specs.Prelude.{◌≡◌, ℕ, ◌<◌, ◌≤◌, List, Decides, OnOk};
ghost use Rattle.std.specs.List.{between};
ghost use Rattle.serialize.specs.Objects.{width_of, last_end};
ghost use Rattle.serialize.specs.Tables.{Sound, sink_of};
ghost use Rattle.serialize.specs.Calls.{Takes, LinkAdded};
ghost use Rattle.serialize.specs.Trees.{Grafted};

use crate::faults::Fault;
use crate::tables::{Counts, Link, Serializer, Width};

impl Width {
    // How many bytes a field of this width has.
    pub fn size(self) -> u16
        ensures size { result ≡ width_of self }
    {
        self as u16
    }
}

impl Serializer {
    // Where the last field of the object that is open from `start` to `counts` ends.
    pub(crate) fn last_end(&self, start: Counts, counts: Counts) -> u64
        requires links { counts.lhead ≤ 4096 }
        ensures end { result ≡ last_end 0 (between start.lhead counts.lhead self.now.links) }
    {
        if start.lhead >= counts.lhead {
            return 0;
        }
        let last = self.links[counts.lhead as usize - 1];
        last.position as u64 + last.width.size() as u64
    }

    // Whether the top object has a free field for the link after its other ones, and the target is packed.
    pub(crate) fn takes(&self, counts: Counts, link: Link) -> bool
        requires links { counts.lhead ≤ 4096 }
        requires frames { counts.depth ≤ 8 }
        ensures takes { (w : List ℕ) → Sound w self.now counts → Decides result (Takes self.now counts link) }
    {
        if counts.depth == 0 || link.target >= counts.objects {
            return false;
        }
        let start = self.frames[counts.depth as usize - 1].start;
        let end = start.head as u64 + link.position as u64 + link.width.size() as u64;
        end <= counts.head as u64 && self.last_end(start, counts) <= link.position as u64
    }

    // Adds a link to the top object. Its field has to lie in the object's bytes, past the fields of the links before
    // it, and its target has to be packed.
    pub fn add_link(&mut self, counts: &mut Counts, link: Link) -> Result<(), Fault>
        ensures added { (w : List ℕ) → Sound w self.old counts.old → LinkAdded link w self.old self.new counts.old counts.new result }
        ensures grafted { (w : List ℕ) → Sound w self.old counts.old → OnOk result (Grafted (sink_of w self.old counts.old) (sink_of w self.new counts.new) link) }
    {
        let grown = *counts;
        if grown.lhead >= grown.ltail || grown.ltail > 4096 || grown.depth > 8 {
            return Err(Fault::Limit);
        }
        if !self.takes(grown, link) {
            return Err(Fault::Limit);
        }
        self.links[grown.lhead as usize] = link;
        counts.lhead = grown.lhead + 1;
        Ok(())
    }
}
