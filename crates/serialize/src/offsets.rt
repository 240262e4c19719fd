// Offsets: a field and its link together.
ghost use Rattle.std.specs.Prelude.{◌≡◌, ℕ, List, MatchOption};
ghost use Rattle.serialize.specs.Tables.{Sound};
ghost use Rattle.serialize.specs.Calls.{TopSize, OffsetAdded, OffsetAnswered};

use crate::faults::Fault;
use crate::marks::Mark;
use crate::tables::{Counts, Link, Serializer, Width};

impl Serializer {
    // How many bytes the top object has, if one is open.
    pub(crate) fn top_size(&self, counts: Counts) -> Option<u32>
        ensures size { MatchOption result ((w : List ℕ) → Sound w self.now counts → counts.depth ≡ 0) (TopSize self.now counts) }
    {
        if counts.depth == 0 || counts.depth > 8 {
            return None;
        }
        let start = self.frames[counts.depth as usize - 1].start;
        if start.head > counts.head {
            return None;
        }
        Some(counts.head - start.head)
    }

    // Adds an offset to the top object: a field of zeros, and its link. A refusal takes the field back.
    pub fn add_offset(
        &mut self,
        work: &mut [u8],
        counts: &mut Counts,
        width: Width,
        target: u16,
    ) -> Result<(), Fault>
        ensures added { Sound work.old self.old counts.old → OffsetAdded width target work.old work.new self.old self.new counts.old counts.new result × OffsetAnswered width target counts.old result }
    {
        let saved = *counts;
        let Some(position) = self.top_size(saved) else {
            return Err(Fault::Limit);
        };
        let zeros = [0; 4];
        let size = width.size() as usize;
        let mut mark = Mark {
            counts,
            saved,
            kept: false,
        };
        self.embed_bytes(work, mark.counts, &zeros[0..size])?;
        self.add_link(
            mark.counts,
            Link {
                position,
                target,
                width,
            },
        )?;
        mark.kept = true;
        Ok(())
    }
}
