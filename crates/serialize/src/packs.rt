// The packing of objects.
ghost use Rattle.std.specs.Prelude.{◌≡◌, ◌+◌, ◌-◌, ◌<◌, length, drop, IfOk, Decides, slice_set};
ghost use Rattle.std.proofs.Math.Seq.{paste};
ghost use Rattle.serialize.specs.Tables.{Over, Sound, sink_of};
ghost use Rattle.serialize.specs.Calls.{top, PopPacked};
ghost use Rattle.serialize.specs.Trees.{Planted};

use crate::faults::Fault;
use crate::tables::{Counts, Packed, Serializer};
use crate::tokens::Token;

impl Counts {
    // Whether these lie in a work buffer of this size and in the tables, past those at an object's opening.
    pub(crate) fn over(self, start: Counts, size: usize) -> bool
        ensures over { Decides result (Over start self size) }
    {
        let bytes = start.head <= self.head && self.head <= self.tail && self.tail as usize <= size;
        let links = start.lhead <= self.lhead && self.lhead <= self.ltail && self.ltail <= 4096;
        bytes && links && self.objects <= 2048
    }
}

impl Serializer {
    // Moves the object open from `start` to `counts` to the packed ones, as a new one.
    pub(crate) fn settle(
        &mut self,
        work: &mut [u8],
        start: Counts,
        counts: Counts,
        mark: u16,
    ) -> Counts
        requires over { Over start counts (length work.old) }
        requires room { counts.objects < 2048 }
        ensures work { work.new ≡ paste work.old (counts.tail - (counts.head - start.head)) (drop start.head work.old) (counts.head - start.head) }
        ensures tables { self.new ≡ record { frames = self.old.frames; packed = slice_set self.old.packed counts.objects (record { head = counts.tail - (counts.head - start.head); tail = counts.tail; first = counts.ltail - (counts.lhead - start.lhead); last = counts.ltail; hash = mark }); links = paste self.old.links (counts.ltail - (counts.lhead - start.lhead)) (drop start.lhead self.old.links) (counts.lhead - start.lhead) } }
        ensures counts { result ≡ record { head = start.head; tail = counts.tail - (counts.head - start.head); lhead = start.lhead; ltail = counts.ltail - (counts.lhead - start.lhead); objects = counts.objects + 1; depth = start.depth } }
    {
        let tail = counts.tail - (counts.head - start.head);
        let ltail = counts.ltail - (counts.lhead - start.lhead);
        let (head, end) = (start.head as usize, counts.head as usize);
        let (first, last) = (start.lhead as usize, counts.lhead as usize);
        work.copy_within(head..end, tail as usize);
        self.links.copy_within(first..last, ltail as usize);
        let at = counts.objects as usize;
        self.packed[at] = Packed {
            head: tail,
            tail: counts.tail,
            first: ltail,
            last: counts.ltail,
            hash: mark,
        };
        Counts {
            tail,
            ltail,
            objects: counts.objects + 1,
            ..start
        }
    }
    // Packs the top object, and answers its number: that of the standing object with equal bytes and links, else a new
    // one. Where no number is left, the object is dropped as by a discard.
    pub fn pop_pack(
        &mut self,
        work: &mut [u8],
        counts: &mut Counts,
        token: Token,
    ) -> Result<u16, Fault>
        ensures packed { Sound work.old self.old counts.old → token.level ≡ counts.old.depth → PopPacked work.old work.new self.old self.new counts.old counts.new result }
        ensures planted { Sound work.old self.old counts.old → token.level ≡ counts.old.depth → IfOk result (Planted (top (sink_of work.old self.old counts.old)) (sink_of work.old self.old counts.old).pool (sink_of work.new self.new counts.new).pool) }
    {
        let Token { level } = token;
        let start = self.frames[level as usize - 1].start;
        let grown = *counts;
        if !grown.over(start, work.len()) {
            *counts = start;
            return Err(Fault::Work);
        }
        let mark = self.mark(work, start, grown);
        if let Some(number) = self.find(work, start, grown, mark) {
            *counts = Counts {
                head: start.head,
                lhead: start.lhead,
                depth: start.depth,
                ..grown
            };
            return Ok(number);
        }
        if grown.objects >= 2048 {
            *counts = start;
            return Err(Fault::Limit);
        }
        *counts = self.settle(work, start, grown, mark);
        Ok(grown.objects)
    }
}
