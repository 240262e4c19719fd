// The packed objects laid in one buffer.
ghost use Rattle.std.specs.Prelude.{◌≡◌, ℕ, suc, ◌+◌, ◌-◌, ◌<◌, ◌≤◌, List, ◌++◌, length, drop, Decides, OnOk};
ghost use Rattle.serialize.specs.Objects.{size, width_of, Fields};
ghost use Rattle.serialize.specs.Tables.{Sound, entry_at, object_at, pool_to, sink_of};
ghost use Rattle.serialize.specs.Trees.{ReadBack};
ghost use Rattle.serialize.specs.Laying.{field, put, distance, patched, laid, Within, Short, AllShort, Laid};

use crate::faults::Fault;
use crate::tables::{Counts, Link, Serializer, Width};

// Writes the distance into the link's field, which lies in the part.
pub(crate) fn put_field(part: &mut [u8], link: Link, distance: u32)
    ensures put { link.position + width_of link.width ≤ length part.old → part.new ≡ put part.old link.position (field link.width distance) }
{
    let raw = distance.to_be_bytes();
    let size = link.width.size() as usize;
    let from = 4 - size;
    let at = link.position as usize;
    let end = at + size;
    if end > part.len() {
        return;
    }
    part[at..end].copy_from_slice(&raw[from..4]);
}

impl Width {
    // Whether a field of this width holds the distance.
    pub(crate) fn holds(self, distance: u32) -> bool
        ensures within { Decides result (Within self distance) }
    {
        match self {
            Width::Two => distance <= 65535,
            Width::Four => true,
        }
    }
}

impl Serializer {
    // How far the target of a link is from the object `i`, which holds it.
    pub(crate) fn distance(&self, i: usize, link: Link) -> u32
        requires place { i < 2048 }
        ensures distance { (w : List ℕ) (c : Counts) → Sound w self.now c → i < c.objects → link.target < i → result ≡ distance (pool_to w self.now (suc i)) link }
    {
        if link.target >= 2048 {
            return 0;
        }
        let (target, holder) = (self.packed[link.target as usize].head, self.packed[i].head);
        if target < holder {
            return 0;
        }
        target - holder
    }

    // Writes the fields of the object `i`'s links.
    pub(crate) fn patch(&self, i: usize, links: &[Link], part: &mut [u8])
        requires place { i < 2048 }
        ensures patched { (w : List ℕ) (c : Counts) → Sound w self.now c → i < c.objects → Fields 0 links.now (length part.old) i → part.new ≡ patched part.old links.now (pool_to w self.now (suc i)) }
    {
        for link in links {
            let distance = self.distance(i, *link);
            put_field(part, *link, distance);
        }
    }

    // Writes the object `i`, with the fields of its links, to a part of its size.
    pub(crate) fn put_object(&self, work: &[u8], i: usize, part: &mut [u8])
        requires place { i < 2048 }
        ensures patched { (c : Counts) → Sound work.now self.now c → i < c.objects → length part.old ≡ (entry_at self.now i).tail - (entry_at self.now i).head → part.new ≡ patched (object_at work.now self.now i).bytes (object_at work.now self.now i).links (pool_to work.now self.now (suc i)) }
    {
        let entry = self.packed[i];
        let (head, tail) = (entry.head as usize, entry.tail as usize);
        let (first, last) = (entry.first as usize, entry.last as usize);
        if !entry.lies(work.len()) || tail - head != part.len() {
            return;
        }
        part.copy_from_slice(&work[head..tail]);
        self.patch(i, &self.links[first..last], part);
    }

    // Whether each of these links of the object `i` is within what its width holds.
    pub(crate) fn short(&self, i: usize, links: &[Link]) -> bool
        requires place { i < 2048 }
        ensures short { (w : List ℕ) (c : Counts) (m : ℕ) → Sound w self.now c → i < c.objects → Fields 0 links.now m i → Decides result (Short (pool_to w self.now (suc i)) links.now) }
    {
        for link in links {
            let distance = self.distance(i, *link);
            if !link.width.holds(distance) {
                return false;
            }
        }
        true
    }

    // Whether each link of the object `i` is within what its width holds.
    pub(crate) fn object_short(&self, i: usize) -> bool
        requires place { i < 2048 }
        ensures short { (w : List ℕ) (c : Counts) → Sound w self.now c → i < c.objects → Decides result (Short (pool_to w self.now (suc i)) (object_at w self.now i).links) }
    {
        let entry = self.packed[i];
        let (first, last) = (entry.first as usize, entry.last as usize);
        if first > last || last > 4096 {
            return false;
        }
        self.short(i, &self.links[first..last])
    }

    // Whether each link of each object is.
    pub(crate) fn all_short(&self, counts: Counts) -> bool
        requires few { counts.objects ≤ 2048 }
        ensures short { (w : List ℕ) → Sound w self.now counts → Decides result (AllShort (pool_to w self.now counts.objects)) }
    {
        for i in 0..counts.objects {
            if !self.object_short(i as usize) {
                return false;
            }
        }
        true
    }

    // Writes every object to its place.
    pub(crate) fn lay_all(&self, work: &[u8], counts: Counts, out: &mut [u8])
        requires few { counts.objects ≤ 2048 }
        ensures laid { Sound work.now self.now counts → size (pool_to work.now self.now counts.objects) ≤ length out.old → out.new ≡ laid (pool_to work.now self.now counts.objects) ++ drop (size (pool_to work.now self.now counts.objects)) out.old }
    {
        let tail = counts.tail as usize;
        for i in 0..counts.objects {
            let entry = self.packed[i as usize];
            let (from, to) = (entry.head as usize, entry.tail as usize);
            if from < tail || to < from || to - tail > out.len() {
                return;
            }
            self.put_object(work, i as usize, &mut out[from - tail..to - tail]);
        }
    }

    // Lays the packed objects in `out`, the newest first, and answers how many bytes they take. The bytes of `out`
    // after them stay.
    pub fn lay(&self, work: &[u8], counts: Counts, out: &mut [u8]) -> Result<usize, Fault>
        ensures laid { Sound work.now self.now counts → Laid (sink_of work.now self.now counts).pool out.old out.new result }
        ensures read { Sound work.now self.now counts → OnOk result (ReadBack (sink_of work.now self.now counts).pool out.new) }
    {
        let end = work.len().min(0xffff_ffff);
        let tail = counts.tail as usize;
        if counts.objects > 2048 || tail > end {
            return Err(Fault::Work);
        }
        if !self.all_short(counts) {
            return Err(Fault::Offset);
        }
        let size = end - tail;
        if out.len() < size {
            return Err(Fault::Out);
        }
        self.lay_all(work, counts, out);
        Ok(size)
    }
}
