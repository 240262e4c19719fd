// The look-up of a packed object.
ghost use Rattle.std.specs.Prelude.{◌≡◌, ◌<◌, length, Decides, MatchOption};
ghost use Rattle.serialize.specs.Objects.{Stands, Absent};
ghost use Rattle.serialize.specs.Tables.{object_at, open_at, pool_to, hash_of, Entry, Lies, Over, Sound};

use crate::hashes::hash;
use crate::tables::{Counts, Link, Packed, Serializer};

impl Packed {
    // Whether the entry lies in a work buffer of this size and in the table of links.
    pub(crate) fn lies(self, size: usize) -> bool
        ensures lies { Decides result (Lies self size) }
    {
        let bytes = self.head <= self.tail && self.tail as usize <= size;
        bytes && self.first <= self.last && self.last <= 4096
    }
}

impl Serializer {
    // Whether the packed object `i` has these bytes and links.
    pub(crate) fn equals(&self, work: &[u8], i: usize, bytes: &[u8], links: &[Link]) -> bool
        requires place { i < 2048 }
        ensures same { Entry work.now self.now 0 0 i → Decides result (object_at work.now self.now i ≡ record { bytes = bytes.now; links = links.now }) }
    {
        let entry = self.packed[i];
        let (head, tail) = (entry.head as usize, entry.tail as usize);
        let (first, last) = (entry.first as usize, entry.last as usize);
        if !entry.lies(work.len()) {
            return false;
        }
        &work[head..tail] == bytes && &self.links[first..last] == links
    }
    // The number of the packed object that is equal to the one open from `start` to `counts`.
    pub(crate) fn find(&self, work: &[u8], start: Counts, counts: Counts, mark: u16) -> Option<u16>
        requires over { Over start counts (length work.now) }
        ensures found { Sound work.now self.now counts → mark ≡ hash_of (open_at work.now self.now start counts) → MatchOption result (Absent (open_at work.now self.now start counts) (pool_to work.now self.now counts.objects)) (Stands (open_at work.now self.now start counts) (pool_to work.now self.now counts.objects)) }
    {
        let (head, end) = (start.head as usize, counts.head as usize);
        let (first, last) = (start.lhead as usize, counts.lhead as usize);
        let bytes = &work[head..end];
        let links = &self.links[first..last];
        for i in 0..counts.objects {
            if self.packed[i as usize].hash == mark && self.equals(work, i as usize, bytes, links) {
                return Some(i);
            }
        }
        None
    }
    // The hash of the object open from `start` to `counts`.
    pub(crate) fn mark(&self, work: &[u8], start: Counts, counts: Counts) -> u16
        requires over { Over start counts (length work.now) }
        ensures hashed { result ≡ hash_of (open_at work.now self.now start counts) }
    {
        let (head, end) = (start.head as usize, counts.head as usize);
        let (first, last) = (start.lhead as usize, counts.lhead as usize);
        hash(&work[head..end], &self.links[first..last])
    }
}
