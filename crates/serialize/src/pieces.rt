// The packed objects, to look at.
ghost use Rattle.std.specs.Prelude.{◌≡◌, ◌<◌, ◌≤◌, MatchOption};
ghost use Rattle.serialize.specs.Objects.{number as numbered};
ghost use Rattle.serialize.specs.Tables.{Sound, sink_of};
ghost use Rattle.serialize.specs.Laying.{place as placed};

use crate::tables::{Counts, Link, Serializer};

// An object: the place at which it is laid, its bytes and its links.
#[derive(Clone, Copy)]
pub struct Piece<'a> {
    pub place: usize,
    pub bytes: &'a [u8],
    pub links: &'a [Link],
}

impl Serializer {
    // The packed object of a number.
    pub fn piece<'a>(&'a self, work: &'a [u8], counts: Counts, number: u16) -> Option<Piece<'a>>
        ensures told { Sound work.now self.now counts → MatchOption result (counts.objects ≤ number) (λ o. (number < counts.objects) × (o.place ≡ placed (sink_of work.now self.now counts).pool number) × (o.bytes.now ≡ (numbered (sink_of work.now self.now counts).pool number).bytes) × (o.links.now ≡ (numbered (sink_of work.now self.now counts).pool number).links)) }
    {
        if number >= counts.objects || number >= 2048 {
            return None;
        }
        let entry = self.packed[number as usize];
        let (head, tail) = (entry.head as usize, entry.tail as usize);
        let (first, last) = (entry.first as usize, entry.last as usize);
        if head < counts.tail as usize || !entry.lies(work.len()) {
            return None;
        }
        Some(Piece {
            place: head - counts.tail as usize,
            bytes: &work[head..tail],
            links: &self.links[first..last],
        })
    }
}
