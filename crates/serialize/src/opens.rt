// A fresh sink, and the opening and discarding of objects.
ghost use Rattle.std.specs.Prelude.{◌≡◌, ℕ, ◌<◌, List, [], length};
ghost use Rattle.serialize.specs.Tables.{Sound, end, sink_of};
ghost use Rattle.serialize.specs.Calls.{Pushed, Discards};

use crate::faults::Fault;
use crate::tables::{Counts, Frame, Link, Packed, Serializer, Width};
use crate::tokens::Token;

impl Counts {
    // Nothing is in use of the work buffer or of the tables.
    pub fn new(work: &[u8]) -> Counts
        ensures fresh { result ≡ record { head = 0; tail = end work.now; lhead = 0; ltail = 4096; objects = 0; depth = 0 } }
    {
        let tail = work.len().min(0xffff_ffff) as u32;
        Counts {
            tail,
            ltail: 4096,
            ..Counts::default()
        }
    }
}

impl Serializer {
    // Tables of which nothing is in use.
    pub fn new() -> Serializer
        ensures fresh { (w : List ℕ) → Sound w result (record { head = 0; tail = end w; lhead = 0; ltail = 4096; objects = 0; depth = 0 }) }
    {
        let link = Link {
            position: 0,
            target: 0,
            width: Width::Two,
        };
        Serializer {
            frames: [Frame::default(); 8],
            packed: [Packed::default(); 2048],
            links: [link; 4096],
        }
    }

    // Opens an object on top of the open ones. Its token is given back by packing or discarding it.
    pub fn push(&mut self, counts: &mut Counts) -> Result<Token, Fault>
        ensures pushed { (w : List ℕ) → Sound w self.old counts.old → Pushed w self.old self.new counts.old counts.new result }
    {
        let depth = counts.depth;
        if depth >= 8 {
            return Err(Fault::Limit);
        }
        let at = depth as usize;
        self.frames[at].begin(*counts);
        counts.depth = depth + 1;
        Ok(Token { level: depth + 1 })
    }

    // Drops the top object, and what was packed since its opening.
    pub fn pop_discard(&self, counts: &mut Counts, token: Token)
        ensures discarded { (w : List ℕ) → Sound w self.now counts.old → token.level ≡ counts.old.depth → Discards w self.now counts.old counts.new }
    {
        let Token { level } = token;
        let start = self.frames[level as usize - 1].start;
        *counts = start;
    }
}
