ghost use Rattle.std.specs.Prelude.{◌+◌, ◌≤◌, length};
ghost use Rattle.table.specs.Format.{counted};

use crate::fields::u16_at;
use crate::layouts::Part;
use crate::place::Place;
use source::Standing;
use std::marker::PhantomData;

// A counted table whose fields and entries lie within the bytes.
#[derive(Drop)]
pub(crate) struct Counted<'a, P: Part> {
    pub(crate) bytes: &'a [u8],
    pub(crate) at: usize,
    part: PhantomData<P>,
    ghost inside: { at + counted bytes.now P.LAYOUT at ≤ length bytes.now },
}

impl<'a, P: Part> Counted<'a, P> {
    ghost use Rattle.std.specs.Prelude.{◌≡◌, ◌+◌, ◌≤◌, length, IfSome, Some, None};
    ghost use Rattle.table.specs.Format.{u16_at, led};
    ghost use Rattle.table.specs.Places.{at_entry};
    ghost use Rattle.table.specs.Spots.{placed, spots, spot, place_spot, entry_spot};

    // The table that an offset leads to from the one that holds it, which begins at `base`, if it lies within the bytes.
    #[inline(always)]
    pub(crate) fn led_to(bytes: &'a [u8], base: usize, offset: u32) -> Standing<Counted<'a, P>>
        requires { base ≤ length bytes.now }
        ensures { spots result ≡ placed bytes.now (led bytes.now P.LAYOUT base offset) }
    {
        if offset == 0 {
            return Standing::Absent;
        }
        let at = base + offset as usize;
        let entries = at + P::LAYOUT.head as usize + 2;
        if entries > bytes.len() {
            return Standing::Unreadable;
        }
        let count = u16_at(bytes, at + P::LAYOUT.head as usize) as usize;
        if entries + P::LAYOUT.width as usize * count > bytes.len() {
            return Standing::Unreadable;
        }
        Standing::There(Counted {
            bytes,
            at,
            part: PhantomData,
        })
    }

    // The table that an offset leads to from this one, which holds it.
    #[inline(always)]
    pub(crate) fn follow<Q: Part>(&self, offset: u32) -> Standing<Counted<'a, Q>>
        ensures { spots result ≡ placed self.now.bytes.now (led self.now.bytes.now Q.LAYOUT self.now.at offset) }
    {
        Counted::led_to(self.bytes, self.at, offset)
    }

    // The place so many bytes after the table's start.
    #[inline(always)]
    pub(crate) fn place(&self, offset: u32) -> Place<'a>
        ensures { place_spot result ≡ spot self.now.bytes.now (self.now.at + offset) }
    {
        Place {
            bytes: self.bytes,
            at: self.at + offset as usize,
        }
    }

    // The 16-bit field that stands so many bytes after the table's start.
    #[inline(always)]
    pub(crate) fn field(&self, after: u8) -> u16
        ensures { result ≡ u16_at self.now.bytes.now (self.now.at + after) }
    {
        u16_at(self.bytes, self.at + after as usize)
    }

    // How many entries the table has.
    #[inline(always)]
    pub(crate) fn len(&self) -> u16
        ensures { result ≡ u16_at self.now.bytes.now (self.now.at + P.LAYOUT.head) }
    {
        self.field(P::LAYOUT.head)
    }

    // The place of an entry.
    #[inline(always)]
    pub(crate) fn entry(&self, i: u16) -> Option<Place<'a>>
        ensures value { entry_spot result ≡ at_entry self.now.bytes.now P.LAYOUT self.now.at i None (λ e. Some (spot self.now.bytes.now e)) }
        ensures inside { IfSome result (λ e. e.at + P.LAYOUT.width ≤ length e.bytes.now) }
    {
        if i >= self.len() {
            return None;
        }
        let entries = self.at + P::LAYOUT.head as usize + 2;
        Some(Place {
            bytes: self.bytes,
            at: entries + P::LAYOUT.width as usize * i as usize,
        })
    }
}
