ghost use Rattle.std.specs.Prelude.{◌+◌, ◌^◌, ◌<◌};

use crate::fields::{u16_at, u32_at};
use source::Standing;

// A place in the bytes, which may lie past their end.
#[derive(Clone, Copy)]
pub(crate) struct Place<'a> {
    pub(crate) bytes: &'a [u8],
    pub(crate) at: usize,
    ghost near: { at < 2 ^ 63 + 2 ^ 33 },
}

impl<'a> Place<'a> {
    ghost use Rattle.std.specs.Prelude.{◌≡◌, ◌+◌};
    ghost use Rattle.source.specs.Standings.{mapped};
    ghost use Rattle.table.specs.Format.{u16_at, u32_at, bytes_at, whole};

    // The 16-bit number that stands so many bytes after the place.
    #[inline(always)]
    pub(crate) fn short(self, after: u8) -> u16
        ensures { result ≡ u16_at self.entry.bytes.now (self.entry.at + after) }
    {
        u16_at(self.bytes, self.at + after as usize)
    }

    // The 32-bit number that stands so many bytes after the place.
    #[inline(always)]
    pub(crate) fn long(self, after: u8) -> u32
        ensures { result ≡ u32_at self.entry.bytes.now (self.entry.at + after) }
    {
        u32_at(self.bytes, self.at + after as usize)
    }

    // So many bytes from the place, if they lie within the bytes.
    #[inline(always)]
    pub(crate) fn lent(self, size: u32) -> Standing<&'a [u8]>
        ensures { mapped (λ s. s.now) result ≡ mapped (λ p. bytes_at self.entry.bytes.now p size) (whole self.entry.bytes.now size self.entry.at) }
    {
        match self.bytes.get(self.at..self.at + size as usize) {
            Some(part) => Standing::There(part),
            None => Standing::Unreadable,
        }
    }
}
