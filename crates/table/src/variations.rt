ghost use Rattle.std.specs.Prelude.{◌+◌, ◌≤◌, length};
ghost use Rattle.table.specs.Format.{variations_size};

use crate::fields::u32_at;
use crate::place::Place;
use source::Standing;

// A variation list, whose records are counted by 32 bits and lie within the bytes. Its count stands at another place and in
// another width than that of a `Part`, so one type for both would be no plainer.
#[derive(Drop)]
pub(crate) struct VariationList<'a> {
    pub(crate) bytes: &'a [u8],
    pub(crate) at: usize,
    ghost inside: { at + variations_size bytes.now at ≤ length bytes.now },
}

impl<'a> VariationList<'a> {
    ghost use Rattle.std.specs.Prelude.{◌≡◌, ◌+◌, ◌*◌, cond, nat_lt, Some, None};
    ghost use Rattle.table.specs.Format.{u32_at, variations_led};
    ghost use Rattle.table.specs.Spots.{placed, variations_spots, spot, entry_spot};

    // The list at an offset from the table's start.
    #[inline(always)]
    pub(crate) fn led_to(bytes: &'a [u8], offset: u32) -> Standing<VariationList<'a>>
        ensures { variations_spots result ≡ placed bytes.now (variations_led bytes.now offset) }
    {
        if offset == 0 {
            return Standing::Absent;
        }
        let at = offset as usize;
        let count = u32_at(bytes, at + 4) as usize;
        if at + 8 + 8 * count > bytes.len() {
            return Standing::Unreadable;
        }
        Standing::There(VariationList { bytes, at })
    }

    // How many records the list has.
    #[inline(always)]
    pub(crate) fn len(&self) -> u32
        ensures { result ≡ u32_at self.now.bytes.now (self.now.at + 4) }
    {
        u32_at(self.bytes, self.at + 4)
    }

    // The place of a record.
    #[inline(always)]
    pub(crate) fn record(&self, i: u32) -> Option<Place<'a>>
        ensures { entry_spot result ≡ cond (nat_lt i (u32_at self.now.bytes.now (self.now.at + 4))) (Some (spot self.now.bytes.now (self.now.at + 8 + 8 * i))) None }
    {
        if i >= self.len() {
            return None;
        }
        Some(Place {
            bytes: self.bytes,
            at: self.at + 8 + 8 * i as usize,
        })
    }
}
