// What is read of a counted table that may not be there, and where its records lead.
ghost use Rattle.std.specs.Prelude.{◌≡◌, ◌+◌, Some, None};
ghost use Rattle.source.specs.Standings.{mapped, ForThere};
ghost use Rattle.source.specs.declared.parts.Standing.TheVariants.{Absent};
ghost use Rattle.table.specs.Format.{u16_at, u32_at, led};
ghost use Rattle.table.specs.Places.{at_entry};
ghost use Rattle.table.specs.Spots.{placed, spots, found};
ghost use Rattle.table.specs.Standings.{Mapped};

use crate::counted::Counted;
use crate::layouts::Part;
use keys::Tag;
use source::Standing;

// What a function makes of a part, standing as the part does. It is not a method of the standing, since a public one
// would ask of its caller that the function may be called.
#[inline(always)]
pub(crate) fn mapped<T, U, F: FnOnce(T) -> U>(place: Standing<T>, f: F) -> Standing<U>
    requires { ForThere place (F.pre f) }
    ensures { Mapped place (F.post f) result }
{
    match place {
        Standing::There(part) => Standing::There(f(part)),
        Standing::Unreadable => Standing::Unreadable,
        Standing::Absent => Standing::Absent,
    }
}

// How a counted table stands, with the number of its entries.
#[inline(always)]
pub(crate) fn count_of<P: Part>(list: Standing<Counted<'_, P>>) -> Standing<u16>
    ensures { result ≡ mapped (λ s. u16_at s.bytes (s.at + P.LAYOUT.head)) (spots list.entry) }
{
    mapped(list, |list| list.len())
}

// The 16-bit number at an entry of a counted table.
#[inline(always)]
pub(crate) fn number_of<P: Part>(list: Standing<Counted<'_, P>>, i: u16) -> Option<u16>
    ensures { result ≡ found (spots list.entry) None (λ b p. at_entry b P.LAYOUT p i None (λ e. Some (u16_at b e))) }
{
    let list = list.there()?;
    Some(list.entry(i)?.short(0))
}

// The tag of a record (tag, offset) of a counted table.
#[inline(always)]
pub(crate) fn tag_of<P: Part>(list: Standing<Counted<'_, P>>, i: u16) -> Tag
    ensures { result.code ≡ found (spots list.entry) 0 (λ b p. at_entry b P.LAYOUT p i 0 (u32_at b)) }
{
    let code = list.there().and_then(|list| {
        let e = list.entry(i)?;
        Some(e.long(0))
    });
    Tag {
        code: code.unwrap_or(0),
    }
}

// Where the offset of a record (tag, offset) of a counted table leads: to another counted table.
#[inline(always)]
pub(crate) fn record_led_to<'a, P: Part, Q: Part>(
    list: Standing<Counted<'a, P>>,
    i: u16,
) -> Standing<Counted<'a, Q>>
    ensures { spots result ≡ found (spots list.entry) Absent (λ b p. at_entry b P.LAYOUT p i Absent (λ e. placed b (led b Q.LAYOUT p (u16_at b (e + 4))))) }
{
    let Some(list) = list.there() else {
        return Standing::Absent;
    };
    let Some(e) = list.entry(i) else {
        return Standing::Absent;
    };
    list.follow(u32::from(e.short(4)))
}
