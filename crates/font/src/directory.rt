ghost use Rattle.std.specs.Prelude.{◌≡◌, ◌+◌, ◌*◌, ◌≤◌, length, IfSome};
ghost use Rattle.font.specs.Numbers.{long_at};
ghost use Rattle.font.specs.Directory.{opening_of, offset_like, may_be_layout, records_of, first_from};

use crate::reads::{u16_at, u32_at};

// What the first four bytes of a file say.
#[derive(Clone, Copy, PartialEq, Eq, Debug)]
pub enum Opening {
    Font,
    FontOrLayout,
    Collection,
    Compressed,
    Other,
}

pub(crate) fn read_opening(file: &[u8]) -> Opening
    ensures { result ≡ opening_of file.now }
{
    match u32_at(file, 0) {
        Some(0x4F54544F | 0x74727565) => Opening::Font,
        Some(0x00010000) => Opening::FontOrLayout,
        Some(0x74746366) => Opening::Collection,
        Some(0x774F4646 | 0x774F4632) => Opening::Compressed,
        _ => Opening::Other,
    }
}

// Whether a number may be an offset past the ten bytes of a layout table's header.
fn past_header(number: u16) -> bool
    ensures { result ≡ offset_like number }
{
    number == 0 || number >= 10
}

// Whether the bytes after the first four may be those of a layout table's header.
pub(crate) fn layout_like(file: &[u8]) -> bool
    ensures { result ≡ may_be_layout file.now }
{
    file.len() < 12
        || u16_at(file, 4).is_some_and(past_header)
            && u16_at(file, 6).is_some_and(past_header)
            && u16_at(file, 8).is_some_and(past_header)
}

// The number of records, where the directory lies within the file.
pub(crate) fn records(file: &[u8]) -> Option<usize>
    ensures { result ≡ records_of file.now }
{
    let number = usize::from(u16_at(file, 4)?);
    (12 + 16 * number <= file.len()).then_some(number)
}

// The tag of a record that lies in the file. Read by `u32_at`, which tests for each record that it is there, a long
// directory took half as long again.
fn tag_at(file: &[u8], at: usize) -> u32
    requires { at + 4 ≤ length file.now }
    ensures { result ≡ long_at file.now at }
{
    u32::from_be_bytes([file[at], file[at + 1], file[at + 2], file[at + 3]])
}

// The place of the first record with a tag, among the records of a directory.
pub(crate) fn find_record(file: &[u8], number: usize, tag: u32) -> Option<usize>
    requires { 12 + 16 * number ≤ length file.now }
    ensures value { result ≡ first_from file.now tag 0 number }
    ensures within { IfSome result (λ at. at + 16 ≤ length file.now) }
{
    // By number, since what is answered is the record's place in the file.
    for i in 0..number {
        let at = 12 + 16 * i;
        if tag_at(file, at) == tag {
            return Some(at);
        }
    }
    None
}
