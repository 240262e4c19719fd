// What a file has under a tag.
ghost use Rattle.std.specs.Prelude.{◌≡◌, ◌+◌, ◌≤◌, length};
ghost use Rattle.font.specs.Tables.{meaning, answer_by, part_by, table_of, by_directory, by_record};

use crate::directory::{Opening, find_record, layout_like, read_opening, records};
use crate::reads::u32_at;
use keys::Tag;

// The bytes of a table: a part of a font file, or the whole of a file that is no font.
#[derive(Clone, Copy, PartialEq, Eq, Debug)]
pub enum Part<'a> {
    InFont(&'a [u8]),
    Bare(&'a [u8]),
}

// Why a font file gives no table.
#[derive(Clone, Copy, PartialEq, Eq, Debug)]
pub enum FontFault {
    // Several fonts in one file.
    Collection,
    // A compressed font.
    Compressed,
    // The directory passes the file's end.
    ShortDirectory,
    NoTable,
    // The table passes the file's end.
    PastEnd,
}

// The table of a tag in a file.
pub fn find_table(file: &[u8], tag: Tag) -> Result<Part<'_>, FontFault>
    ensures found { answer_by (meaning result) ≡ table_of file.now tag.code }
    ensures part { meaning result ≡ part_by file.now (table_of file.now tag.code) }
{
    match read_opening(file) {
        Opening::Font => in_directory(file, tag.code),
        Opening::FontOrLayout => match in_directory(file, tag.code) {
            Err(FontFault::ShortDirectory | FontFault::NoTable) if layout_like(file) => {
                Ok(Part::Bare(file))
            }
            found => found,
        },
        Opening::Collection => Err(FontFault::Collection),
        Opening::Compressed => Err(FontFault::Compressed),
        Opening::Other => Ok(Part::Bare(file)),
    }
}

fn in_directory(file: &[u8], tag: u32) -> Result<Part<'_>, FontFault>
    ensures { meaning result ≡ part_by file.now (by_directory file.now tag) }
{
    let number = records(file).ok_or(FontFault::ShortDirectory)?;
    let at = find_record(file, number, tag).ok_or(FontFault::NoTable)?;
    in_record(file, at)
}

// The bytes that the record at a place leads to.
fn in_record(file: &[u8], at: usize) -> Result<Part<'_>, FontFault>
    requires { at + 16 ≤ length file.now }
    ensures { meaning result ≡ part_by file.now (by_record file.now at) }
{
    let start = u32_at(file, at + 8).ok_or(FontFault::PastEnd)? as usize;
    let end = start + u32_at(file, at + 12).ok_or(FontFault::PastEnd)? as usize;
    let bytes = file.get(start..end).ok_or(FontFault::PastEnd)?;
    Ok(Part::InFont(bytes))
}
