use crate::reads::{bytes_at, u16_at, u32_at};
use crate::tables::{FontFault, Part, find_table};
use keys::Tag;

const GSUB: Tag = Tag { code: 0x47535542 };

// A font of two records, GPOS and GSUB, the second of which leads to the two bytes 7 and 8.
const FONT: [u8; 46] =
    *b"OTTO\x00\x02\x00\x20\x00\x01\x00\x00GPOS\x00\x00\x00\x00\x00\x00\x00\x00\x00\x00\x00\x00GSUB\x00\x00\x00\x00\x00\x00\x00\x2C\x00\x00\x00\x02\x07\x08";

#[test]
fn a_table_is_found(rt: HostRuntime) {
    let table = b"\x07\x08".as_slice();
    assert_eq!(rt; find_table(&FONT, GSUB), Ok(Part::InFont(table)));
}

#[test]
fn cases(rt: HostRuntime) {
    assert_eq!(rt; find_table(&FONT[0..45], GSUB), Err(FontFault::PastEnd));
    assert_eq!(rt;
        find_table(&FONT[0..43], GSUB),
        Err(FontFault::ShortDirectory)
    );
    assert_eq!(rt; find_table(&FONT, Tag { code: 1 }), Err(FontFault::NoTable));
    assert_eq!(rt; find_table(b"ttcf", GSUB), Err(FontFault::Collection));
    assert_eq!(rt; find_table(b"wOF2", GSUB), Err(FontFault::Compressed));
    let layout = b"\x00\x01\x00\x00\x00\x0A\x00\x1E\x00\x2C".as_slice();
    assert_eq!(rt; find_table(layout, GSUB), Ok(Part::Bare(layout)));
}

#[test]
fn numbers(rt: HostRuntime) {
    assert_eq!(rt; u16_at(&FONT, 4), Some(2));
    assert_eq!(rt; u32_at(&FONT, 36), Some(0x2C));
    assert_eq!(rt; bytes_at(&FONT, 44), Some([7u8, 8]));
    assert_eq!(rt; u16_at(&FONT, 45), None);
    assert_eq!(rt; u32_at(&FONT, usize::MAX), None);
}
