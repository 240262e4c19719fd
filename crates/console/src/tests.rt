use crate::arguments::{Command, read_command};
use crate::page::Page;
use crate::text::{CodePoint, Fixed};
use keys::Tag;
use std::test::Fail;

#[test]
fn texts(rt: HostRuntime) -> Result<(), Fail> {
    let heap = rt.alloc();
    let (tag, number) = (Tag { code: 0x4C415420 }, Tag { code: 0x00010AFF });
    assert!(rt; format!(in heap; "{tag}|{number}")?.as_str() == "LAT |0x00010AFF");
    let (low, high) = (Fixed(0xC000), Fixed(0x1333));
    assert!(rt; format!(in heap; "{low}|{high}")?.as_str() == "-1.0000|0.3000");
    let (a, smile) = (CodePoint(0x61), CodePoint(0x1F600));
    assert!(rt; format!(in heap; "{a}|{smile}")?.as_str() == "U+0061|U+1F600");
    Ok(())
}

#[test]
fn pages(rt: HostRuntime) -> Result<(), Fail> {
    let mut page = Page::new(rt.alloc());
    let count = 3;
    write!(page, "{count} things:")?;
    page.item(0, "one")?;
    page.item(1, 2)?;
    page.end()?;
    writeln!(page, "end")?;
    assert!(rt; page.as_str() == "3 things: one, 2\nend\n");
    Ok(())
}

#[test]
fn no_words(rt: HostRuntime) {
    let words: Vec<String> = Vec::new(rt.alloc());
    assert!(rt; matches!(read_command(words.as_slice()), Ok(Command::Builtin)));
}
