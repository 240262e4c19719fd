use crate::indices::read_indices;
use crate::lists::Unread;
use crate::tags::read_tags;
use keys::Tag;
use std::test::Fail;

#[test]
fn lists_of_indices(rt: HostRuntime) -> Result<(), Fail> {
    let heap = rt.alloc();
    let set = read_indices(heap, "9,0-2,1")?;
    assert!(rt; set.as_slice() == [0, 1, 2, 9].as_slice());
    assert!(rt; matches!(read_indices(heap, "1,,2"), Err(Unread::WrongPart)));
    assert!(rt; matches!(read_indices(heap, "4-2"), Err(Unread::WrongPart)));
    Ok(())
}

#[test]
fn lists_of_tags(rt: HostRuntime) -> Result<(), Fail> {
    let heap = rt.alloc();
    let set = read_tags(heap, "latn,DFLT,latn")?;
    assert!(rt; set.as_slice() == [Tag::new(*b"DFLT"), Tag::new(*b"latn")].as_slice());
    assert!(rt; matches!(read_tags(heap, "latin"), Err(Unread::WrongPart)));
    Ok(())
}
