// The sink on small examples.
use serialize::{Counts, Fault, Serializer, Width};
use std::test::Fail;

// Packs the same bytes twice, and lays what stands.
fn twins(out: &mut [u8]) -> Result<usize, Fault> {
    let mut work = [0u8; 64];
    let mut counts = Counts::new(&work);
    let mut sink = Serializer::new();
    let first = sink.copy_object(&mut work, &mut counts, b"ab")?;
    let second = sink.copy_object(&mut work, &mut counts, b"ab")?;
    if first != second {
        return Err(Fault::Limit);
    }
    sink.lay(&work, counts, out)
}

#[test]
fn equal_objects_stand_once(rt: HostRuntime) -> Result<(), Fail> {
    let mut out = [7u8; 4];
    assert_eq!(rt; twins(&mut out)?, 2);
    assert_eq!(rt; out, [97, 98, 7, 7]);
    Ok(())
}

#[test]
fn out_too_short(rt: HostRuntime) {
    let mut out = [7u8; 1];
    assert_eq!(rt; twins(&mut out), Err(Fault::Out));
}

// Packs a root of a number and an offset, and lays it before what the offset leads to.
fn linked(out: &mut [u8]) -> Result<usize, Fault> {
    let mut work = [0u8; 64];
    let mut counts = Counts::new(&work);
    let mut sink = Serializer::new();
    let leaf = sink.copy_object(&mut work, &mut counts, b"ab")?;
    let token = sink.push(&mut counts)?;
    if let Err(fault) = sink.embed(&mut work, &mut counts, 5u16) {
        sink.pop_discard(&mut counts, token);
        return Err(fault);
    }
    if let Err(fault) = sink.add_offset(&mut work, &mut counts, Width::Two, leaf) {
        sink.pop_discard(&mut counts, token);
        return Err(fault);
    }
    sink.pop_pack(&mut work, &mut counts, token)?;
    sink.lay(&work, counts, out)
}

#[test]
fn an_offset_counts_from_its_object(rt: HostRuntime) -> Result<(), Fail> {
    let mut out = [7u8; 8];
    assert_eq!(rt; linked(&mut out)?, 6);
    assert_eq!(rt; out, [0, 5, 0, 4, 97, 98, 7, 7]);
    Ok(())
}
