// Shows an object sink at work: objects packed and shared, one discarded, a record refused, and all of it laid.
#![tactic(auto)]

mod halt;
mod hex;
#[cfg(test)]
mod tests;
mod tree;

use halt::Halt;
use hex::Hex;
use serialize::{Counts, Piece, Serializer};
use std::process::ExitCode;
use tree::{pack_and_discard, pack_root};

fn main(rt: HostRuntime) -> ExitCode {
    match show(&rt) {
        Ok(()) => ExitCode::SUCCESS,
        Err(halt) => {
            let _ = eprintln!(rt; "sink: {halt}");
            ExitCode::FAILURE
        }
    }
}

// Packs the tree, and shows each step, the objects and the laid bytes.
fn show(rt: &HostRuntime) -> Result<(), Halt> {
    let mut work = [0; 64];
    let mut counts = Counts::new(&work);
    let mut tables = Serializer::new();
    let cafe = tables.copy_object(&mut work, &mut counts, &[0xca, 0xfe])?;
    let three = tables.copy_object(&mut work, &mut counts, &[1, 2, 3])?;
    let again = tables.copy_object(&mut work, &mut counts, &[0xca, 0xfe])?;
    println!(rt; "packed ca fe as object {cafe}, 01 02 03 as object {three}")?;
    let how = if again == cafe {
        "shared"
    } else {
        "not shared"
    };
    println!(rt; "packed ca fe again as object {again}: {how}")?;
    let gone = pack_and_discard(&mut tables, &mut work, &mut counts, &[0xde, 0xad])?;
    println!(rt; "packed de ad as object {gone} in an object that was discarded: both are gone")?;
    let (root, refused) = pack_root(&mut tables, &mut work, &mut counts, [cafe, three], 9)?;
    match refused {
        Some(fault) => {
            let number = fault.number();
            println!(rt; "refused a record that leads to object 9, by {number}")?
        }
        None => println!(rt; "took a record that leads to object 9")?,
    }
    println!(rt; "packed the root as object {root}")?;
    let objects = show_objects(rt, &tables, &work, counts)?;
    show_laid(rt, &tables, &work, counts, objects)
}

// Each packed object, with its bytes and its links. Answers how many there are.
fn show_objects<'a>(
    rt: &HostRuntime,
    tables: &'a Serializer,
    work: &'a [u8],
    counts: Counts,
) -> Result<u16, Halt> {
    println!(rt; "\nobjects")?;
    for number in 0..2048 {
        match tables.piece(work, counts, number) {
            Some(piece) => show_object(rt, piece, number)?,
            None => return Ok(number),
        }
    }
    Ok(2048)
}

// An object's bytes, and its links on lines below.
fn show_object(rt: &HostRuntime, piece: Piece<'_>, number: u16) -> Result<(), Halt> {
    let bytes = Hex(piece.bytes);
    println!(rt; "  {number}: {bytes}")?;
    for link in piece.links {
        let (position, target) = (link.position, link.target);
        let size = link.width.size();
        println!(rt; "     at {position} a link of {size} bytes to object {target}")?;
    }
    Ok(())
}

// The laid bytes, by the objects that they come from, the newest first.
fn show_laid<'a>(
    rt: &HostRuntime,
    tables: &'a Serializer,
    work: &'a [u8],
    counts: Counts,
    objects: u16,
) -> Result<(), Halt> {
    let mut out = [0; 64];
    let size = tables.lay(work, counts, &mut out)?;
    println!(rt; "\nlaid in {size} bytes")?;
    for number in (0..objects).rev() {
        if let Some(piece) = tables.piece(work, counts, number) {
            show_part(rt, &out, piece, number)?;
        }
    }
    Ok(())
}

// The part of the laid bytes that an object has.
fn show_part(rt: &HostRuntime, out: &[u8], piece: Piece<'_>, number: u16) -> Result<(), Halt> {
    let place = piece.place;
    let end = place.saturating_add(piece.bytes.len());
    if end <= out.len() {
        let bytes = Hex(&out[place..end]);
        println!(rt; "  {place:>2}: {bytes} (object {number})")?;
    }
    Ok(())
}
