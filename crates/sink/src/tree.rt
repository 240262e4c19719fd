// The steps of packing a tree.
ghost use Rattle.std.specs.Result.{MatchResult};
ghost use Rattle.serialize.specs.Tables.{Sound};
ghost use Rattle.serialize.specs.Calls.{TakenBack};
ghost use Rattle.sink.specs.Steps.{Grown, Rooted};

use serialize::{Counts, Fault, Mark, Serializer, Width};

// Packs the bytes while another object is open, and discards that one: the sink is as before, whatever it answers.
pub(crate) fn pack_and_discard(
    tables: &mut Serializer,
    work: &mut [u8],
    counts: &mut Counts,
    bytes: &[u8],
) -> Result<u16, Fault>
    ensures { Sound work.old tables.old counts.old → TakenBack work.old work.new tables.old tables.new counts.old counts.new }
{
    let token = tables.push(counts)?;
    let packed = tables.copy_object(work, counts, bytes);
    tables.pop_discard(counts, token);
    packed
}

// Adds a record to the top object, a number and an offset, both or none.
pub(crate) fn add_record(
    tables: &mut Serializer,
    work: &mut [u8],
    counts: &mut Counts,
    value: u16,
    target: u16,
) -> Result<(), Fault>
    ensures { Sound work.old tables.old counts.old → MatchResult result (λ _. Grown work.old work.new tables.old tables.new counts.old counts.new) (λ _. TakenBack work.old work.new tables.old tables.new counts.old counts.new) }
{
    let saved = *counts;
    let mut mark = Mark {
        counts,
        saved,
        kept: false,
    };
    tables.embed(work, mark.counts, value)?;
    tables.add_offset(work, mark.counts, Width::Two, target)?;
    mark.kept = true;
    Ok(())
}

// Adds a record as above, and answers the refusal, if it is refused.
pub(crate) fn try_record(
    tables: &mut Serializer,
    work: &mut [u8],
    counts: &mut Counts,
    value: u16,
    target: u16,
) -> Option<Fault>
    ensures { Sound work.old tables.old counts.old → Grown work.old work.new tables.old tables.new counts.old counts.new }
{
    add_record(tables, work, counts, value, target).err()
}

// Adds a record for each kid to the top object, the second with four bytes for its offset, and tries one more between
// them. Answers that one's refusal.
pub(crate) fn fill_root(
    tables: &mut Serializer,
    work: &mut [u8],
    counts: &mut Counts,
    kids: [u16; 2],
    odd: u16,
) -> Result<Option<Fault>, Fault>
    ensures { Sound work.old tables.old counts.old → Grown work.old work.new tables.old tables.new counts.old counts.new }
{
    let [first, second] = kids;
    add_record(tables, work, counts, 1, first)?;
    let refused = try_record(tables, work, counts, 2, odd);
    tables.embed(work, counts, 3u16)?;
    tables.add_offset(work, counts, Width::Four, second)?;
    Ok(refused)
}

// Packs an object with records that lead to the kids. Answers its number, and the refusal.
pub(crate) fn pack_root(
    tables: &mut Serializer,
    work: &mut [u8],
    counts: &mut Counts,
    kids: [u16; 2],
    odd: u16,
) -> Result<(u16, Option<Fault>), Fault>
    ensures { Sound work.old tables.old counts.old → MatchResult result (λ _. Rooted work.old work.new tables.old tables.new counts.old counts.new) (λ _. TakenBack work.old work.new tables.old tables.new counts.old counts.new) }
{
    let token = tables.push(counts)?;
    match fill_root(tables, work, counts, kids, odd) {
        Ok(refused) => {
            let number = tables.pop_pack(work, counts, token)?;
            Ok((number, refused))
        }
        Err(fault) => {
            tables.pop_discard(counts, token);
            Err(fault)
        }
    }
}
