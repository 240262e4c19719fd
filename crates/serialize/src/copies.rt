// Whole objects copied from bytes.
ghost use Rattle.serialize.specs.Tables.{Sound};
ghost use Rattle.serialize.specs.Calls.{Copied, CopyAnswered};

use crate::faults::Fault;
use crate::tables::{Counts, Serializer};

impl Serializer {
    // Packs the bytes as an object without links, and answers its number. Refused, the counts are as before.
    pub fn copy_object(
        &mut self,
        work: &mut [u8],
        counts: &mut Counts,
        bytes: &[u8],
    ) -> Result<u16, Fault>
        ensures copied { Sound work.old self.old counts.old → Copied bytes.now work.old work.new self.old self.new counts.old counts.new result × CopyAnswered bytes.now work.old work.new self.old self.new counts.old counts.new result }
    {
        let token = self.push(counts)?;
        match self.embed_bytes(work, counts, bytes) {
            Ok(()) => self.pop_pack(work, counts, token),
            Err(fault) => {
                self.pop_discard(counts, token);
                Err(fault)
            }
        }
    }
}
