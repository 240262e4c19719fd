// Bytes of the open object.
ghost use Rattle.std.specs.Prelude.{◌≡◌};
ghost use Rattle.serialize.specs.Tables.{Sound};
ghost use Rattle.serialize.specs.Calls.{Embedded};

use crate::faults::Fault;
use crate::tables::{Counts, Serializer};

impl Serializer {
    // Adds bytes to the top object.
    pub fn embed_bytes(
        &self,
        work: &mut [u8],
        counts: &mut Counts,
        bytes: &[u8],
    ) -> Result<(), Fault>
        ensures embedded { Sound work.old self.now counts.old → Embedded bytes.now work.old work.new self.now counts.old counts.new result }
    {
        let (head, tail) = (counts.head as usize, counts.tail as usize);
        if tail > work.len() || tail < head || tail - head < bytes.len() {
            return Err(Fault::Work);
        }
        let end = head + bytes.len();
        work[head..end].copy_from_slice(bytes);
        counts.head = end as u32;
        Ok(())
    }
}
