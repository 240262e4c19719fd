// Bytes of the open object written over.
ghost use Rattle.std.specs.Prelude.{◌≡◌, ◌<◌, IsErrOf};
ghost use Rattle.serialize.specs.Tables.{Sound};
ghost use Rattle.serialize.specs.Calls.{Assigned};

use crate::faults::Fault;
use crate::scalars::Scalar;
use crate::tables::{Counts, Serializer};

impl Serializer {
    // Writes over the bytes of the top object from a position on. They have to be there.
    pub(crate) fn copy_assign_from_bytes(
        &self,
        work: &mut [u8],
        counts: Counts,
        position: u32,
        bytes: &[u8],
    ) -> Result<(), Fault>
        ensures assigned { Sound work.old self.now counts → 0 < counts.depth → Assigned position bytes.now work.old work.new self.now counts result }
        ensures unopened { Sound work.old self.now counts → counts.depth ≡ 0 → IsErrOf result Fault.Work × (work.new ≡ work.old) }
    {
        let Some(top) = self.top_size(counts) else {
            return Err(Fault::Work);
        };
        let (size, at, head) = (top as usize, position as usize, counts.head as usize);
        if head > work.len() || size < at || size - at < bytes.len() {
            return Err(Fault::Work);
        }
        let start = head - size + at;
        let end = start + bytes.len();
        work[start..end].copy_from_slice(bytes);
        Ok(())
    }

    // Writes a number over the bytes of the top object at a position.
    pub fn copy_assign<S: Scalar>(
        &self,
        work: &mut [u8],
        counts: Counts,
        position: u32,
        value: S,
    ) -> Result<(), Fault>
        ensures assigned { Sound work.old self.now counts → 0 < counts.depth → Assigned position (S.code value) work.old work.new self.now counts result }
        ensures unopened { Sound work.old self.now counts → counts.depth ≡ 0 → IsErrOf result Fault.Work × (work.new ≡ work.old) }
    {
        let (raw, size) = value.raw();
        self.copy_assign_from_bytes(work, counts, position, &raw[0..size])
    }
}
