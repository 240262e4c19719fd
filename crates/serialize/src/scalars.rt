// Numbers as bytes, the highest byte first.
ghost use Rattle.std.specs.Prelude.{◌≡◌, ℕ, ◌/◌, ◌%◌, ◌≤◌, List, [], ◌∷◌, take};
ghost use Rattle.serialize.specs.Tables.{Sound};
ghost use Rattle.serialize.specs.Calls.{Embedded};

use crate::faults::Fault;
use crate::tables::{Counts, Serializer};

// A number that can be a field: its bytes are the first of four.
pub trait Scalar: Copy {
    ghost code: { Self → List ℕ };

    fn raw(self) -> ([u8; 4], usize)
        ensures raw { (result.1 ≤ 4) × (take result.1 result.0 ≡ code self) };
}

impl Scalar for u16 {
    ghost code = { λ n. (n / 256 % 256) ∷ (n % 256) ∷ [] };

    fn raw(self) -> ([u8; 4], usize) {
        let [a, b] = self.to_be_bytes();
        ([a, b, 0, 0], 2)
    }
}

impl Scalar for u32 {
    ghost code = { λ n. (n / 16777216 % 256) ∷ (n / 65536 % 256) ∷ (n / 256 % 256) ∷ (n % 256) ∷ [] };

    fn raw(self) -> ([u8; 4], usize) {
        (self.to_be_bytes(), 4)
    }
}

impl Serializer {
    // Adds a number to the top object.
    pub fn embed<S: Scalar>(
        &self,
        work: &mut [u8],
        counts: &mut Counts,
        value: S,
    ) -> Result<(), Fault>
        ensures embedded { Sound work.old self.now counts.old → Embedded (S.code value) work.old work.new self.now counts.old counts.new result }
    {
        let (raw, size) = value.raw();
        self.embed_bytes(work, counts, &raw[0..size])
    }
}
