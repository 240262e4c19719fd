// Numbers in a run of bytes, the highest byte first.
ghost use Rattle.std.specs.Prelude.{◌≡◌, ◌+◌, ◌<◌, ◌≤◌, length, take, drop, MatchOption};
ghost use Rattle.font.specs.Numbers.{short_in, long_in};

// As many bytes as the array has, from a place on.
pub fn bytes_at<const N: usize>(bytes: &[u8], at: usize) -> Option<[u8; N]>
    ensures { MatchOption result (length bytes.now < at + N) (λ part. (at + N ≤ length bytes.now) × (part ≡ take N (drop at bytes.now))) }
{
    bytes.get(at..)?.first_chunk().copied()
}

// The 16-bit number at a place. One function for both sizes would need a trait over `from_be_bytes`, and is no plainer.
pub fn u16_at(bytes: &[u8], at: usize) -> Option<u16>
    ensures { result ≡ short_in bytes.now at }
{
    bytes_at(bytes, at).map(u16::from_be_bytes)
}

// The 32-bit number at a place.
pub fn u32_at(bytes: &[u8], at: usize) -> Option<u32>
    ensures { result ≡ long_in bytes.now at }
{
    bytes_at(bytes, at).map(u32::from_be_bytes)
}
