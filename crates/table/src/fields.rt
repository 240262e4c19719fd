ghost use Rattle.std.specs.Prelude.{◌≡◌, ◌+◌, ◌^◌, ◌<◌, slice_index};
ghost use Rattle.table.specs.Format.{u16_at, u32_at};

// The byte at a place, 0 past the end.
pub(crate) fn byte_at(bytes: &[u8], at: usize) -> u8
    ensures { result ≡ slice_index bytes.now at }
{
    bytes.get(at).copied().unwrap_or(0)
}

// The 16-bit number at a place.
pub(crate) fn u16_at(bytes: &[u8], at: usize) -> u16
    requires { at + 2 < 2 ^ 64 }
    ensures { result ≡ u16_at bytes.now at }
{
    u16::from_be_bytes([byte_at(bytes, at), byte_at(bytes, at + 1)])
}

// The 32-bit number at a place. One function for both sizes would need a trait over `from_be_bytes`, and is no plainer.
pub(crate) fn u32_at(bytes: &[u8], at: usize) -> u32
    requires { at + 4 < 2 ^ 64 }
    ensures { result ≡ u32_at bytes.now at }
{
    let [a, b] = u16_at(bytes, at).to_be_bytes();
    let [c, d] = u16_at(bytes, at + 2).to_be_bytes();
    u32::from_be_bytes([a, b, c, d])
}
