// The number by which unequal objects are passed over.
ghost use Rattle.std.specs.Prelude.{◌≡◌, ◌+◌, ◌*◌, ◌%◌, ◌<◌, length, fold};

use crate::tables::Link;

// A number of bytes and of how many links go with them, equal for equal ones.
pub(crate) fn hash(bytes: &[u8], links: &[Link]) -> u16
    requires { length links.now < 65536 }
    ensures hashed { result ≡ fold (λ h b. (h * 31 + b) % 65536) (length links.now) bytes.now }
{
    bytes.iter().fold(links.len() as u16, |h, b| {
        ((h as u32 * 31 + *b as u32) % 65536) as u16
    })
}
