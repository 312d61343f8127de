// The hash that picks a file: one of 53 for an address, one of 256 for a subject.
ghost use Rattle.std.specs.Prelude.{◌≡◌, ◌*◌, ◌%◌, ◌^◌, bit_xor};
ghost use Rattle.ml_base.specs.Bytes.{lower};
ghost use Rattle.ml_base.specs.Hash.{hash_of};

// The hash of no bytes.
const FIRST: u32 = 5381;

/// The hash of a text, Bernstein's with exclusive or: it starts at 5381, and each byte is joined to 33 times the hash before it.
/// It takes no memory.
pub fn hash(text: &[u8]) -> u32
    ensures { result ≡ hash_of text.now }
{
    let mut h = FIRST;
    for byte in text {
        h = hash_with(h, *byte);
    }
    h
}

/// The hash of a text in lower case. It takes no memory.
pub fn hash_lower(text: &[u8]) -> u32
    ensures { result ≡ hash_of (lower text.now) }
{
    let mut h = FIRST;
    for byte in text {
        h = hash_with(h, byte.to_ascii_lowercase());
    }
    h
}

// The hash after one more byte.
fn hash_with(h: u32, byte: u8) -> u32
    ensures { result ≡ bit_xor ((h * 33) % 2 ^ 32) byte }
{
    h.wrapping_mul(33) ^ byte as u32
}
