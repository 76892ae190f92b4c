// The hasher of places of cache entries.
ghost use Rattle.std.specs.Prelude.{◌≡◌};
ghost use Rattle.cache_entries.specs.NumberHasher.{number_in};

use std::hash::Hasher;

// An odd number close to 2^64 divided by the golden ratio.
const MULTIPLIER: u64 = 0x9e37_79b9_7f4a_7c15;

/// Hashes 8 bytes, as one number, by a multiplication (Fibonacci hashing). Places are few and consecutive, so
/// this spreads them well. If there are not 8 bytes, it hashes only their count.
#[derive(Clone, Copy)]
pub struct NumberHasher {
    hash: u64,
}

impl Default for NumberHasher {
    ghost is_default = { λ h. h ≡ record { hash = 0 } };

    fn default() -> NumberHasher {
        NumberHasher { hash: 0 }
    }
}

impl Hasher for NumberHasher {
    ghost use Rattle.cache_entries.specs.NumberHasher.{hashed};

    ghost write = { hashed };

    ghost finish = { λ h. h.hash };

    fn finish(&self) -> u64 {
        self.hash
    }

    fn write(&mut self, bytes: &[u8]) {
        self.hash = (self.hash ^ number_of(bytes)).wrapping_mul(MULTIPLIER);
    }
}

// Returns the number that is hashed for these bytes.
fn number_of(bytes: &[u8]) -> u64
    ensures { result ≡ number_in bytes.now }
{
    match bytes {
        [a, b, c, d, e, f, g, h] => u64::from_le_bytes([*a, *b, *c, *d, *e, *f, *g, *h]),
        _ => bytes.len() as u64,
    }
}
