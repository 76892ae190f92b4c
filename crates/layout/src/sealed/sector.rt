// Sealed sectors of numbers.
ghost use Rattle.std.specs.Prelude.{◌≡◌, ◌*◌, ◌^◌, ◌<◌, ◌≤◌, ◌↔◌, ℕ, List, length, IsTrue};
ghost use Rattle.layout.specs.Frame.{words_bytes};
ghost use Rattle.layout.specs.sealed.Sector.{AreWords, sector_bytes};

use crate::bytes::{are_zeros, blank};
use byteorder::{ByteOrder, LittleEndian};
use seal::{is_sealed, seal};

/// Where the seal of a sector begins.
pub const SEAL_AT: usize = 488;

// Fills `into` with the numbers in the bytes, 8 bytes for each.
fn read_numbers(bytes: &[u8], into: &mut [u64])
    requires { length bytes.now ≡ 8 * length into.old }
    ensures numbers { bytes.now ≡ words_bytes into.new }
    ensures fits { AreWords into.new }
    ensures size { length into.new ≡ length into.old }
{
    LittleEndian::read_u64_into(bytes, into);
}

/// Writes the 512 bytes of a sealed sector: at most 61 numbers, then zeros.
pub fn encode_sector(numbers: &[u64], into: &mut [u8])
    requires size { length into.old ≡ 512 }
    requires numbers { length numbers.now ≤ 61 }
    ensures { into.new ≡ sector_bytes numbers.now }
{
    blank(into);
    let end = 8 * numbers.len();
    LittleEndian::write_u64_into(numbers, &mut into[..end]);
    seal(into);
}

/// Reads the 512 bytes of a sealed sector into at most 61 numbers. Returns whether the sector is sealed and has only
/// zeros after these numbers.
pub fn decode_sector(bytes: &[u8], into: &mut [u64]) -> bool
    requires size { length bytes.now ≡ 512 }
    requires numbers { length into.old ≤ 61 }
    ensures found { IsTrue result → bytes.now ≡ sector_bytes into.new }
    ensures fits { AreWords into.new }
    ensures size { length into.new ≡ length into.old }
    ensures only { (ns : List ℕ) → length ns ≡ length into.old → AreWords ns →
        bytes.now ≡ sector_bytes ns → IsTrue result × (into.new ≡ ns) }
{
    let end = 8 * into.len();
    read_numbers(&bytes[..end], into);
    is_sealed(bytes) && are_zeros(&bytes[end..SEAL_AT])
}
