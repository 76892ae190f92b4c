// The sealed header of a checkpoint.
ghost use Rattle.std.specs.Prelude.{◌≡◌, length, IfSome, IfNone};
ghost use Rattle.layout.specs.declared.sealed.header.SealedHeader.{SealedHeader};
ghost use Rattle.layout.specs.sealed.Header.{sealed_header_bytes, sealed_header_from, header_numbers};
ghost use Rattle.layout.specs.sealed.Sector.{AreWords};

use crate::header::CheckpointHeader;
use crate::sealed::sector::{decode_sector, encode_sector};
use seal::Sums;

// The bytes of EROSHEAD as a number.
const HEADER_MAGIC: u64 = 0x4441_4548_534f_5245;

/// The header of a checkpoint, with the sums of the image and of its directory.
#[derive(Clone, Copy)]
pub struct SealedHeader {
    pub header: CheckpointHeader,
    /// The sums of all units: clusters and the header sectors of pages.
    pub root: Sums,
    /// The sums of the directory's sectors.
    pub directory: Sums,
}

/// Writes the 512 bytes of a header's sector.
pub fn encode_sealed_header(header: SealedHeader, into: &mut [u8])
    requires { length into.old ≡ 512 }
    ensures { into.new ≡ sealed_header_bytes header }
{
    let numbers = [
        HEADER_MAGIC,
        header.header.sequence,
        header.header.generation,
        header.header.entries,
        header.header.age,
        header.root.a,
        header.root.b,
        header.root.c,
        header.directory.a,
        header.directory.b,
        header.directory.c,
    ];
    encode_sector(&numbers, into);
}

// Returns the header that is encoded in 11 numbers.
fn sealed_header_from(numbers: &[u64]) -> SealedHeader
    requires { length numbers.now ≡ 11 }
    ensures { result ≡ sealed_header_from numbers.now }
{
    SealedHeader {
        header: CheckpointHeader {
            sequence: numbers[1],
            generation: numbers[2],
            entries: numbers[3],
            age: numbers[4],
        },
        root: Sums {
            a: numbers[5],
            b: numbers[6],
            c: numbers[7],
        },
        directory: Sums {
            a: numbers[8],
            b: numbers[9],
            c: numbers[10],
        },
    }
}

/// Reads the 512 bytes of a header's sector. Returns `None` if the sector is no sealed header: the magic or
/// the seal is wrong, or a byte that must be 0 isn't.
pub fn decode_sealed_header(bytes: &[u8]) -> Option<SealedHeader>
    requires { length bytes.now ≡ 512 }
    ensures some { IfSome result (λ h. bytes.now ≡ sealed_header_bytes h) }
    ensures none { IfNone result ((h : SealedHeader) → AreWords (header_numbers h) →
        bytes.now ≡ sealed_header_bytes h → ⊥) }
{
    let mut numbers = [0; 11];
    let is_sector = decode_sector(bytes, &mut numbers);
    if is_sector && numbers[0] == HEADER_MAGIC {
        Some(sealed_header_from(&numbers))
    } else {
        None
    }
}
