// The header of a checkpoint.
ghost use Rattle.std.specs.Prelude.{◌≡◌, ◌≤◌, ◌↔◌, length, IsTrue, IfOk, IfErr};
ghost use Rattle.layout.specs.declared.header.CheckpointHeader.{CheckpointHeader};
ghost use Rattle.layout.specs.Header.{header_bytes, IsHeader};

use crate::bad_image::BadImage;
use crate::bytes::{blank, is_blank_from, number_at, put_number};
use model::MAX_AGE;

// The bytes of EROSHEAD as a number.
const HEADER_MAGIC: u64 = 0x4441_4548_534f_5245;

/// The header of a checkpoint.
#[derive(Clone, Copy)]
pub struct CheckpointHeader {
    /// How many headers were written up to this one. If two headers are open, the one with
    /// the greater number is committed.
    pub sequence: u64,
    /// The number of the saved state: a commit raises it by 1, a journaled page by 2.
    pub generation: u64,
    /// How many objects have their frames in the log.
    pub entries: u64,
    /// The age of the saved state: the number of its invocations, checkpoints and journaled pages.
    pub age: u64,
}

/// Whether the fields of a header are within their limits, if the first header of an image has the number `first`, and
/// a log half has `room` slots.
pub fn is_header(first: u64, room: u64, header: CheckpointHeader) -> bool
    requires { first ≤ 2 }
    ensures { IsTrue result ↔ IsHeader first room header }
{
    if header.entries > room || header.age > MAX_AGE {
        return false;
    }
    let twice = 2 * header.age;
    let most = twice + first;
    let most = if header.entries == 0 { most + 1 } else { most };
    header.generation <= twice && header.sequence <= most
}

/// Writes the 512 bytes of a header's sector.
pub fn encode_header(header: CheckpointHeader, into: &mut [u8])
    requires { length into.old ≡ 512 }
    ensures { into.new ≡ header_bytes header }
{
    blank(into);
    put_number(into, 0, HEADER_MAGIC);
    put_number(into, 8, header.sequence);
    put_number(into, 16, header.generation);
    put_number(into, 24, header.entries);
    put_number(into, 32, header.age);
}

/// Reads the 512 bytes of a header's sector of versions 1 and 2, on a device whose log half has `room` slots. Returns
/// `BadHeader` if the bytes encode no header within the limits of such a device.
pub fn decode_header(bytes: &[u8], room: u64) -> Result<CheckpointHeader, BadImage>
    requires { length bytes.now ≡ 512 }
    ensures found { IfOk result (λ h. IsHeader 0 room h × (bytes.now ≡ header_bytes h)) }
    ensures refused { IfErr result (λ e. (e ≡ BadImage.BadHeader)
        × ((h : CheckpointHeader) → IsHeader 0 room h → bytes.now ≡ header_bytes h → ⊥)) }
{
    let magic = number_at(bytes, 0);
    let sequence = number_at(bytes, 8);
    let generation = number_at(bytes, 16);
    let entries = number_at(bytes, 24);
    let age = number_at(bytes, 32);
    let header = CheckpointHeader {
        sequence,
        generation,
        entries,
        age,
    };
    let is_blank = is_blank_from(bytes, 40);
    if magic == HEADER_MAGIC && is_blank && is_header(0, room, header) {
        Ok(header)
    } else {
        Err(BadImage::BadHeader)
    }
}
