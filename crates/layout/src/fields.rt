// Single fields, read from sectors that may be damaged.
ghost use Rattle.std.specs.Prelude.{◌≡◌, ◌≤◌, length};
ghost use Rattle.layout.specs.FrameReader.{header_from};
ghost use Rattle.layout.specs.Image.{total_in};
ghost use Rattle.layout.specs.Committed.{sequence_in};

use crate::bytes::number_at;
use crate::front::decode_front;
use model::ObjectHeader;

/// Returns how many sectors the image takes, from the sector of its superblock. No other byte is checked.
#[tactic(auto, using(crate::proofs::Numbers::number_reported))]
pub fn total_in(bytes: &[u8]) -> u64
    requires { 64 ≤ length bytes.now }
    ensures { result ≡ total_in bytes.now }
{
    number_at(bytes, 56)
}

/// Returns the sequence number in the sector of a header. No other byte is checked.
#[tactic(auto, using(crate::proofs::Numbers::number_reported))]
pub fn sequence_in(bytes: &[u8]) -> u64
    requires { 16 ≤ length bytes.now }
    ensures { result ≡ sequence_in bytes.now }
{
    number_at(bytes, 8)
}

/// Returns the header in the first 32 bytes of a frame. No other byte is checked.
pub fn header_in(bytes: &[u8]) -> ObjectHeader
    requires { 32 ≤ length bytes.now }
    ensures { result ≡ header_from bytes.now }
{
    let (_, header) = decode_front(bytes);
    header
}
