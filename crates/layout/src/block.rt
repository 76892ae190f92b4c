// The frames in a block.
ghost use Rattle.std.specs.Prelude.{◌≡◌, ◌+◌, ◌*◌, ◌≤◌, length, take, drop, true, false};
ghost use Rattle.layout.specs.declared.shape.Shape.{Shape};
ghost use Rattle.layout.specs.Frame.{frame_bytes, frame_length, front_bytes};
ghost use Rattle.layout.specs.Shape.{AreBeside, IsBlankFrom, IsPageShape, IsShapeFor, shape_bytes, shape_end};
ghost use Rattle.layout.specs.sealed.Summed.{IfSummed};
ghost use Rattle.model.specs.Frame.{content_behind};

use crate::bytes::{blank, blank_from};
use crate::frame::encode_frame;
use crate::node_frame::NODE_FRAME_BYTES;
use crate::page_frame::PAGE_FRAME_BYTES;
use crate::sealed::seal_page;
use crate::shape::Shape;
use model::{Cap, ContentRef, Geometry, ObjectHeader};

/// The most bytes that a block takes.
pub const BLOCK_BYTES: usize = 4608;

/// Copies a node's frame from its place in a block into the 1024 bytes of `node`.
pub fn unpack_node(block: &[u8], shape: Shape, node: &mut [u8])
    requires block { shape_end shape ≤ length block.now }
    requires shape { shape.bytes ≤ 1024 }
    requires plain { shape.has_sums ≡ false }
    requires node { length node.old ≡ 1024 }
    ensures { node.new ≡ shape_bytes shape block.now }
{
    let at = shape.offset as usize;
    let size = shape.bytes as usize;
    node[..size].copy_from_slice(&block[at..at + size]);
    blank_from(node, size);
}

/// Copies a page's frame from its block into the 4608 bytes of `page`, without its sums and seal.
pub fn unpack_page(block: &[u8], shape: Shape, page: &mut [u8])
    requires block { length block.now ≡ 4608 }
    requires shape { IsPageShape shape }
    requires page { length page.old ≡ 4608 }
    ensures { page.new ≡ shape_bytes shape block.now }
{
    page.copy_from_slice(block);
    if shape.has_sums {
        blank(&mut page[32..512]);
    }
}

/// Copies the frame of this shape from one block to another. No other byte changes.
pub fn copy_frame(from: &[u8], shape: Shape, to: &mut [u8])
    requires from { shape_end shape ≤ length from.now }
    requires to { shape_end shape ≤ length to.old }
    ensures copied { shape_bytes shape to.new ≡ shape_bytes shape from.now }
    ensures others { (other : Shape) → AreBeside shape other
        → shape_bytes other to.new ≡ shape_bytes other to.old }
    ensures behind { drop (shape_end shape) to.new ≡ drop (shape_end shape) to.old }
    ensures size { length to.new ≡ length to.old }
{
    let at = shape.offset as usize;
    let end = at + shape.bytes as usize;
    to[at..end].copy_from_slice(&from[at..end]);
}

// Returns how many bytes the frame of an object takes.
fn frame_size(geometry: Geometry, number: u64) -> usize
    ensures { result ≡ 512 * frame_length geometry number }
{
    if number < geometry.nodes {
        NODE_FRAME_BYTES
    } else {
        PAGE_FRAME_BYTES
    }
}

/// Writes the frame of an object into a block, at the offset of its shape. The bytes before the frame stay.
/// If all bytes after it are zeros, they stay zeros; otherwise they may change.
pub fn put_frame(
    geometry: Geometry,
    number: u64,
    header: ObjectHeader,
    content: ContentRef<'_>,
    shape: Shape,
    block: &mut [u8],
)
    requires shape { IsShapeFor geometry number shape }
    requires block { length block.old ≡ 4608 }
    ensures put { shape_bytes shape block.new ≡ frame_bytes geometry number
        (record { header = header; content = content_behind content.entry }) }
    ensures before { take shape.offset block.new ≡ take shape.offset block.old }
    ensures behind { IsBlankFrom (shape_end shape) block.old → IsBlankFrom (shape_end shape) block.new }
    ensures size { length block.new ≡ 4608 }
{
    let at = shape.offset as usize;
    let size = frame_size(geometry, number);
    encode_frame(geometry, number, header, content, &mut block[at..at + size]);
}

/// Writes the sums of the words and a seal into the block of a page's frame with this header, if frames of this shape
/// have sums. Otherwise nothing changes.
pub fn put_sums(header: ObjectHeader, shape: Shape, block: &mut [u8])
    requires size { length block.old ≡ 4608 }
    requires page { shape.has_sums ≡ true → IsPageShape shape }
    requires front { shape.has_sums ≡ true → take 32 block.old ≡ front_bytes header }
    ensures frame { shape_bytes shape block.new ≡ shape_bytes shape block.old }
    ensures summed { IfSummed shape block.new }
    ensures plain { shape.has_sums ≡ false → block.new ≡ block.old }
{
    if shape.has_sums {
        seal_page(header, block);
    }
}
