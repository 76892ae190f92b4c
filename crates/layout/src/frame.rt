// The frame of an object. Its number says whether it is a node's frame or a page's.
ghost use Rattle.std.specs.Prelude.{◌≡◌, ◌+◌, ◌*◌, ◌<◌, length, IfOk, IfErr};
ghost use Rattle.model.specs.declared.frame.Frame.{Frame};
ghost use Rattle.layout.specs.Frame.{frame_bytes, frame_length, frame_of, IsFrameOf};
ghost use Rattle.layout.specs.Shape.{IsShapeFor, shape_bytes};
ghost use Rattle.model.specs.Frame.{content_behind};

use crate::bad_image::BadImage;
use crate::block::{unpack_node, unpack_page};
use crate::body::{Body, Scratch};
use crate::node_frame::{NODE_FRAME_BYTES, decode_node_frame, encode_node_frame};
use crate::page_frame::{PAGE_FRAME_BYTES, decode_page_frame, encode_page_frame};
use crate::shape::Shape;
use model::{Cap, ContentRef, Geometry, ObjectHeader};

/// Reads the frame of an object: 1024 bytes for a node's number, 4608 for a page's. It puts the slots
/// of a node or an annex and the words of a page into `scratch`, and allocates nothing.
///
/// Returns `BadFrame` if the bytes encode no frame that an image of this age may hold at this number. Then `scratch`
/// may hold any slots and words.
pub fn decode_frame(
    bytes: &[u8],
    geometry: Geometry,
    number: u64,
    age: u64,
    scratch: &mut Scratch,
) -> Result<(ObjectHeader, Body), BadImage>
    requires size { length bytes.now ≡ 512 * frame_length geometry number }
    requires number { number < geometry.nodes + geometry.pages }
    ensures found { IfOk result (λ read.
        IsFrameOf geometry age number bytes.now (frame_of read scratch.new)) }
    ensures refused { IfErr result (λ e. (e ≡ BadImage.BadFrame)
        × ((f : Frame) → IsFrameOf geometry age number bytes.now f → ⊥)) }
{
    if number < geometry.nodes {
        decode_node_frame(bytes, geometry, age, scratch)
    } else {
        decode_page_frame(bytes, age, scratch)
    }
}

/// Reads the frame of an object from its block, as `decode_frame` does.
pub fn decode_in_block(
    block: &[u8],
    shape: Shape,
    geometry: Geometry,
    number: u64,
    age: u64,
    scratch: &mut Scratch,
) -> Result<(ObjectHeader, Body), BadImage>
    requires shape { IsShapeFor geometry number shape }
    requires size { length block.now ≡ 512 * shape.sectors }
    requires number { number < geometry.nodes + geometry.pages }
    ensures found { IfOk result (λ read. IsFrameOf geometry age number
        (shape_bytes shape block.now) (frame_of read scratch.new)) }
    ensures refused { IfErr result (λ e. (e ≡ BadImage.BadFrame)
        × ((f : Frame) → IsFrameOf geometry age number (shape_bytes shape block.now) f → ⊥)) }
{
    if number < geometry.nodes {
        let mut node = [0; NODE_FRAME_BYTES];
        unpack_node(block, shape, &mut node);
        decode_frame(&node, geometry, number, age, scratch)
    } else if shape.has_sums {
        let mut page = [0; PAGE_FRAME_BYTES];
        unpack_page(block, shape, &mut page);
        decode_frame(&page, geometry, number, age, scratch)
    } else {
        decode_frame(block, geometry, number, age, scratch)
    }
}

/// Writes the frame of an object: 1024 bytes for a node's number, 4608 for a page's.
///
/// Content that no image may hold at the number is lost: instead of a page at a node's number, void slots are
/// written; instead of anything but a page at a page's number, words of 0.
pub fn encode_frame(
    geometry: Geometry,
    number: u64,
    header: ObjectHeader,
    content: ContentRef<'_>,
    into: &mut [u8],
)
    requires { length into.old ≡ 512 * frame_length geometry number }
    ensures { into.new ≡ frame_bytes geometry number
        (record { header = header; content = content_behind content.entry }) }
{
    if number < geometry.nodes {
        encode_node_frame(header, content, into);
    } else {
        encode_page_frame(header, content, into);
    }
}
