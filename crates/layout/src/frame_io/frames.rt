// The frame of an object at a sector of any device.
ghost use Rattle.std.specs.Prelude.{◌≡◌, ◌+◌, ◌*◌, ◌<◌, ◌≤◌, length, IfOk, IfErr, OnOk};
ghost use Rattle.model.specs.declared.object.Content.TheVariants as content;
ghost use Rattle.device.specs.Calls.{Counts};
ghost use Rattle.layout.specs.Frame.{IsFrameOf, frame_bytes, frame_of, page_frame_bytes};
ghost use Rattle.layout.specs.Image.{sectors_from, shaped_at};
ghost use Rattle.layout.specs.Shape.{HasZerosBeside, IsPageShape, IsShapeFor, shape_end, shape_length};
ghost use Rattle.layout.specs.Calls.{ReadsOnly, WritesAt};
ghost use Rattle.layout.specs.Fault.{CountsOpen};
ghost use Rattle.layout.specs.Frames.{IsHeaderAt, IsObject, IsRefused};
ghost use Rattle.layout.specs.sealed.Summed.{IfSummed};
ghost use Rattle.model.specs.Frame.{content_behind};

use crate::frame_io::sectors::{read_sectors, write_sectors};
use crate::open_fault::OpenFault;
use crate::{
    BLOCK_BYTES, Body, PAGE_FRAME_BYTES, Scratch, Shape, decode_in_block, encode_page, header_in,
    put_frame, put_sums,
};
use device::{Device, Failed, SECTOR_SIZE};
use model::{Cap, ContentRef, Geometry, ObjectHeader};

/// Reads the frame of an object of this shape from the sectors from `at` on. It puts the slots of a
/// node or an annex and the words of a page into `scratch`, and allocates nothing.
///
/// Returns `Failed` exactly if the device failed. Returns `BadFrame` exactly if the sectors encode no frame that an
/// image of this age may hold. After either, `scratch` may hold any slots and words.
pub fn read_frame<D: Device>(
    device: &mut D,
    at: u64,
    shape: Shape,
    geometry: Geometry,
    number: u64,
    age: u64,
    scratch: &mut Scratch,
) -> Result<(ObjectHeader, Body), OpenFault>
    requires object { IsObject geometry number }
    requires shape { IsShapeFor geometry number shape }
    requires inside { at + shape_length shape ≤ (D.disk device.old).sectors }
    ensures found { IfOk result (λ read. IsFrameOf geometry age number
        (shaped_at (D.disk device.new).seen at shape) (frame_of read scratch.new)) }
    ensures refused { IfErr result (λ e. IsRefused geometry age number
        (shaped_at (D.disk device.new).seen at shape) e) }
    ensures reads { ReadsOnly (D.disk device.old) (D.disk device.new) }
    ensures cause { CountsOpen (D.disk device.old) (D.disk device.new) result }
{
    let mut block = [0; BLOCK_BYTES];
    let run = &mut block[..SECTOR_SIZE * shape.sectors as usize];
    read_sectors(device, at, shape.sectors as usize, run)?;
    let read = decode_in_block(run, shape, geometry, number, age, scratch)?;
    Ok(read)
}

/// Returns the header of the frame of this shape in the sectors from `at` on. It checks no other byte, and allocates
/// nothing.
///
/// Returns `Failed` exactly if the device failed.
pub fn read_header<D: Device>(device: &mut D, at: u64, shape: Shape) -> Result<ObjectHeader, Failed>
    requires shape { shape_end shape ≤ 512 * shape.sectors }
    requires few { shape.sectors ≤ 9 }
    requires least { 800 ≤ shape.bytes }
    requires inside { at + shape_length shape ≤ (D.disk device.old).sectors }
    ensures found { IfOk result (λ header. IsHeaderAt (D.disk device.new).seen at shape header) }
    ensures reads { ReadsOnly (D.disk device.old) (D.disk device.new) }
    ensures cause { Counts (D.disk device.old) (D.disk device.new) result }
{
    let mut block = [0; BLOCK_BYTES];
    let run = &mut block[..SECTOR_SIZE * shape.sectors as usize];
    read_sectors(device, at, shape.sectors as usize, run)?;
    Ok(header_in(&run[shape.offset as usize..]))
}

/// Writes the frame of a page with these words into the 9 sectors from `at` on, with sums if its shape has them. It
/// allocates nothing. All other sectors keep their bytes, and what a crash may leave in them doesn't change.
///
/// Returns `Failed` exactly if the device failed; then the 9 sectors may hold any bytes.
pub fn write_page<D: Device>(
    device: &mut D,
    at: u64,
    shape: Shape,
    header: ObjectHeader,
    words: &[u64],
) -> Result<(), Failed>
    requires shape { IsPageShape shape }
    requires words { length words.now ≡ 512 }
    requires inside { at + 9 ≤ (D.disk device.old).sectors }
    ensures written { OnOk result (shaped_at (D.disk device.new).seen at shape
        ≡ page_frame_bytes (record { header = header; content = content.Page words.now })) }
    ensures summed { OnOk result (IfSummed shape (sectors_from (D.disk device.new).seen at (shape_length shape))) }
    ensures writes { WritesAt at 9 (D.disk device.old) (D.disk device.new) }
    ensures cause { Counts (D.disk device.old) (D.disk device.new) result }
{
    let mut bytes = [0; PAGE_FRAME_BYTES];
    encode_page(header, words, &mut bytes);
    put_sums(header, shape, &mut bytes);
    write_sectors(device, at, 9, &bytes)
}

/// Writes the frame of an object of this shape into the sectors from `at` on, with sums if its shape has them. It
/// allocates nothing. All other bytes of its block become 0. All other sectors keep their bytes, and what a crash may
/// leave in them doesn't change.
///
/// Returns `Failed` exactly if the device failed; then the sectors of the shape may hold any bytes.
pub fn write_frame<D: Device>(
    device: &mut D,
    at: u64,
    shape: Shape,
    geometry: Geometry,
    number: u64,
    header: ObjectHeader,
    content: ContentRef<'_>,
) -> Result<(), Failed>
    requires shape { IsShapeFor geometry number shape }
    requires inside { at + shape_length shape ≤ (D.disk device.old).sectors }
    ensures written { OnOk result (shaped_at (D.disk device.new).seen at shape
        ≡ frame_bytes geometry number (record { header = header; content = content_behind content.entry })) }
    ensures beside { OnOk result (HasZerosBeside shape
        (sectors_from (D.disk device.new).seen at (shape_length shape))) }
    ensures summed { OnOk result (IfSummed shape (sectors_from (D.disk device.new).seen at (shape_length shape))) }
    ensures writes { WritesAt at (shape_length shape) (D.disk device.old) (D.disk device.new) }
    ensures cause { Counts (D.disk device.old) (D.disk device.new) result }
{
    let mut block = [0; BLOCK_BYTES];
    put_frame(geometry, number, header, content, shape, &mut block);
    put_sums(header, shape, &mut block);
    let end = SECTOR_SIZE * shape.sectors as usize;
    write_sectors(device, at, shape.sectors as usize, &block[..end])
}
