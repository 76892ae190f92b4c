// Finding which part of a frame is malformed.
ghost use Rattle.std.specs.Prelude.{◌≡◌, ◌↔◌, ℕ, ◌*◌, ◌<◌, ◌≤◌, length, IfErr, IfNone, IfOk, IfSome, IsTrue};
ghost use Rattle.image_explainer.specs.SectorFinding.{IsNoReason};
ghost use Rattle.layout.specs.Calls.{ReadsOnly};
ghost use Rattle.layout.specs.Denoted.{HasBadObject};
ghost use Rattle.layout.specs.Directory.{IsDirectory};
ghost use Rattle.layout.specs.Fault.{CountsOpen};
ghost use Rattle.layout.specs.Frame.{frame_length};
ghost use Rattle.layout.specs.Frames.{IsObject};
ghost use Rattle.layout.specs.Image.{frame_in};
ghost use Rattle.layout.specs.Shape.{IsShapeFor, shape_bytes};
ghost use Rattle.image_explainer.specs.SectorBreaking.{BreaksFrame, HoldsCap, IsBadSlot, IsWholeFrame};
ghost use Rattle.image_explainer.specs.SectorFinding.{BreaksSlots, IsFrameFault};

use crate::sectors::fault::{FramePart, SectorFault};
use crate::sectors::reading::number_at;
use device::{Device, SECTOR_SIZE};
use layout::{
    BLOCK_BYTES, CAPABILITY_BYTES, CheckpointHeader, Entry, NODE_FRAME_BYTES, OpenFault,
    PAGE_FRAME_BYTES, Scratch, Shape, Superblock, decode_capability, read_sectors, unpack_node,
    unpack_page,
};
use migrator::{frame_sector, read_saved};
use model::Geometry;

// The byte of a node's frame at which the first slot begins.
const SLOTS_AT: usize = 32;

// Returns the first slot of a node's frame whose bytes aren't those of a capability that an image may hold, or
// `None`.
fn find_slot(bytes: &[u8], geometry: Geometry, age: u64) -> Option<u64>
    requires { length bytes.now ≡ 1024 }
    ensures some { IfSome result (IsBadSlot geometry age bytes.now) }
    ensures none { IfNone result ((k : ℕ) → k < 32 → HoldsCap geometry age bytes.now k) }
{
    for k in 0..32 {
        let at = SLOTS_AT + CAPABILITY_BYTES * k;
        match decode_capability(&bytes[at..at + CAPABILITY_BYTES], geometry, age) {
            Ok(_) => {}
            Err(_) => return Some(k as u64),
        }
    }
    None
}

// Returns the malformed part of a node's frame after its header: the first bad slot, or else the
// body.
fn slots_part(bytes: &[u8], geometry: Geometry, age: u64) -> FramePart
    requires { length bytes.now ≡ 1024 }
    ensures { BreaksSlots geometry age bytes.now result }
{
    let Some(slot) = find_slot(bytes, geometry, age) else {
        return FramePart::Body;
    };
    let count = number_at(bytes, SLOTS_AT + 24 * slot as usize + 16);
    if count > age {
        FramePart::Count { slot, count, age }
    } else {
        FramePart::Slot(slot)
    }
}

// Returns the malformed part of a frame that an image may not hold. Its counts come first, then its
// slots.
fn frame_part(bytes: &[u8], geometry: Geometry, number: u64, age: u64) -> FramePart
    requires { length bytes.now ≡ 512 * frame_length geometry number }
    ensures { BreaksFrame geometry age number bytes.now result }
{
    let allocations = number_at(bytes, 8);
    let calls = number_at(bytes, 16);
    if allocations > age {
        FramePart::Allocations {
            count: allocations,
            age,
        }
    } else if calls > age {
        FramePart::Calls { count: calls, age }
    } else if number < geometry.nodes {
        slots_part(bytes, geometry, age)
    } else {
        FramePart::Body
    }
}

// Returns the malformed part of a frame in its block.
fn part_in(block: &[u8], shape: Shape, geometry: Geometry, number: u64, age: u64) -> FramePart
    requires shape { IsShapeFor geometry number shape }
    requires size { length block.now ≡ 512 * shape.sectors }
    requires object { IsObject geometry number }
    ensures { BreaksFrame geometry age number (shape_bytes shape block.now) result }
{
    if number < geometry.nodes {
        let mut node = [0; NODE_FRAME_BYTES];
        unpack_node(block, shape, &mut node);
        frame_part(&node, geometry, number, age)
    } else {
        let mut page = [0; PAGE_FRAME_BYTES];
        unpack_page(block, shape, &mut page);
        frame_part(&page, geometry, number, age)
    }
}

// Reads the saved frame of an object, and returns its malformed part.
fn read_part<D: Device>(
    device: &mut D,
    plan: &Superblock,
    header: CheckpointHeader,
    directory: &[Entry],
    number: u64,
) -> Result<FramePart, OpenFault>
    requires directory { IsDirectory plan.now.geometry directory.now }
    requires object { IsObject plan.now.geometry number }
    requires inside { plan.now.total ≤ (D.disk device.old).sectors }
    ensures found { IfOk result (BreaksFrame plan.now.geometry header.age number
        (frame_in (D.disk device.old).seen plan.now header.generation directory.now number)) }
    ensures refused { IfErr result IsNoReason }
    ensures reads { ReadsOnly (D.disk device.old) (D.disk device.new) }
    ensures cause { CountsOpen (D.disk device.old) (D.disk device.new) result }
{
    let at = frame_sector(plan, header.generation, directory, number);
    let shape = plan.shape(number);
    let sectors = shape.sectors as usize;
    let mut block = [0; BLOCK_BYTES];
    let run = &mut block[..SECTOR_SIZE * sectors];
    read_sectors(device, at, sectors, run)?;
    Ok(part_in(run, shape, plan.geometry(), number, header.age))
}

// Whether the saved frame of an object is one that the image may hold.
fn has_frame<D: Device>(
    device: &mut D,
    plan: &Superblock,
    header: CheckpointHeader,
    directory: &[Entry],
    number: u64,
    scratch: &mut Scratch,
) -> Result<bool, OpenFault>
    requires directory { IsDirectory plan.now.geometry directory.now }
    requires object { IsObject plan.now.geometry number }
    requires inside { plan.now.total ≤ (D.disk device.old).sectors }
    ensures found { IfOk result (λ whole. IsTrue whole
        ↔ IsWholeFrame (D.disk device.old).seen plan.now header directory.now number) }
    ensures refused { IfErr result IsNoReason }
    ensures reads { ReadsOnly (D.disk device.old) (D.disk device.new) }
    ensures cause { CountsOpen (D.disk device.old) (D.disk device.new) result }
{
    match read_saved(device, plan, header, directory, number, scratch) {
        Ok(_) => Ok(true),
        Err(OpenFault::Bad(_)) => Ok(false),
        Err(fault) => Err(fault),
    }
}

/// Returns what is wrong with the first malformed frame of an image that has one.
pub(crate) fn find_frame<D: Device>(
    device: &mut D,
    plan: &Superblock,
    header: CheckpointHeader,
    directory: &[Entry],
    scratch: &mut Scratch,
) -> Result<SectorFault, OpenFault>
    requires directory { IsDirectory plan.now.geometry directory.now }
    requires inside { plan.now.total ≤ (D.disk device.old).sectors }
    requires bad { HasBadObject (D.disk device.old).seen plan.now header directory.now }
    ensures found { IfOk result (IsFrameFault (D.disk device.old).seen plan.now header directory.now) }
    ensures refused { IfErr result IsNoReason }
    ensures reads { ReadsOnly (D.disk device.old) (D.disk device.new) }
    ensures cause { CountsOpen (D.disk device.old) (D.disk device.new) result }
{
    let geometry = plan.geometry();
    for number in 0..geometry.nodes + geometry.pages {
        let whole = has_frame(device, plan, header, directory, number, scratch)?;
        if !whole {
            let part = read_part(device, plan, header, directory, number)?;
            return Ok(SectorFault::Frame {
                number,
                is_page: number >= geometry.nodes,
                part,
            });
        }
    }
    unreachable!()
}
