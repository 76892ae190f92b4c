// Reads the superblock and frames of a device.
ghost use Rattle.std.specs.Prelude.{◌≡◌, ◌<◌, ◌≤◌, IfOk, IfErr};
ghost use Rattle.layout.specs.Directory.{IsDirectory};
ghost use Rattle.layout.specs.Frame.{IsFrameOf, frame_of};
ghost use Rattle.layout.specs.Image.{frame_in};
ghost use Rattle.layout.specs.Denoted.{HasPlan};
ghost use Rattle.layout.specs.Calls.{ReadsOnly};
ghost use Rattle.layout.specs.Fault.{CountsOpen};
ghost use Rattle.layout.specs.Frames.{IsObject, IsRefused};
ghost use Rattle.device.specs.Calls.{Counts};
ghost use Rattle.layout.specs.Spelt.{IsSpelt, frame_read};
ghost use Rattle.migrator.specs.Opened.{IsUnplanned};
ghost use Rattle.migrator.specs.Put.{slot_bytes, slot_frame};
ghost use Rattle.checkpoint.specs.Saved.{most};

use crate::find::find_frame_slot;
use ckpt_log::Log;
use device::{Device, Failed, SECTOR_SIZE};
use home_ranges::Home;
use layout::{
    BadImage, Body, CheckpointHeader, Entry, OpenFault, Scratch, Superblock, decode_superblock,
    read_sectors, total_in,
};
use model::ObjectHeader;

/// Reads the superblock of a device, and no other sector. Returns `Failed` exactly if the device failed, else
/// the least of reasons 1 to 3 that holds, if one does. Doesn't allocate.
pub fn read_superblock<D: Device>(device: &mut D) -> Result<Superblock, OpenFault>
    ensures found { IfOk result (λ s.
        HasPlan (D.disk device.old).seen (D.disk device.old).sectors s) }
    ensures refused { IfErr result (λ e.
        IsUnplanned (D.disk device.old).seen (D.disk device.old).sectors e) }
    ensures reads { ReadsOnly (D.disk device.old) (D.disk device.new) }
    ensures cause { CountsOpen (D.disk device.old) (D.disk device.new) result }
{
    let sectors = device.sectors();
    if sectors < 5 {
        return Err(OpenFault::Bad(BadImage::Small));
    }
    let mut sector = [0; SECTOR_SIZE];
    read_sectors(device, 0, 1, &mut sector)?;
    if total_in(&sector) > sectors {
        return Err(OpenFault::Bad(BadImage::Small));
    }
    Ok(decode_superblock(&sector)?)
}

/// Reads the saved frame of an object, from its own or its cluster's log slot, or from home if there is none.
/// Puts the slots of a node or an annex and the words of a page into `scratch`.
pub fn read_saved<D: Device>(
    device: &mut D,
    plan: &Superblock,
    header: CheckpointHeader,
    directory: &[Entry],
    number: u64,
    scratch: &mut Scratch,
) -> Result<(ObjectHeader, Body), OpenFault>
    requires directory { IsDirectory plan.now.geometry directory.now }
    requires object { IsObject plan.now.geometry number }
    requires inside { plan.now.total ≤ (D.disk device.old).sectors }
    ensures found { IfOk result (λ read. IsFrameOf plan.now.geometry header.age number
        (frame_in (D.disk device.new).seen plan.now header.generation directory.now number)
        (frame_of read scratch.new)) }
    ensures refused { IfErr result (λ e. IsRefused plan.now.geometry header.age number
        (frame_in (D.disk device.new).seen plan.now header.generation directory.now number) e) }
    ensures reads { ReadsOnly (D.disk device.old) (D.disk device.new) }
    ensures cause { CountsOpen (D.disk device.old) (D.disk device.new) result }
{
    let home = Home::new(plan);
    let log = Log::new(plan);
    match find_frame_slot(plan, directory, number) {
        Some(slot) => log.read_slot(device, header.generation, slot, number, header.age, scratch),
        None => home.read_frame(device, number, header.age, scratch),
    }
}

// Returns the failure of a second read of a frame. The first read accepted the frame, so only the device can fail.
fn failure(fault: OpenFault) -> Failed
    requires { fault ≡ OpenFault.Failed }
{
    match fault {
        OpenFault::Failed => Failed,
        OpenFault::NoMemory | OpenFault::Bad(_) => unreachable!(),
    }
}

/// Reads a frame that was written into a slot in the half of a generation.
pub(crate) fn read_put<D: Device>(
    device: &mut D,
    plan: &Superblock,
    generation: u64,
    slot: u64,
    number: u64,
    scratch: &mut Scratch,
) -> Result<(ObjectHeader, Body), Failed>
    requires object { IsObject plan.now.geometry number }
    requires slot { slot < plan.now.geometry.log }
    requires inside { plan.now.total ≤ (D.disk device.old).sectors }
    requires spelt { IsFrameOf plan.now.geometry most number
        (slot_bytes (D.disk device.old).seen plan.now generation slot number)
        (slot_frame (D.disk device.old).seen plan.now generation slot number) }
    ensures found { IfOk result (λ read. frame_of read scratch.new
        ≡ slot_frame (D.disk device.old).seen plan.now generation slot number) }
    ensures reads { ReadsOnly (D.disk device.old) (D.disk device.new) }
    ensures cause { Counts (D.disk device.old) (D.disk device.new) result }
{
    let log = Log::new(plan);
    match log.read_slot(device, generation, slot, number, u64::MAX, scratch) {
        Ok(read) => Ok(read),
        Err(fault) => Err(failure(fault)),
    }
}

/// Reads a saved frame that was read once already, so only the device can fail.
pub(crate) fn read_again<D: Device>(
    device: &mut D,
    plan: &Superblock,
    header: CheckpointHeader,
    directory: &[Entry],
    number: u64,
    scratch: &mut Scratch,
) -> Result<(ObjectHeader, Body), Failed>
    requires directory { IsDirectory plan.now.geometry directory.now }
    requires object { IsObject plan.now.geometry number }
    requires inside { plan.now.total ≤ (D.disk device.old).sectors }
    requires spelt { IsSpelt (D.disk device.old).seen plan.now header.age header.generation
        directory.now number }
    ensures found { IfOk result (λ read. frame_of read scratch.new
        ≡ frame_read (D.disk device.old).seen plan.now header.generation directory.now number) }
    ensures reads { ReadsOnly (D.disk device.old) (D.disk device.new) }
    ensures cause { Counts (D.disk device.old) (D.disk device.new) result }
{
    match read_saved(device, plan, header, directory, number, scratch) {
        Ok(read) => Ok(read),
        Err(fault) => Err(failure(fault)),
    }
}
