// Reads a whole image: every saved frame once.
ghost use Rattle.std.specs.Prelude.{◌≡◌, ℕ, ◌+◌, ◌<◌, ◌≤◌, ◌∷◌, ◌++◌, [], List, length, take, IfOk, IfErr, OnOk};
ghost use Rattle.model.specs.declared.frame.Frame.{Frame};
ghost use Rattle.device.specs.Calls.{Only};
ghost use Rattle.layout.specs.Directory.{IsDirectory};
ghost use Rattle.layout.specs.Denoted.{HasPlan};
ghost use Rattle.layout.specs.Spelt.{count_of, IsSpelt, AreSpelt, frame_read, frames_read};
ghost use Rattle.layout.specs.Calls.{ReadsOnly};
ghost use Rattle.layout.specs.Frames.{IsObject};
ghost use Rattle.migrator.specs.Opened.{IsBadAt, IsRead};
ghost use Rattle.layout.specs.Fault.{CountsOpen};
ghost use Rattle.checkpoint.specs.Opened.{IsBadFor, OnlyReads};

use crate::intake::Intake;
use crate::read::{read_saved, read_superblock};
use crate::units::check_seals;
use ckpt_log::Log;
use device::Device;
use layout::{CheckpointHeader, Entry, OpenFault, Scratch, SealedHeader, Superblock};
use std::alloc::Global;

// Reads the saved frame of an object, and passes it to the intake.
fn take_frame<D: Device, I: Intake>(
    alloc: Global,
    device: &mut D,
    plan: &Superblock,
    header: CheckpointHeader,
    directory: &[Entry],
    number: u64,
    scratch: &mut Scratch,
    taken: &mut I,
) -> Result<(), OpenFault>
    requires directory { IsDirectory plan.now.geometry directory.now }
    requires object { IsObject plan.now.geometry number }
    requires inside { plan.now.total ≤ (D.disk device.old).sectors }
    requires room { (fs : List Frame) × I.Took taken.old fs × (length fs < I.room taken.old) }
    ensures room { I.room taken.old ≤ I.room taken.new }
    ensures spelt { OnOk result (IsSpelt (D.disk device.old).seen plan.now header.age
        header.generation directory.now number) }
    ensures took { OnOk result ((fs : List Frame) → I.Took taken.old fs → I.Took taken.new
        (fs ++ frame_read (D.disk device.old).seen plan.now header.generation directory.now number ∷ [])) }
    ensures refused { IfErr result (λ e. IsBadAt (D.disk device.old).seen plan.now header
        directory.now number e) }
    ensures reads { ReadsOnly (D.disk device.old) (D.disk device.new) }
    ensures cause { CountsOpen (D.disk device.old) (D.disk device.new) result }
{
    let read = read_saved(device, plan, header, directory, number, scratch)?;
    match taken.take(alloc, read, scratch) {
        Ok(()) => Ok(()),
        Err(_) => Err(OpenFault::NoMemory),
    }
}

// Syncs a device, and reads its superblock.
pub(crate) fn sync_and_read_superblock<D: Device>(device: &mut D) -> Result<Superblock, OpenFault>
    ensures found { IfOk result (λ s.
        HasPlan (D.disk device.old).seen (D.disk device.old).sectors s) }
    ensures durable { OnOk result (Only (D.disk device.new).seen (D.disk device.new)) }
    ensures refused { IfErr result (λ e.
        IsBadFor (D.disk device.old).seen (D.disk device.old).sectors e) }
    ensures only_reads { OnlyReads (D.disk device.old) (D.disk device.new) }
    ensures cause { CountsOpen (D.disk device.old) (D.disk device.new) result }
{
    device.sync()?;
    read_superblock(device)
}

// Reads the saved frames of all objects, and passes them to the intake.
fn take_frames<D: Device, I: Intake>(
    alloc: Global,
    device: &mut D,
    plan: &Superblock,
    header: CheckpointHeader,
    directory: &[Entry],
    scratch: &mut Scratch,
    taken: &mut I,
) -> Result<(), OpenFault>
    requires directory { IsDirectory plan.now.geometry directory.now }
    requires inside { plan.now.total ≤ (D.disk device.old).sectors }
    requires none { I.Took taken.old [] }
    requires room { count_of plan.now ≤ I.room taken.old }
    ensures spelt { OnOk result (AreSpelt (D.disk device.old).seen plan.now header.age
        header.generation directory.now) }
    ensures took { OnOk result (I.Took taken.new
        (frames_read (D.disk device.old).seen plan.now header.generation directory.now)) }
    ensures refused { IfErr result (λ e. (n : ℕ) × (n < count_of plan.now)
        × IsBadAt (D.disk device.old).seen plan.now header directory.now n e) }
    ensures reads { ReadsOnly (D.disk device.old) (D.disk device.new) }
    ensures cause { CountsOpen (D.disk device.old) (D.disk device.new) result }
{
    let geometry = plan.geometry();
    for number in 0..geometry.nodes + geometry.pages {
        take_frame(
            alloc, device, plan, header, directory, number, scratch, taken,
        )?;
    }
    Ok(())
}

/// Reads the committed header, its directory and every saved frame once; in a version with seals, reads and checks all
/// units before the frames. Puts the directory into the first
/// entries of `directory`, and passes the frames to the intake. A refusal has the least reason that holds.
pub(crate) fn read_image<D: Device, I: Intake>(
    alloc: Global,
    device: &mut D,
    plan: &Superblock,
    directory: &mut [Entry],
    scratch: &mut Scratch,
    taken: &mut I,
) -> Result<SealedHeader, OpenFault>
    requires plan { HasPlan (D.disk device.old).seen (D.disk device.old).sectors plan.now }
    requires length { length directory.old ≡ plan.now.geometry.log }
    requires none { I.Took taken.old [] }
    requires room { count_of plan.now ≤ I.room taken.old }
    ensures found { IfOk result (λ h. IsRead (D.disk device.old).seen plan.now h directory.new) }
    ensures took { IfOk result (λ h. I.Took taken.new
        (frames_read (D.disk device.old).seen plan.now h.header.generation
        (take h.header.entries directory.new))) }
    ensures refused { IfErr result (λ e.
        IsBadFor (D.disk device.old).seen (D.disk device.old).sectors e) }
    ensures length { length directory.new ≡ length directory.old }
    ensures reads { ReadsOnly (D.disk device.old) (D.disk device.new) }
    ensures cause { CountsOpen (D.disk device.old) (D.disk device.new) result }
{
    let log = Log::new(plan);
    let header = log.read_committed(device, directory)?;
    let named = &directory[..header.header.entries as usize];
    check_seals(device, plan, header, named)?;
    take_frames(alloc, device, plan, header.header, named, scratch, taken)?;
    Ok(header)
}
