// The units of a sealed image: clusters of nodes, and pages. Each has a seal; the root sums up all.
ghost use Rattle.std.specs.Prelude.{◌≡◌, ◌+◌, ◌≤◌, true, IfOk, IfErr, OnOk};
ghost use Rattle.layout.specs.Calls.{ReadsOnly};
ghost use Rattle.layout.specs.Directory.{IsDirectory};
ghost use Rattle.layout.specs.Fault.{CountsOpen};
ghost use Rattle.layout.specs.Frames.{IsObject};
ghost use Rattle.layout.specs.Homes.{place_length};
ghost use Rattle.layout.specs.Image.{frame_sector};
ghost use Rattle.layout.specs.Version.{row};
ghost use Rattle.layout.specs.sealed.Units.{HasUnits, unit_in};
ghost use Rattle.migrator.specs.Units.{AreUnits, HasBadUnit, HasOtherUnits, IsBadUnit, IsUnitAt};

use crate::find::find_frame_slot;
use ckpt_log::Log;
use ckpt_log::sealed::{add_last, empty_root, read_cluster, read_summed};
use device::Device;
use home_ranges::Home;
use layout::{BLOCK_BYTES, BadImage, Entry, OpenFault, SealedHeader, Superblock};
use seal::Sums;

// How many bytes a cluster takes.
const CLUSTER_BYTES: usize = 4096;

/// Returns the first sector of the block that an object's frame is read from: a slot, or the object's home.
pub fn frame_sector(plan: &Superblock, generation: u64, directory: &[Entry], number: u64) -> u64
    requires directory { IsDirectory plan.now.geometry directory.now }
    requires object { IsObject plan.now.geometry number }
    ensures value { result ≡ frame_sector plan.now generation directory.now number }
    ensures inside { result + place_length plan.now number ≤ plan.now.total }
{
    let home = Home::new(plan);
    let log = Log::new(plan);
    match find_frame_slot(plan, directory, number) {
        Some(slot) => log.slot_sector(generation, slot),
        None => home.place(number),
    }
}

/// Reads the unit that an object begins, where it is saved, and returns its seal. Returns `Failed` exactly if the device
/// failed, and `BadFrame` exactly if the unit isn't right.
pub fn read_unit<D: Device>(
    device: &mut D,
    plan: &Superblock,
    generation: u64,
    directory: &[Entry],
    number: u64,
    block: &mut [u8; BLOCK_BYTES],
) -> Result<Sums, OpenFault>
    requires sealed { (row plan.now.version).sealed ≡ true }
    requires directory { IsDirectory plan.now.geometry directory.now }
    requires object { IsObject plan.now.geometry number }
    requires inside { plan.now.total ≤ (D.disk device.old).sectors }
    ensures found { OnOk result (IsUnitAt (D.disk device.old).seen plan.now generation directory.now number) }
    ensures seal { IfOk result (λ seal. seal
        ≡ (unit_in (D.disk device.old).seen plan.now generation directory.now number).seal) }
    ensures refused { IfErr result (λ e.
        IsBadUnit (D.disk device.old).seen plan.now generation directory.now number e) }
    ensures reads { ReadsOnly (D.disk device.old) (D.disk device.new) }
    ensures cause { CountsOpen (D.disk device.old) (D.disk device.new) result }
{
    let home = Home::new(plan);
    let geometry = plan.geometry();
    let at = frame_sector(plan, generation, directory, number);
    if number < geometry.nodes {
        let nodes = home.cluster_count(number);
        read_cluster(device, at, nodes, &mut block[..CLUSTER_BYTES])
    } else {
        read_summed(device, at, block)
    }
}

// Adds the seal of the unit that a number begins to the root of the units before it. If the number begins no unit,
// returns the root. Returns `Failed` exactly if the device failed, and `BadFrame` exactly if the unit isn't right.
fn add_next<D: Device>(
    device: &mut D,
    plan: &Superblock,
    generation: u64,
    directory: &[Entry],
    number: u64,
    root: Sums,
    block: &mut [u8; BLOCK_BYTES],
) -> Result<Sums, OpenFault>
    requires sealed { (row plan.now.version).sealed ≡ true }
    requires directory { IsDirectory plan.now.geometry directory.now }
    requires object { IsObject plan.now.geometry number }
    requires inside { plan.now.total ≤ (D.disk device.old).sectors }
    requires units { AreUnits (D.disk device.old).seen plan.now generation directory.now number root }
    ensures found { IfOk result (λ more.
        AreUnits (D.disk device.old).seen plan.now generation directory.now (number + 1) more) }
    ensures refused { IfErr result (λ e. HasBadUnit (D.disk device.old).seen plan.now generation directory.now e) }
    ensures reads { ReadsOnly (D.disk device.old) (D.disk device.new) }
    ensures cause { CountsOpen (D.disk device.old) (D.disk device.new) result }
{
    let home = Home::new(plan);
    let begins = home.begins_unit(number);
    if begins {
        let seal = read_unit(device, plan, generation, directory, number, block)?;
        Ok(add_last(root, number, seal))
    } else {
        Ok(root)
    }
}

// Reads all units where they are saved, and returns their root. Returns `Failed` exactly if the device failed, and
// `BadFrame` exactly if some unit isn't right.
fn root_of_units<D: Device>(
    device: &mut D,
    plan: &Superblock,
    generation: u64,
    directory: &[Entry],
) -> Result<Sums, OpenFault>
    requires sealed { (row plan.now.version).sealed ≡ true }
    requires directory { IsDirectory plan.now.geometry directory.now }
    requires inside { plan.now.total ≤ (D.disk device.old).sectors }
    ensures found { IfOk result (λ root. HasUnits (D.disk device.old).seen plan.now root generation directory.now) }
    ensures refused { IfErr result (λ e. HasBadUnit (D.disk device.old).seen plan.now generation directory.now e) }
    ensures reads { ReadsOnly (D.disk device.old) (D.disk device.new) }
    ensures cause { CountsOpen (D.disk device.old) (D.disk device.new) result }
{
    let geometry = plan.geometry();
    let mut block = [0; BLOCK_BYTES];
    let mut root = empty_root();
    for number in 0..geometry.nodes + geometry.pages {
        let more = add_next(
            device, plan, generation, directory, number, root, &mut block,
        )?;
        root = more;
    }
    Ok(root)
}

// Reads all units where they are saved. Returns `Failed` exactly if the device failed, and `BadFrame` exactly if some
// unit isn't right, or the units don't add up to the header's root.
fn check_units<D: Device>(
    device: &mut D,
    plan: &Superblock,
    header: SealedHeader,
    directory: &[Entry],
) -> Result<(), OpenFault>
    requires sealed { (row plan.now.version).sealed ≡ true }
    requires directory { IsDirectory plan.now.geometry directory.now }
    requires inside { plan.now.total ≤ (D.disk device.old).sectors }
    ensures found { OnOk result (HasUnits (D.disk device.old).seen plan.now header.root header.header.generation
        directory.now) }
    ensures refused { IfErr result (λ e. HasOtherUnits (D.disk device.old).seen plan.now header.root
        header.header.generation directory.now e) }
    ensures reads { ReadsOnly (D.disk device.old) (D.disk device.new) }
    ensures cause { CountsOpen (D.disk device.old) (D.disk device.new) result }
{
    let root = root_of_units(device, plan, header.header.generation, directory)?;
    if root == header.root {
        Ok(())
    } else {
        Err(OpenFault::Bad(BadImage::BadFrame))
    }
}

/// In a version with seals, checks all units as `check_units` does. In another version it doesn't call the device.
pub fn check_seals<D: Device>(
    device: &mut D,
    plan: &Superblock,
    header: SealedHeader,
    directory: &[Entry],
) -> Result<(), OpenFault>
    requires directory { IsDirectory plan.now.geometry directory.now }
    requires inside { plan.now.total ≤ (D.disk device.old).sectors }
    ensures found { OnOk result ((row plan.now.version).sealed ≡ true → HasUnits (D.disk device.old).seen plan.now
        header.root header.header.generation directory.now) }
    ensures refused { IfErr result (λ e. HasOtherUnits (D.disk device.old).seen plan.now header.root
        header.header.generation directory.now e) }
    ensures reads { ReadsOnly (D.disk device.old) (D.disk device.new) }
    ensures cause { CountsOpen (D.disk device.old) (D.disk device.new) result }
{
    let sealed = plan.version().row().sealed;
    if sealed {
        check_units(device, plan, header, directory)
    } else {
        Ok(())
    }
}
