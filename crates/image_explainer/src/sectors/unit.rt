// Finding what is wrong with the clusters and page frames of version 3 as wholes.
ghost use Rattle.std.specs.Prelude.{◌≡◌, ◌↔◌, ◌%◌, ◌≤◌, length, true, IfErr, IfOk, IsTrue};
ghost use Rattle.image_explainer.specs.SectorFinding.{IsNoReason};
ghost use Rattle.layout.specs.Calls.{ReadsOnly};
ghost use Rattle.layout.specs.Directory.{IsDirectory};
ghost use Rattle.layout.specs.Fault.{CountsOpen};
ghost use Rattle.layout.specs.Frames.{IsObject};
ghost use Rattle.layout.specs.Version.{row};
ghost use Rattle.layout.specs.sealed.Units.{HasUnits, begins_unit, unit_bytes};
ghost use Rattle.migrator.specs.Units.{IsUnitAt};
ghost use Rattle.image_explainer.specs.SectorBreaking.{BreaksUnit};
ghost use Rattle.image_explainer.specs.SectorFinding.{IsUnitFault};

use crate::sectors::fault::{SectorFault, UnitPart};
use device::{Device, SECTOR_SIZE};
use home_ranges::Home;
use layout::{BLOCK_BYTES, Entry, OpenFault, SealedHeader, Superblock, read_sectors};
use migrator::{check_seals, frame_sector, read_unit};
use seal::is_sealed;

// How many sectors a cluster takes.
const CLUSTER_SECTORS: usize = 8;

// Returns what is wrong with the bytes of a unit that isn't right.
fn part_in(bytes: &[u8]) -> UnitPart
    requires whole { length bytes.now % 4 ≡ 0 }
    requires room { 24 ≤ length bytes.now }
    requires size { length bytes.now ≤ 4096 }
    ensures { BreaksUnit bytes.now result }
{
    if is_sealed(bytes) {
        UnitPart::Rest
    } else {
        UnitPart::Unsealed
    }
}

// Returns what is wrong with the unit that an object begins: its seal, or the rest.
fn read_part<D: Device>(
    device: &mut D,
    plan: &Superblock,
    generation: u64,
    directory: &[Entry],
    number: u64,
    block: &mut [u8; BLOCK_BYTES],
) -> Result<UnitPart, OpenFault>
    requires sealed { (row plan.now.version).sealed ≡ true }
    requires directory { IsDirectory plan.now.geometry directory.now }
    requires object { IsObject plan.now.geometry number }
    requires inside { plan.now.total ≤ (D.disk device.old).sectors }
    ensures found { IfOk result (BreaksUnit (unit_bytes (D.disk device.old).seen plan.now generation directory.now
        number)) }
    ensures refused { IfErr result IsNoReason }
    ensures reads { ReadsOnly (D.disk device.old) (D.disk device.new) }
    ensures cause { CountsOpen (D.disk device.old) (D.disk device.new) result }
{
    let at = frame_sector(plan, generation, directory, number);
    let is_node = number < plan.geometry().nodes;
    let sectors = if is_node { CLUSTER_SECTORS } else { 1 };
    let run = &mut block[..SECTOR_SIZE * sectors];
    read_sectors(device, at, sectors, run)?;
    Ok(part_in(run))
}

// Whether the unit that an object begins is right, if it begins one.
fn is_right<D: Device>(
    device: &mut D,
    plan: &Superblock,
    generation: u64,
    directory: &[Entry],
    number: u64,
    block: &mut [u8; BLOCK_BYTES],
) -> Result<bool, OpenFault>
    requires sealed { (row plan.now.version).sealed ≡ true }
    requires directory { IsDirectory plan.now.geometry directory.now }
    requires object { IsObject plan.now.geometry number }
    requires inside { plan.now.total ≤ (D.disk device.old).sectors }
    ensures found { IfOk result (λ right. IsTrue right ↔ (IsTrue (begins_unit plan.now number)
        → IsUnitAt (D.disk device.old).seen plan.now generation directory.now number)) }
    ensures refused { IfErr result IsNoReason }
    ensures reads { ReadsOnly (D.disk device.old) (D.disk device.new) }
    ensures cause { CountsOpen (D.disk device.old) (D.disk device.new) result }
{
    if !Home::new(plan).begins_unit(number) {
        return Ok(true);
    }
    match read_unit(device, plan, generation, directory, number, block) {
        Ok(_) => Ok(true),
        Err(OpenFault::Bad(_)) => Ok(false),
        Err(fault) => Err(fault),
    }
}

/// Returns the first unit that isn't right, and what is wrong with it; or that the units don't add up to the root.
pub(crate) fn find_unit<D: Device>(
    device: &mut D,
    plan: &Superblock,
    header: SealedHeader,
    directory: &[Entry],
) -> Result<SectorFault, OpenFault>
    requires sealed { (row plan.now.version).sealed ≡ true }
    requires directory { IsDirectory plan.now.geometry directory.now }
    requires inside { plan.now.total ≤ (D.disk device.old).sectors }
    requires bad { HasUnits (D.disk device.old).seen plan.now header.root header.header.generation directory.now → ⊥ }
    ensures found { IfOk result (IsUnitFault (D.disk device.old).seen plan.now header directory.now) }
    ensures refused { IfErr result IsNoReason }
    ensures reads { ReadsOnly (D.disk device.old) (D.disk device.new) }
    ensures cause { CountsOpen (D.disk device.old) (D.disk device.new) result }
{
    let geometry = plan.geometry();
    let generation = header.header.generation;
    let mut block = [0; BLOCK_BYTES];
    for number in 0..geometry.nodes + geometry.pages {
        let right = is_right(device, plan, generation, directory, number, &mut block)?;
        if !right {
            let part = read_part(device, plan, generation, directory, number, &mut block)?;
            return Ok(SectorFault::Unit {
                number,
                is_page: number >= geometry.nodes,
                part,
            });
        }
    }
    Ok(SectorFault::Root)
}

/// Whether all units are right and add up to the header's root, if the version has seals.
pub(crate) fn are_right<D: Device>(
    device: &mut D,
    plan: &Superblock,
    header: SealedHeader,
    directory: &[Entry],
) -> Result<bool, OpenFault>
    requires directory { IsDirectory plan.now.geometry directory.now }
    requires inside { plan.now.total ≤ (D.disk device.old).sectors }
    ensures found { IfOk result (λ right. IsTrue right ↔ ((row plan.now.version).sealed ≡ true → HasUnits
        (D.disk device.old).seen plan.now header.root header.header.generation directory.now)) }
    ensures refused { IfErr result IsNoReason }
    ensures reads { ReadsOnly (D.disk device.old) (D.disk device.new) }
    ensures cause { CountsOpen (D.disk device.old) (D.disk device.new) result }
{
    match check_seals(device, plan, header, directory) {
        Ok(()) => Ok(true),
        Err(OpenFault::Bad(_)) => Ok(false),
        Err(fault) => Err(fault),
    }
}
