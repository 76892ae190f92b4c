// Finding why sector 0 isn't a superblock, or why the image is too small.
ghost use Rattle.std.specs.Prelude.{◌≡◌, drop, length, take, IfErr, IfNone, IfOk, IfSome};
ghost use Rattle.image_explainer.specs.SectorFinding.{IsNoReason};
ghost use Rattle.layout.specs.Calls.{ReadsOnly};
ghost use Rattle.layout.specs.Denoted.{IsBadBy};
ghost use Rattle.layout.specs.Fault.{CountsOpen};
ghost use Rattle.layout.specs.Superblock.{HasMark, IsPlan, Plan, superblock_bytes};
ghost use Rattle.layout.specs.declared.version.Version.{Version};
ghost use Rattle.image_explainer.specs.SectorBreaking.{BreaksGeometry, BreaksMark, HasVersion, IsFault};

use crate::sectors::fault::{GeometryPart, SectorFault, SuperblockPart};
use crate::sectors::reading::number_at;
use ckpt_log::read_sector;
use device::{Device, MAX_SECTORS, SECTOR_SIZE};
use layout::{
    BadImage, MAX_LOG, MAX_NODES, MAX_PAGES, MIN_LOG, MIN_NODES, OpenFault, Version, are_zeros,
    total_in,
};

// Returns the version in a superblock's sector, or `None` if no version has its number.
#[tactic(auto, unfolding(layout::specs::Bytes::half_number))]
fn version_in(bytes: &[u8]) -> Option<Version>
    requires { length bytes.now ≡ 512 }
    ensures some { IfSome result (HasVersion bytes.now) }
    ensures none { IfNone result ((v : Version) → HasVersion bytes.now v → ⊥) }
{
    let version = &bytes[8..12];
    if version == [1, 0, 0, 0].as_slice() {
        Some(Version::One)
    } else if version == [2, 0, 0, 0].as_slice() {
        Some(Version::Two)
    } else if version == [3, 0, 0, 0].as_slice() {
        Some(Version::Three)
    } else {
        None
    }
}

// Returns why a sector isn't marked as a superblock: its magic, its version, a byte after the ranges, or its seal.
fn mark_part(bytes: &[u8]) -> SuperblockPart
    requires size { length bytes.now ≡ 512 }
    requires refused { HasMark bytes.now → ⊥ }
    ensures { BreaksMark bytes.now result }
{
    if !bytes.starts_with(b"EROSCKPT") {
        return SuperblockPart::Magic;
    }
    let Some(version) = version_in(bytes) else {
        return SuperblockPart::Version;
    };
    let end = if version.row().sealed { 488 } else { 512 };
    if are_zeros(&bytes[256..end]) {
        SuperblockPart::Seal
    } else {
        SuperblockPart::Tail
    }
}

// Returns the field of a superblock that is outside its limits.
fn geometry_part(bytes: &[u8]) -> GeometryPart
    requires size { length bytes.now ≡ 512 }
    requires refused { (p : Plan) → IsPlan p → bytes.now ≡ superblock_bytes p → ⊥ }
    ensures { BreaksGeometry bytes.now result }
{
    let nodes = number_at(bytes, 16);
    let pages = number_at(bytes, 24);
    let log = number_at(bytes, 32);
    let total = number_at(bytes, 56);
    if nodes < MIN_NODES || nodes > MAX_NODES {
        GeometryPart::Nodes(nodes)
    } else if pages < 1 || pages > MAX_PAGES {
        GeometryPart::Pages(pages)
    } else if log < MIN_LOG || log > MAX_LOG as u64 {
        GeometryPart::Log(log)
    } else if total > MAX_SECTORS {
        GeometryPart::Total(total)
    } else {
        GeometryPart::Places
    }
}

/// Returns how many sectors a device has that is too small for its image, and how many it needs.
pub(crate) fn find_size<D: Device>(device: &mut D) -> Result<SectorFault, OpenFault>
    requires { IsBadBy (D.disk device.old).seen (D.disk device.old).sectors BadImage.Small }
    ensures found { IfOk result (IsFault (D.disk device.old).sectors (D.disk device.old).seen) }
    ensures refused { IfErr result IsNoReason }
    ensures reads { ReadsOnly (D.disk device.old) (D.disk device.new) }
    ensures cause { CountsOpen (D.disk device.old) (D.disk device.new) result }
{
    let sectors = device.sectors();
    if sectors < 5 {
        return Ok(SectorFault::Small { sectors, needed: 5 });
    }
    let mut front = [0; SECTOR_SIZE];
    read_sector(device, 0, &mut front)?;
    Ok(SectorFault::Small {
        sectors,
        needed: total_in(&front),
    })
}

/// Returns why sector 0 of an image isn't marked as a superblock.
pub(crate) fn find_mark<D: Device>(device: &mut D) -> Result<SectorFault, OpenFault>
    requires { IsBadBy (D.disk device.old).seen (D.disk device.old).sectors BadImage.NotASuperblock }
    ensures found { IfOk result (IsFault (D.disk device.old).sectors (D.disk device.old).seen) }
    ensures refused { IfErr result IsNoReason }
    ensures reads { ReadsOnly (D.disk device.old) (D.disk device.new) }
    ensures cause { CountsOpen (D.disk device.old) (D.disk device.new) result }
{
    let mut front = [0; SECTOR_SIZE];
    read_sector(device, 0, &mut front)?;
    Ok(SectorFault::Superblock(mark_part(&front)))
}

/// Returns what is wrong with the numbers of an image's superblock.
pub(crate) fn find_geometry<D: Device>(device: &mut D) -> Result<SectorFault, OpenFault>
    requires { IsBadBy (D.disk device.old).seen (D.disk device.old).sectors BadImage.BadGeometry }
    ensures found { IfOk result (IsFault (D.disk device.old).sectors (D.disk device.old).seen) }
    ensures refused { IfErr result IsNoReason }
    ensures reads { ReadsOnly (D.disk device.old) (D.disk device.new) }
    ensures cause { CountsOpen (D.disk device.old) (D.disk device.new) result }
{
    let mut front = [0; SECTOR_SIZE];
    read_sector(device, 0, &mut front)?;
    Ok(SectorFault::Geometry(geometry_part(&front)))
}
