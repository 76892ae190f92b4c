// The seals of units in the blocks that hold them, and the root after a unit was replaced.
ghost use Rattle.std.specs.Prelude.{◌≡◌, ◌+◌, ◌*◌, ◌≤◌, ◌%◌, length, IfOk, true};
ghost use Rattle.device.specs.Calls.{Counts};
ghost use Rattle.layout.specs.Calls.{ReadsOnly};
ghost use Rattle.layout.specs.Frames.{IsObject};
ghost use Rattle.layout.specs.Homes.{home_place, place_length};
ghost use Rattle.layout.specs.Version.{row};
ghost use Rattle.layout.specs.sealed.Sector.{seal_in};
ghost use Rattle.ckpt_log.specs.sealed.Units.{IsRootWith};
ghost use Rattle.migrator.specs.Units.{unit_at, unit_length};

use ckpt_log::sealed::replace_seal;
use device::{Device, Failed, SECTOR_SIZE};
use home_ranges::Home;
use layout::{BLOCK_BYTES, Superblock, read_sectors};
use seal::{SUMS_BYTES, Sums, sums_of};

// Returns how many sectors the unit of a number takes: all of a cluster, or the header sector of a page.
fn unit_sectors(plan: &Superblock, number: u64) -> usize
    requires sealed { (row plan.now.version).sealed ≡ true }
    ensures value { result ≡ unit_length plan.now number }
    ensures some { 1 ≤ result }
    ensures few { result ≤ 8 }
    ensures inside { result ≤ place_length plan.now number }
{
    let shape = plan.shape(number);
    if shape.has_sums {
        1
    } else {
        shape.sectors as usize
    }
}

// Returns the sums in the seal of a sealed row.
fn seal_of(row: &[u8]) -> Sums
    requires whole { length row.now % 4 ≡ 0 }
    requires room { 24 ≤ length row.now }
    requires size { length row.now ≤ 4096 }
    ensures { result ≡ seal_in row.now }
{
    sums_of(&row[..row.len() - SUMS_BYTES])
}

// Returns the seal of the unit of this number in the block at a sector.
fn read_seal<D: Device>(
    device: &mut D,
    plan: &Superblock,
    number: u64,
    at: u64,
    block: &mut [u8; BLOCK_BYTES],
) -> Result<Sums, Failed>
    requires sealed { (row plan.now.version).sealed ≡ true }
    requires inside { at + place_length plan.now number ≤ (D.disk device.old).sectors }
    ensures seal { IfOk result (λ seal. seal ≡ seal_in (unit_at (D.disk device.old).seen plan.now number at)) }
    ensures reads { ReadsOnly (D.disk device.old) (D.disk device.new) }
    ensures cause { Counts (D.disk device.old) (D.disk device.new) result }
{
    let sectors = unit_sectors(plan, number);
    let run = &mut block[..SECTOR_SIZE * sectors];
    read_sectors(device, at, sectors, run)?;
    Ok(seal_of(run))
}

/// Returns the root after the unit of this number was replaced: its home has the old seal, and the block at a sector
/// has the new one. Returns `Failed` exactly if the device failed.
pub(crate) fn replaced<D: Device>(
    device: &mut D,
    plan: &Superblock,
    root: Sums,
    number: u64,
    at: u64,
    block: &mut [u8; BLOCK_BYTES],
) -> Result<Sums, Failed>
    requires sealed { (row plan.now.version).sealed ≡ true }
    requires object { IsObject plan.now.geometry number }
    requires inside { plan.now.total ≤ (D.disk device.old).sectors }
    requires there { at + place_length plan.now number ≤ (D.disk device.old).sectors }
    ensures root { IfOk result (λ new. IsRootWith number
        (seal_in (unit_at (D.disk device.old).seen plan.now number (home_place plan.now number)))
        (seal_in (unit_at (D.disk device.old).seen plan.now number at)) root new) }
    ensures reads { ReadsOnly (D.disk device.old) (D.disk device.new) }
    ensures cause { Counts (D.disk device.old) (D.disk device.new) result }
{
    let home = Home::new(plan).place(number);
    let old = read_seal(device, plan, number, home, block)?;
    let new = read_seal(device, plan, number, at, block)?;
    Ok(replace_seal(root, number, old, new))
}
