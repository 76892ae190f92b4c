// Assembles the new content of a cluster, for the slot of its first entry.
ghost use Rattle.std.specs.Prelude.{◌≡◌, ◌*◌, ◌<◌, ◌≤◌, ℕ, true, false, length, drop, OnOk};
ghost use Rattle.device.specs.Calls.{Counts};
ghost use Rattle.layout.specs.declared.shape.Shape.{Shape};
ghost use Rattle.layout.specs.Directory.{IsDirectory};
ghost use Rattle.layout.specs.Homes.{home_place, place_length, shape_of};
ghost use Rattle.layout.specs.Calls.{ReadsOnly};
ghost use Rattle.layout.specs.Frames.{IsObject};
ghost use Rattle.layout.specs.Shape.{AreBeside, shape_bytes, shape_end};
ghost use Rattle.layout.specs.Superblock.{IsPlan};
ghost use Rattle.layout.specs.Version.{row};
ghost use Rattle.home_ranges.specs.Home.{EndsInZeros};
ghost use Rattle.migrator.specs.Completed.{IsClusterOf, IsFilled, new_bytes};

use crate::find::find;
use crate::gather::copy_from;
use device::{Device, Failed};
use home_ranges::Home;
use layout::{BLOCK_BYTES, Entry, Superblock, blank, seal_cluster};

// Copies the new frame of an object into a block, at the offset of its shape: from the slot of its entry, or from home
// if it has none. No other byte of the block changes.
fn copy_new<D: Device>(
    device: &mut D,
    plan: &Superblock,
    generation: u64,
    entries: &[Entry],
    number: u64,
    block: &mut [u8],
    scratch: &mut [u8; BLOCK_BYTES],
) -> Result<(), Failed>
    requires directory { IsDirectory plan.now.geometry entries.now }
    requires object { IsObject plan.now.geometry number }
    requires block { length block.old ≡ 512 * place_length plan.now number }
    requires inside { plan.now.total ≤ (D.disk device.old).sectors }
    ensures copied { OnOk result (shape_bytes (shape_of plan.now number) block.new
        ≡ new_bytes (D.disk device.old).seen plan.now generation entries.now number) }
    ensures others { (other : Shape) → AreBeside (shape_of plan.now number) other
        → shape_bytes other block.new ≡ shape_bytes other block.old }
    ensures behind { drop (shape_end (shape_of plan.now number)) block.new
        ≡ drop (shape_end (shape_of plan.now number)) block.old }
    ensures size { length block.new ≡ length block.old }
    ensures reads { ReadsOnly (D.disk device.old) (D.disk device.new) }
    ensures cause { Counts (D.disk device.old) (D.disk device.new) result }
{
    let slot = find(entries, number);
    copy_from(device, plan, generation, slot, number, block, scratch)
}

// Fills a block with the new frames of all objects that share the home of an object, and zeros after them.
fn copy_all<D: Device>(
    device: &mut D,
    plan: &Superblock,
    generation: u64,
    entries: &[Entry],
    number: u64,
    block: &mut [u8],
    scratch: &mut [u8; BLOCK_BYTES],
) -> Result<(), Failed>
    requires directory { IsDirectory plan.now.geometry entries.now }
    requires object { IsObject plan.now.geometry number }
    requires block { length block.old ≡ 512 * place_length plan.now number }
    requires inside { plan.now.total ≤ (D.disk device.old).sectors }
    ensures filled { OnOk result (IsFilled (D.disk device.old).seen plan.now generation
        entries.now number block.new) }
    ensures zeros { OnOk result (EndsInZeros plan.now number block.new) }
    ensures size { length block.new ≡ length block.old }
    ensures reads { ReadsOnly (D.disk device.old) (D.disk device.new) }
    ensures cause { Counts (D.disk device.old) (D.disk device.new) result }
{
    let home = Home::new(plan);
    let first = home.first(number);
    blank(block);
    for k in 0..home.sharers(first) {
        copy_new(device, plan, generation, entries, first + k, block, scratch)?;
    }
    Ok(())
}

// Seals the cluster that has the home of a node, if the version has seals. Its frames stay.
fn put_seal(plan: &Superblock, number: u64, cluster: &mut [u8])
    requires object { IsObject plan.now.geometry number }
    requires cluster { length cluster.old ≡ 4096 }
    ensures plan { IsPlan plan.now }
    ensures frames { (n : ℕ) → n < plan.now.geometry.nodes → home_place plan.now n ≡ home_place plan.now number
        → shape_bytes (shape_of plan.now n) cluster.new ≡ shape_bytes (shape_of plan.now n) cluster.old }
    ensures seal { (row plan.now.version).sealed ≡ true → IsClusterOf plan.now number cluster.new }
    ensures plain { (row plan.now.version).sealed ≡ false → cluster.new ≡ cluster.old }
    ensures size { length cluster.new ≡ 4096 }
{
    let sealed = plan.version().row().sealed;
    if sealed {
        let home = Home::new(plan);
        let first = home.first(number);
        let nodes = home.cluster_count(first);
        seal_cluster(cluster, nodes);
    }
}

/// Fills a cluster with its new content: the frames of its entries from their slots, the home frames of its other
/// nodes, then zeros; in a version with seals, then a seal. `scratch` may then hold any bytes.
pub(crate) fn assemble<D: Device>(
    device: &mut D,
    plan: &Superblock,
    generation: u64,
    entries: &[Entry],
    number: u64,
    cluster: &mut [u8],
    scratch: &mut [u8; BLOCK_BYTES],
) -> Result<(), Failed>
    requires directory { IsDirectory plan.now.geometry entries.now }
    requires object { IsObject plan.now.geometry number }
    requires sectors { place_length plan.now number ≡ 8 }
    requires cluster { length cluster.old ≡ 4096 }
    requires inside { plan.now.total ≤ (D.disk device.old).sectors }
    ensures filled { OnOk result (IsFilled (D.disk device.old).seen plan.now generation
        entries.now number cluster.new) }
    ensures zeros { OnOk result ((row plan.now.version).sealed ≡ false → EndsInZeros plan.now number cluster.new) }
    ensures seal { OnOk result ((row plan.now.version).sealed ≡ true → IsClusterOf plan.now number cluster.new) }
    ensures size { length cluster.new ≡ 4096 }
    ensures reads { ReadsOnly (D.disk device.old) (D.disk device.new) }
    ensures cause { Counts (D.disk device.old) (D.disk device.new) result }
{
    copy_all(device, plan, generation, entries, number, cluster, scratch)?;
    put_seal(plan, number, cluster);
    Ok(())
}
