// The root of the next saved state: that of the last one, with the units of the new entries.
ghost use Rattle.std.specs.Prelude.{◌≡◌, ◌+◌, ◌<◌, ◌≤◌, true, [], length, take, IfOk};
ghost use Rattle.device.specs.Calls.{Counts};
ghost use Rattle.layout.specs.Calls.{ReadsOnly};
ghost use Rattle.layout.specs.Directory.{IsDirectory};
ghost use Rattle.layout.specs.Version.{row};
ghost use Rattle.layout.specs.sealed.Root.{root_of};
ghost use Rattle.layout.specs.sealed.Units.{units_in};
ghost use Rattle.migrator.specs.Units.{IsNextRoot};

use crate::first_in_cluster::is_first;
use crate::unit_seals::replaced;
use ckpt_log::Log;
use device::{Device, Failed};
use home_ranges::Home;
use layout::{BLOCK_BYTES, Entry, Superblock};
use seal::Sums;

// Returns the root with the units of one more entry, after those of the first `index` entries. If the entry isn't the
// first of its cluster, the root stays.
fn with_entry<D: Device>(
    device: &mut D,
    plan: &Superblock,
    generation: u64,
    entries: &[Entry],
    index: usize,
    root: Sums,
    block: &mut [u8; BLOCK_BYTES],
) -> Result<Sums, Failed>
    requires sealed { (row plan.now.version).sealed ≡ true }
    requires directory { IsDirectory plan.now.geometry entries.now }
    requires within { index < length entries.now }
    requires inside { plan.now.total ≤ (D.disk device.old).sectors }
    requires root { root
        ≡ root_of (units_in (D.disk device.old).seen plan.now generation (take index entries.now)) }
    ensures root { IfOk result (λ new. new
        ≡ root_of (units_in (D.disk device.old).seen plan.now generation (take (index + 1) entries.now))) }
    ensures reads { ReadsOnly (D.disk device.old) (D.disk device.new) }
    ensures cause { Counts (D.disk device.old) (D.disk device.new) result }
{
    let entry = entries[index];
    if !is_first(plan, entries, index) {
        return Ok(root);
    }
    let home = Home::new(plan);
    let log = Log::new(plan);
    let first = home.first(entry.object);
    let at = log.slot_sector(generation, entry.slot);
    replaced(device, plan, root, first, at, block)
}

// Returns the root with the units of all entries.
fn with_entries<D: Device>(
    device: &mut D,
    plan: &Superblock,
    generation: u64,
    entries: &[Entry],
    root: Sums,
) -> Result<Sums, Failed>
    requires sealed { (row plan.now.version).sealed ≡ true }
    requires directory { IsDirectory plan.now.geometry entries.now }
    requires inside { plan.now.total ≤ (D.disk device.old).sectors }
    requires root { root ≡ root_of (units_in (D.disk device.old).seen plan.now generation []) }
    ensures root { IfOk result (λ new. new
        ≡ root_of (units_in (D.disk device.old).seen plan.now generation entries.now)) }
    ensures reads { ReadsOnly (D.disk device.old) (D.disk device.new) }
    ensures cause { Counts (D.disk device.old) (D.disk device.new) result }
{
    let mut block = [0; BLOCK_BYTES];
    let mut root = root;
    for index in 0..entries.len() {
        let more = with_entry(device, plan, generation, entries, index, root, &mut block)?;
        root = more;
    }
    Ok(root)
}

/// Returns the root of the next saved state, whose units are in the slots of these entries, or at home. `root` is that
/// of a state with all units at home. Without seals it stays, and no device call is made. Returns `Failed` exactly if
/// the device failed.
pub(crate) fn next_root<D: Device>(
    device: &mut D,
    plan: &Superblock,
    generation: u64,
    entries: &[Entry],
    root: Sums,
) -> Result<Sums, Failed>
    requires directory { IsDirectory plan.now.geometry entries.now }
    requires inside { plan.now.total ≤ (D.disk device.old).sectors }
    requires root { (row plan.now.version).sealed ≡ true → root
        ≡ root_of (units_in (D.disk device.old).seen plan.now generation []) }
    ensures root { IfOk result (λ new.
        IsNextRoot (D.disk device.old).seen plan.now generation entries.now root new) }
    ensures reads { ReadsOnly (D.disk device.old) (D.disk device.new) }
    ensures cause { Counts (D.disk device.old) (D.disk device.new) result }
{
    let sealed = plan.version().row().sealed;
    if sealed {
        with_entries(device, plan, generation, entries, root)
    } else {
        Ok(root)
    }
}
