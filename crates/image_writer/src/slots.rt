// Writes the log of an image: the slots of its directory's entries, and the directory.
ghost use Rattle.std.specs.Prelude.{◌≡◌, ◌*◌, ◌≤◌, length, IfOk, OnOk};
ghost use Rattle.device.specs.Calls.{Counts, Elsewhere};
ghost use Rattle.device.specs.Moments.{LeavesOnly};
ghost use Rattle.layout.specs.Denoted.{AreEntriesOf, sums_if};
ghost use Rattle.layout.specs.Directory.{IsDirectory};
ghost use Rattle.layout.specs.Image.{half_sector};
ghost use Rattle.layout.specs.Version.{row};
ghost use Rattle.layout.specs.Superblock.{IsPlan, half_extent};
ghost use Rattle.model.specs.Frame.{frames_in};
ghost use Rattle.model.specs.Sound.{object_count};
ghost use Rattle.image_writer.specs.Parts.{AreInSlots, IsShut, LeavesShut};

use crate::blocks::write_shared;
use ckpt_log::Log;
use device::{Device, Failed};
use home_ranges::Home;
use layout::Entry;
use model::{Cap, Content, ObjectHeader};
use seal::Sums;

// Writes the slots of all entries of a directory. All gates must be closed, and a crash at any moment leaves them closed.
#[tactic(auto, using(crate::proofs::SlotFrames::stays_in_half))]
fn write_slots<D: Device>(
    device: &mut D,
    log: &Log,
    home: &Home,
    generation: u64,
    entries: &[Entry],
    headers: &[ObjectHeader],
    contents: &[Content<Cap>],
) -> Result<(), Failed>
    requires plan { IsPlan home.now }
    requires same { log.now ≡ home.now }
    requires directory { IsDirectory home.now.geometry entries.now }
    requires headers { length headers.now ≡ object_count home.now.geometry }
    requires contents { length contents.now ≡ object_count home.now.geometry }
    requires inside { home.now.total ≤ (D.disk device.old).sectors }
    requires shut { LeavesShut home.now (D.disk device.old) }
    ensures slots { OnOk result (AreInSlots home.now generation entries.now
        (frames_in headers.now contents.now) (length entries.now) (D.disk device.new).seen) }
    ensures shut { LeavesShut home.now (D.disk device.new) }
    ensures elsewhere { Elsewhere (half_sector home.now generation) (9 * home.now.geometry.log)
        (D.disk device.old).seen (D.disk device.new).seen }
    ensures size { (D.disk device.new).sectors ≡ (D.disk device.old).sectors }
    ensures any_moment { LeavesOnly (D.disk device.old) (D.disk device.new) (λ c. IsShut home.now c) }
    ensures cause { Counts (D.disk device.old) (D.disk device.new) result }
{
    for index in 0..entries.len() {
        let entry = entries[index];
        let at = log.slot_sector(generation, entry.slot);
        let _seal = write_shared(device, home, at, entry.object, headers, contents)?;
    }
    Ok(())
}

/// Writes the log half of a generation: the slots of a directory's entries, and the directory. Each slot gets the
/// frames of all objects that share the home of the entry's object. Returns the sums of the directory. All gates must be
/// closed, and a crash at any moment leaves them closed. Returns `Failed` exactly if the device failed.
pub(crate) fn write_log<D: Device>(
    device: &mut D,
    log: &Log,
    home: &Home,
    generation: u64,
    entries: &[Entry],
    headers: &[ObjectHeader],
    contents: &[Content<Cap>],
) -> Result<Sums, Failed>
    requires plan { IsPlan home.now }
    requires same { log.now ≡ home.now }
    requires directory { IsDirectory home.now.geometry entries.now }
    requires few { length entries.now ≤ home.now.geometry.log }
    requires headers { length headers.now ≡ object_count home.now.geometry }
    requires contents { length contents.now ≡ object_count home.now.geometry }
    requires inside { home.now.total ≤ (D.disk device.old).sectors }
    requires shut { LeavesShut home.now (D.disk device.old) }
    ensures slots { OnOk result (AreInSlots home.now generation entries.now
        (frames_in headers.now contents.now) (length entries.now) (D.disk device.new).seen) }
    ensures directory { OnOk result (AreEntriesOf (D.disk device.new).seen home.now generation entries.now) }
    ensures sums { IfOk result (λ sums. sums ≡ sums_if (row home.now.version).sealed entries.now) }
    ensures shut { LeavesShut home.now (D.disk device.new) }
    ensures elsewhere { Elsewhere (half_sector home.now generation)
        (half_extent home.now.version home.now.geometry 0).length (D.disk device.old).seen
        (D.disk device.new).seen }
    ensures size { (D.disk device.new).sectors ≡ (D.disk device.old).sectors }
    ensures any_moment { LeavesOnly (D.disk device.old) (D.disk device.new) (λ c. IsShut home.now c) }
    ensures cause { Counts (D.disk device.old) (D.disk device.new) result }
{
    write_slots(device, log, home, generation, entries, headers, contents)?;
    log.store_directory(device, generation, entries)
}
