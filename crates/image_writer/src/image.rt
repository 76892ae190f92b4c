// Writes an image over the content of a device.
ghost use Rattle.std.specs.Prelude.{◌≡◌, ◌-◌, ◌^◌, ◌<◌, ◌≤◌, [], length, true, IfOk, OnOk};
ghost use Rattle.device.specs.Disk.{Image};
ghost use Rattle.device.specs.Calls.{Counts, Elsewhere, Only};
ghost use Rattle.device.specs.Moments.{LeavesOnly};
ghost use Rattle.layout.specs.Directory.{IsDirectory};
ghost use Rattle.layout.specs.Header.{IsHeader};
ghost use Rattle.layout.specs.Denoted.{Encodes};
ghost use Rattle.layout.specs.Superblock.{IsPlan};
ghost use Rattle.layout.specs.Version.{row};
ghost use Rattle.layout.specs.declared.sealed.header.SealedHeader.{SealedHeader};
ghost use Rattle.checkpoint.specs.Saved.{Holds, kept_of};
ghost use Rattle.model.specs.Frame.{frames_in};
ghost use Rattle.model.specs.Keepable.{AreKeepable};
ghost use Rattle.model.specs.Sound.{object_count};
ghost use Rattle.image_writer.specs.Written.{EndInZeros, IsBeforeOrNone, IsLeftWriting};
ghost use Rattle.image_writer.specs.Parts.{HasFrames, IsHeaderOf, IsShut, IsWritten, LeavesShut};
ghost use Rattle.image_writer.specs.Written.{first_saved, first_state, state_of};

use crate::closing::close_all_gates;
use crate::homes::write_homes;
use crate::opening_sectors::{header_with, open_gates, write_headers, write_superblock};
use crate::slots::write_log;
use ckpt_log::Log;
use device::{Device, Failed};
use home_ranges::Home;
use layout::{CheckpointHeader, Entry, SealedHeader, Superblock};
use model::{Cap, Content, Geometry, ObjectHeader};

// Writes the homes of all objects, and the log half of a generation. Returns the header with their sums, which has the
// fields of `header`. All gates must be closed, and a crash at any moment leaves them closed.
fn write_frames<D: Device>(
    device: &mut D,
    superblock: &Superblock,
    header: CheckpointHeader,
    entries: &[Entry],
    headers: &[ObjectHeader],
    contents: &[Content<Cap>],
) -> Result<SealedHeader, Failed>
    requires plan { IsPlan superblock.now }
    requires directory { IsDirectory superblock.now.geometry entries.now }
    requires few { length entries.now ≤ superblock.now.geometry.log }
    requires headers { length headers.now ≡ object_count superblock.now.geometry }
    requires contents { length contents.now ≡ object_count superblock.now.geometry }
    requires inside { superblock.now.total ≤ (D.disk device.old).sectors }
    requires shut { LeavesShut superblock.now (D.disk device.old) }
    ensures frames { IfOk result (λ h. HasFrames superblock.now h entries.now (frames_in headers.now contents.now)
        (D.disk device.new).seen) }
    ensures header { IfOk result (λ h. IsHeaderOf superblock.now header h) }
    ensures shut { LeavesShut superblock.now (D.disk device.new) }
    ensures elsewhere { Elsewhere (row superblock.now.version).first_home
        (superblock.now.total - (row superblock.now.version).first_home) (D.disk device.old).seen (D.disk device.new).seen }
    ensures size { (D.disk device.new).sectors ≡ (D.disk device.old).sectors }
    ensures any_moment { LeavesOnly (D.disk device.old) (D.disk device.new) (λ c. IsShut superblock.now c) }
    ensures cause { Counts (D.disk device.old) (D.disk device.new) result }
{
    let home = Home::new(superblock);
    let log = Log::new(superblock);
    let Geometry { nodes, pages, .. } = superblock.geometry();
    let root = write_homes(device, &home, nodes + pages, headers, contents)?;
    let sums = write_log(
        device,
        &log,
        &home,
        header.generation,
        entries,
        headers,
        contents,
    )?;
    Ok(header_with(superblock, header, root, sums))
}

// Writes all of a new image except its gates, and syncs. The gates of all versions must be closed durably. Returns the
// header to be committed. A crash at any moment leaves an image that can't be opened.
fn write_closed<D: Device>(
    device: &mut D,
    superblock: &Superblock,
    header: CheckpointHeader,
    entries: &[Entry],
    headers: &[ObjectHeader],
    contents: &[Content<Cap>],
) -> Result<(), Failed>
    requires plan { IsPlan superblock.now }
    requires directory { IsDirectory superblock.now.geometry entries.now }
    requires few { length entries.now ≤ superblock.now.geometry.log }
    requires headers { length headers.now ≡ object_count superblock.now.geometry }
    requires contents { length contents.now ≡ object_count superblock.now.geometry }
    requires inside { superblock.now.total ≤ (D.disk device.old).sectors }
    requires shut { LeavesShut superblock.now (D.disk device.old) }
    ensures written { OnOk result ((h : SealedHeader) × (h.header ≡ header) × IsWritten superblock.now h entries.now
        (frames_in headers.now contents.now) (D.disk device.new).seen) }
    ensures durable { OnOk result (Only (D.disk device.new).seen (D.disk device.new)) }
    ensures elsewhere { Elsewhere 1 (superblock.now.total - 1) (D.disk device.old).seen (D.disk device.new).seen }
    ensures size { (D.disk device.new).sectors ≡ (D.disk device.old).sectors }
    ensures any_moment { LeavesOnly (D.disk device.old) (D.disk device.new) (λ c. IsShut superblock.now c) }
    ensures cause { Counts (D.disk device.old) (D.disk device.new) result }
{
    let committed = write_frames(device, superblock, header, entries, headers, contents)?;
    write_headers(device, superblock, committed)?;
    device.sync()
}

// Closes the gates of all versions, writes all of a new image except that its gates stay closed, and syncs. A crash at any
// moment leaves the old image, or none that opens.
fn write_parts<D: Device>(
    device: &mut D,
    superblock: &Superblock,
    header: CheckpointHeader,
    entries: &[Entry],
    headers: &[ObjectHeader],
    contents: &[Content<Cap>],
) -> Result<(), Failed>
    requires inside { superblock.now.total ≤ (D.disk device.old).sectors }
    requires directory { IsDirectory superblock.now.geometry entries.now }
    requires few { length entries.now ≤ superblock.now.geometry.log }
    requires contents { length contents.now ≡ length headers.now }
    requires keepable { AreKeepable superblock.now.geometry header.age
        (frames_in headers.now contents.now) }
    ensures written { OnOk result ((h : SealedHeader) × (h.header ≡ header) × IsWritten superblock.now h entries.now
        (frames_in headers.now contents.now) (D.disk device.new).seen) }
    ensures durable { OnOk result (Only (D.disk device.new).seen (D.disk device.new)) }
    ensures elsewhere { Elsewhere 0 superblock.now.total
        (D.disk device.old).seen (D.disk device.new).seen }
    ensures size { (D.disk device.new).sectors ≡ (D.disk device.old).sectors }
    ensures any_moment { LeavesOnly (D.disk device.old) (D.disk device.new)
        (λ c. IsBeforeOrNone (D.disk device.old) c) }
    ensures cause { Counts (D.disk device.old) (D.disk device.new) result }
{
    // Its contract says that the superblock is valid.
    let _total = superblock.total();
    close_all_gates(device)?;
    write_superblock(device, superblock)?;
    write_closed(device, superblock, header, entries, headers, contents)
}

/// Writes an image over the content of the device. Doesn't allocate. Each frame has the header and the
/// content of its object. The image holds:
///
/// - one committed checkpoint with this header, whose sequence number is the version's first, and with this directory
/// - at home, the frames of all objects
/// - in the slot of each entry, the frames of all objects that share the home of the entry's object
/// - in each cluster that has frames, zeros after them
/// - in a version with seals, the seal of each block, their root, and the sums of the directory
///
/// After `Ok` a read returns what was written, even after a crash. There are four steps, each durable before the
/// next begins:
///
/// 1. It closes the old gates, of whatever version. A crash leaves the old image as it was, or no committed header.
/// 2. It writes the superblock. A crash leaves no committed header, so nothing opens.
/// 3. It writes the rest. A crash leaves no committed header.
/// 4. It opens the gate of the new header; in a version with seals, the gates of two headers with the same state. A crash
///    leaves no committed header, or the new image.
///
/// Returns `Failed` exactly if the device failed; then the image's sectors may hold any bytes. Even
/// then a crash leaves the old image, the new one, or none that opens. Sectors from the image's total
/// on never change.
///
/// The device must have at least as many sectors as the superblock says. The header must be within the limits of the
/// superblock, the directory must be valid and as long as the header says, and an image of the header's age may hold
/// each frame.
pub fn write_saved<D: Device>(
    device: &mut D,
    superblock: &Superblock,
    header: CheckpointHeader,
    entries: &[Entry],
    headers: &[ObjectHeader],
    contents: &[Content<Cap>],
) -> Result<(), Failed>
    requires inside { superblock.now.total ≤ (D.disk device.old).sectors }
    requires header { IsHeader (row superblock.now.version).first_sequence superblock.now.geometry.log header }
    requires first { header.sequence ≡ (row superblock.now.version).first_sequence }
    requires directory { IsDirectory superblock.now.geometry entries.now }
    requires count { length entries.now ≡ header.entries }
    requires contents { length contents.now ≡ length headers.now }
    requires keepable { AreKeepable superblock.now.geometry header.age
        (frames_in headers.now contents.now) }
    ensures denotes { OnOk result (Encodes (D.disk device.new).seen (D.disk device.new).sectors
        (state_of superblock.now header entries.now (frames_in headers.now contents.now))) }
    ensures crash { OnOk result ((c : Image) → (D.disk device.new).may_leave c →
        Encodes c (D.disk device.new).sectors
        (state_of superblock.now header entries.now (frames_in headers.now contents.now))) }
    ensures zeros { OnOk result ((c : Image) → (D.disk device.new).may_leave c →
        EndInZeros superblock.now header.generation entries.now c) }
    ensures elsewhere { Elsewhere 0 superblock.now.total
        (D.disk device.old).seen (D.disk device.new).seen }
    ensures size { (D.disk device.new).sectors ≡ (D.disk device.old).sectors }

    // A crash at any moment leaves no committed header, or the whole image, or an image that it could have
    // left before the call. The last may differ in the gates, but the same header is committed.
    ensures any_moment { LeavesOnly (D.disk device.old) (D.disk device.new)
        (λ c. IsLeftWriting (D.disk device.old) (kept_of
        (state_of superblock.now header entries.now (frames_in headers.now contents.now))) c) }
    ensures cause { Counts (D.disk device.old) (D.disk device.new) result }
{
    write_parts(device, superblock, header, entries, headers, contents)?;
    open_gates(device, superblock)
}

/// Writes a new image over the content of the device, in the steps of `write_saved`. Doesn't allocate. All
/// frames are at home, each with the header and the content of its object. The committed checkpoint has this
/// age, generation 0, the version's first sequence number and no entries.
///
/// After `Ok` a read returns what was written, even after a crash.
///
/// Returns `Failed` exactly if the device failed; then the image's sectors may hold any bytes. Even
/// then a crash leaves the old image, the new one, or none that opens. Sectors from the image's total
/// on never change.
///
/// The device must have at least as many sectors as the superblock says. The age is at most `MAX_AGE`, and an image of
/// this age may hold each frame.
#[tactic(auto, using(crate::proofs::FreshImages::header_fits, crate::proofs::FreshImages::no_directory))]
pub fn write_image<D: Device>(
    device: &mut D,
    superblock: &Superblock,
    age: u64,
    headers: &[ObjectHeader],
    contents: &[Content<Cap>],
) -> Result<(), Failed>
    requires inside { superblock.now.total ≤ (D.disk device.old).sectors }
    requires age { age ≤ 2 ^ 62 }
    requires contents { length contents.now ≡ length headers.now }
    requires keepable { AreKeepable superblock.now.geometry age
        (frames_in headers.now contents.now) }
    ensures denotes { OnOk result (Encodes (D.disk device.new).seen (D.disk device.new).sectors
        (first_state superblock.now age (frames_in headers.now contents.now))) }
    ensures holds { OnOk result (Holds (D.disk device.new).sectors (D.disk device.new).seen
        (first_saved superblock.now.geometry age (frames_in headers.now contents.now))) }
    ensures crash { OnOk result ((c : Image) → (D.disk device.new).may_leave c →
        Holds (D.disk device.new).sectors c
        (first_saved superblock.now.geometry age (frames_in headers.now contents.now))) }
    ensures zeros { OnOk result ((c : Image) → (D.disk device.new).may_leave c →
        EndInZeros superblock.now 0 [] c) }
    ensures elsewhere { Elsewhere 0 superblock.now.total
        (D.disk device.old).seen (D.disk device.new).seen }
    ensures size { (D.disk device.new).sectors ≡ (D.disk device.old).sectors }

    // A crash at any moment leaves no committed header, or the new image, or an image that it could have left
    // before the call. The last may differ in the gates, but the same header is committed.
    ensures any_moment { LeavesOnly (D.disk device.old) (D.disk device.new)
        (λ c. IsLeftWriting (D.disk device.old)
        (first_saved superblock.now.geometry age (frames_in headers.now contents.now)) c) }
    ensures cause { Counts (D.disk device.old) (D.disk device.new) result }
{
    let header = CheckpointHeader {
        sequence: superblock.version().row().first_sequence,
        generation: 0,
        entries: 0,
        age,
    };
    write_saved(device, superblock, header, &[], headers, contents)
}
