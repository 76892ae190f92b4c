// The directories of the log.
ghost use Rattle.std.specs.Prelude.{◌≡◌, ◌+◌, ◌*◌, ◌^◌, ◌<◌, ◌≤◌, List, length, take, IfErr, IfNone, IfOk, IfSome};
ghost use Rattle.std.specs.Prelude.{OnOk, Some};
ghost use Rattle.device.specs.Calls.{Counts};
ghost use Rattle.layout.specs.declared.directory.Entry.{Entry};
ghost use Rattle.layout.specs.Directory.{AllFitting, IsDirectory};
ghost use Rattle.layout.specs.Fault.{CountsOpen};
ghost use Rattle.layout.specs.Calls.{ReadsOnly, WritesAt};
ghost use Rattle.layout.specs.sealed.Directory.{entries_bytes};
ghost use Rattle.layout.specs.sealed.Directory.{AreEntries, HasEntries};
ghost use Rattle.ckpt_log.specs.sealed.Directory.{AreEntriesIn, IsBadDirectory, IsNoDirectory};
ghost use Rattle.ckpt_log.specs.sealed.Directory.{IsPieceIn, TouchesAt};
ghost use Rattle.layout.specs.sealed.Directory.{directory_length, piece, sums_of_entries};
ghost use Rattle.layout.specs.sealed.Sector.{seal_in};

use crate::sector::read_sector;
use device::{Device, Failed, SECTOR_SIZE};
use layout::{
    BadImage, ENTRY_BYTES, Entry, OpenFault, SECTOR_ENTRIES, add_sector, decode_directory,
    decode_entries, encode_directory, encode_entries, write_sectors,
};
use model::Geometry;
use seal::{SUMS_BYTES, Sums, sums_of};

// How many bytes the entries of the greatest directory take.
const MAX_BYTES: usize = 65536;

// Returns the entries of sector `k`.
#[tactic(auto, using(crate::proofs::SealedPieces::last_piece, crate::proofs::SealedPieces::full_piece))]
fn piece(entries: &[Entry], k: usize) -> &[Entry]
    requires { k < directory_length (length entries.now) }
    ensures value { result.now ≡ piece entries.now k }
    ensures few { length result.now ≤ 30 }
{
    let start = SECTOR_ENTRIES * k;
    if entries.len() - start < SECTOR_ENTRIES {
        &entries[start..]
    } else {
        &entries[start..start + SECTOR_ENTRIES]
    }
}

// Returns the sums in the seal of a sealed sector.
fn seal_in(sector: &[u8]) -> Sums
    requires { length sector.now ≡ 512 }
    ensures { result ≡ seal_in sector.now }
{
    sums_of(&sector[..SECTOR_SIZE - SUMS_BYTES])
}

// Writes a sector of at most 30 entries, and returns the sums in its seal.
fn write_piece<D: Device>(device: &mut D, at: u64, entries: &[Entry]) -> Result<Sums, Failed>
    requires few { length entries.now ≤ 30 }
    requires inside { at < (D.disk device.old).sectors }
    ensures written { OnOk result ((D.disk device.new).seen at ≡ entries_bytes entries.now) }
    ensures seal { IfOk result (λ seal. seal ≡ seal_in (entries_bytes entries.now)) }
    ensures writes { WritesAt at 1 (D.disk device.old) (D.disk device.new) }
    ensures cause { Counts (D.disk device.old) (D.disk device.new) result }
{
    let mut sector = [0; SECTOR_SIZE];
    encode_entries(entries, &mut sector);
    write_sectors(device, at, 1, &sector)?;
    Ok(seal_in(&sector))
}

/// Writes a directory into the sectors from `at` on, 30 entries in each, and returns its sums. All other
/// sectors keep their bytes, and what a crash may leave in them doesn't change.
///
/// It allocates nothing. If there are no entries it doesn't call the device. Returns `Failed` exactly if the device
/// failed; then the sectors of the directory may hold any bytes.
pub(crate) fn write_directory<D: Device>(
    device: &mut D,
    at: u64,
    entries: &[Entry],
) -> Result<Sums, Failed>
    requires inside { at + directory_length (length entries.now) ≤ (D.disk device.old).sectors }
    ensures written { OnOk result (AreEntries (D.disk device.new).seen at entries.now) }
    ensures sums { IfOk result (λ sums. sums ≡ sums_of_entries entries.now) }
    ensures untouched { length entries.now ≡ 0 → device.new ≡ device.old }
    ensures touches { TouchesAt at (directory_length (length entries.now)) (D.disk device.old) (D.disk device.new) }
    ensures cause { Counts (D.disk device.old) (D.disk device.new) result }
{
    let count = (entries.len() + SECTOR_ENTRIES - 1) / SECTOR_ENTRIES;
    let mut sums = Sums { a: 0, b: 0, c: 0 };
    for k in 0..count {
        let seal = write_piece(device, at + k as u64, piece(entries, k))?;
        sums = add_sector(sums, seal);
    }
    Ok(sums)
}

// Reads a sector of `into.len()` entries, at most 30. Returns the sums in its seal, or `None` if it isn't
// such a sector.
fn read_piece<D: Device>(
    device: &mut D,
    at: u64,
    into: &mut [Entry],
) -> Result<Option<Sums>, Failed>
    requires few { length into.old ≤ 30 }
    requires inside { at < (D.disk device.old).sectors }
    ensures found { IfOk result (λ seal. IsPieceIn ((D.disk device.old).seen at) (length into.old) into.new seal) }
    ensures reads { ReadsOnly (D.disk device.old) (D.disk device.new) }
    ensures cause { Counts (D.disk device.old) (D.disk device.new) result }
{
    let mut sector = [0; SECTOR_SIZE];
    read_sector(device, at, &mut sector)?;
    Ok(match decode_entries(&sector, into) {
        Some(_) => Some(seal_in(&sector)),
        None => None,
    })
}

// Returns the index after the last entry of sector `k`, if there are `count` entries.
fn piece_end(count: usize, k: usize) -> usize
    requires { k < directory_length count }
    ensures after { 30 * k ≤ result }
    ensures few { result ≤ 30 * k + 30 }
    ensures inside { result ≤ count }
    ensures whole { result < 30 * k + 30 → result ≡ count }
{
    let start = SECTOR_ENTRIES * k;
    if count - start < SECTOR_ENTRIES {
        count
    } else {
        start + SECTOR_ENTRIES
    }
}

/// Reads sector `k` into its part of `into`. Returns the sums in its seal, or `None` if it isn't a sector of
/// entries. Earlier entries don't change.
pub fn read_next<D: Device>(
    device: &mut D,
    at: u64,
    k: usize,
    into: &mut [Entry],
) -> Result<Option<Sums>, Failed>
    requires there { k < directory_length (length into.old) }
    requires inside { at + k < (D.disk device.old).sectors }
    ensures some { IfOk result (λ found. IfSome found (λ seal.
        ((D.disk device.old).seen (at + k) ≡ entries_bytes (piece into.new k))
        × (seal ≡ seal_in (entries_bytes (piece into.new k))))) }
    ensures none { IfOk result (λ found. IfNone found ((ds : List Entry) → length ds ≡ length into.old →
        AllFitting ds → (D.disk device.old).seen (at + k) ≡ entries_bytes (piece ds k) → ⊥)) }
    ensures front { take (30 * k) into.new ≡ take (30 * k) into.old }
    ensures reads { ReadsOnly (D.disk device.old) (D.disk device.new) }
    ensures cause { Counts (D.disk device.old) (D.disk device.new) result }
{
    let start = SECTOR_ENTRIES * k;
    let end = piece_end(into.len(), k);
    read_piece(device, at + k as u64, &mut into[start..end])
}

/// Reads a directory of `into.len()` entries. Returns its sums, or `None` if some sector isn't one of entries.
pub fn read_entries<D: Device>(
    device: &mut D,
    at: u64,
    into: &mut [Entry],
) -> Result<Option<Sums>, Failed>
    requires inside { at + directory_length (length into.old) ≤ (D.disk device.old).sectors }
    ensures found { IfOk result (λ sums. AreEntriesIn (D.disk device.old).seen at (length into.old) into.new sums) }
    ensures reads { ReadsOnly (D.disk device.old) (D.disk device.new) }
    ensures cause { Counts (D.disk device.old) (D.disk device.new) result }
{
    let count = (into.len() + SECTOR_ENTRIES - 1) / SECTOR_ENTRIES;
    let mut sums = Sums { a: 0, b: 0, c: 0 };
    for k in 0..count {
        let found = read_next(device, at, k, into)?;
        match found {
            Some(seal) => sums = add_sector(sums, seal),
            None => return Ok(None),
        }
    }
    Ok(Some(sums))
}

// A lemma as a function, which does nothing: the numbers of an entry fit their bytes.
fn entry_fits(entry: Entry)
    ensures { (entry.object < 2 ^ 64) × (entry.slot < 2 ^ 64) }
{}

/// A lemma as a function, which changes nothing: the numbers of all entries fit their bytes.
pub fn entries_fit(entries: &[Entry])
    ensures { AllFitting entries.now }
{
    for entry in entries {
        entry_fits(*entry);
    }
}

// Checks that entries are a directory: each is possible on the device, the objects rise, and no slot comes
// twice. `Ok` doesn't change them. Returns `BadDirectory` if they are no directory; then they may be any
// entries.
fn check_entries(geometry: Geometry, entries: &mut [Entry]) -> Result<(), BadImage>
    requires log { geometry.log ≤ 4096 }
    requires few { length entries.old ≤ geometry.log }
    ensures fits { AllFitting entries.old }
    ensures found { OnOk result (IsDirectory geometry entries.new × (entries.old ≡ entries.new)) }
    ensures refused { IfErr result (λ e. (e ≡ BadImage.BadDirectory) × (IsDirectory geometry entries.old → ⊥)) }
{
    entries_fit(entries);
    let mut bytes = [0; MAX_BYTES];
    let run = &mut bytes[..ENTRY_BYTES * entries.len()];
    encode_directory(entries, run);
    decode_directory(run, geometry, entries)
}

// Checks entries that were read, and the sums of their sectors (`None` if some sector wasn't one of entries).
#[tactic(auto, using(crate::proofs::SealedChecks::none, crate::proofs::SealedChecks::other, crate::proofs::SealedChecks::refused))]
fn check_directory(
    geometry: Geometry,
    found: Option<Sums>,
    sums: Sums,
    entries: &mut [Entry],
) -> Result<(), BadImage>
    requires log { geometry.log ≤ 4096 }
    requires few { length entries.old ≤ geometry.log }
    ensures found { OnOk result (IsDirectory geometry entries.new × (entries.old ≡ entries.new)) }
    ensures sums { OnOk result (found ≡ Some sums) }
    ensures refused { IfErr result (λ e. IsNoDirectory geometry found sums entries.old e) }
{
    match found {
        Some(other) => {
            if other == sums {
                check_entries(geometry, entries)
            } else {
                Err(BadImage::BadDirectory)
            }
        }
        None => Err(BadImage::BadDirectory),
    }
}

/// Reads a directory of `into.len()` entries from the sectors from `at` on, and checks it: each entry must be
/// possible on the device, the objects must rise, no slot may come twice, and the seals must add up to
/// `sums`.
///
/// It allocates nothing. Returns `Failed` exactly if the device failed, and `BadDirectory` exactly if the sectors are
/// no such directory. After either, `into` may hold any entries.
#[tactic(auto, using(crate::proofs::SealedDirectories::has_entries))]
pub(crate) fn read_directory<D: Device>(
    device: &mut D,
    at: u64,
    geometry: Geometry,
    sums: Sums,
    into: &mut [Entry],
) -> Result<(), OpenFault>
    requires log { geometry.log ≤ 4096 }
    requires few { length into.old ≤ geometry.log }
    requires inside { at + directory_length (length into.old) ≤ (D.disk device.old).sectors }
    ensures found { OnOk result (HasEntries (D.disk device.old).seen at geometry sums into.new) }
    ensures refused { IfErr result (λ e. IsBadDirectory (D.disk device.old).seen at geometry sums (length into.old) e) }
    ensures reads { ReadsOnly (D.disk device.old) (D.disk device.new) }
    ensures cause { CountsOpen (D.disk device.old) (D.disk device.new) result }
{
    let found = read_entries(device, at, into)?;
    check_directory(geometry, found, sums, into)?;
    Ok(())
}
