// Finding what is wrong with a directory.
ghost use Rattle.std.specs.Prelude.{◌≡◌, ℕ, ◌+◌, ◌*◌, ◌<◌, ◌≤◌, length, false, true, List, IfErr, IfNone, IfOk};
ghost use Rattle.std.specs.Prelude.{IfSome, OnOk};
ghost use Rattle.image_explainer.specs.SectorFinding.{IsNoReason};
ghost use Rattle.layout.specs.Calls.{ReadsOnly};
ghost use Rattle.layout.specs.Denoted.{HasBadDirectory, HasHeader, HasPlan, sums_if};
ghost use Rattle.layout.specs.Directory.{AllFitting, IsDirectory, directory_bytes, entry_at};
ghost use Rattle.layout.specs.Fault.{CountsOpen};
ghost use Rattle.layout.specs.Version.{row};
ghost use Rattle.layout.specs.declared.directory.Entry.{Entry};
ghost use Rattle.layout.specs.declared.sealed.header.SealedHeader.{SealedHeader};
ghost use Rattle.layout.specs.sealed.Directory.{AreEntries, directory_length};
ghost use Rattle.image_explainer.specs.SectorBreaking.{BreaksDirectory, HoldsEntries, IsAmong, IsFault, IsFirstEntry};
ghost use Rattle.image_explainer.specs.SectorBreaking.{entry_of};
ghost use Rattle.image_explainer.specs.SectorFinding.{IsPieceFault, IsSealPart};

use crate::sectors::fault::{DirectoryPart, SectorFault};
use crate::sectors::reading::{number_at, read_header};
use ckpt_log::sealed::{entries_fit, read_entries, read_next};
use ckpt_log::{Log, read_sector};
use device::{Device, SECTOR_SIZE};
use layout::{
    ENTRY_BYTES, Entry, OpenFault, SECTOR_ENTRIES, SealedHeader, Superblock, directory_length,
    read_sectors,
};
use model::Geometry;
use seal::is_sealed;

// How many bytes the greatest directory takes.
const MAX_BYTES: usize = 70144;

// Puts the entries of a directory into `into`, without checking them.
fn take_entries(bytes: &[u8], into: &mut [Entry])
    requires { length bytes.now ≡ 16 * length into.old }
    ensures bytes { bytes.now ≡ directory_bytes into.new }
    ensures fits { AllFitting into.new }
    ensures size { length into.new ≡ length into.old }
{
    for i in 0..into.len() {
        let at = ENTRY_BYTES * i;
        into[i] = Entry {
            object: number_at(bytes, at),
            slot: number_at(bytes, at + 8),
        };
    }
}

// Returns the first entry before `index` that has this slot, or `None`.
fn slot_before(entries: &[Entry], index: usize, slot: u64) -> Option<usize>
    requires { index ≤ length entries.now }
    ensures some { IfSome result (λ j. (j < index) × ((entry_at entries.now j).slot ≡ slot)) }
    ensures none { IfNone result ((j : ℕ) → j < index → (entry_at entries.now j).slot ≡ slot → ⊥) }
{
    for j in 0..index {
        if entries[j].slot == slot {
            return Some(j);
        }
    }
    None
}

// Returns what is wrong with an entry, by itself or together with those before it, or `None`.
fn entry_part(geometry: Geometry, entries: &[Entry], index: usize) -> Option<DirectoryPart>
    requires index { index < length entries.now }
    requires fits { AllFitting entries.now }
    requires few { geometry.nodes + geometry.pages ≤ 8192 }
    ensures some { IfSome result (BreaksDirectory geometry entries.now) }
    ensures own { IfSome result (λ part. entry_of part ≡ index) }
    ensures none { IfNone result (IsAmong geometry entries.now index) }
{
    let Entry { object, slot } = entries[index];
    let entry = index as u64;
    if object >= geometry.nodes + geometry.pages {
        return Some(DirectoryPart::Object { entry, object });
    }
    if slot >= geometry.log {
        return Some(DirectoryPart::Slot { entry, slot });
    }
    if index > 0 && entries[index - 1].object >= object {
        return Some(DirectoryPart::Order {
            entry,
            object,
            before: entries[index - 1].object,
        });
    }
    match slot_before(entries, index, slot) {
        Some(first) => Some(DirectoryPart::Shared {
            first: first as u64,
            second: entry,
            slot,
        }),
        None => None,
    }
}

// Returns what is wrong with the first faulty entry of entries that are no directory.
fn bad_entry(geometry: Geometry, entries: &[Entry]) -> DirectoryPart
    requires fits { AllFitting entries.now }
    requires few { geometry.nodes + geometry.pages ≤ 8192 }
    requires bad { IsDirectory geometry entries.now → ⊥ }
    ensures breaks { BreaksDirectory geometry entries.now result }
    ensures first { IsFirstEntry geometry entries.now result }
{
    for index in 0..entries.len() {
        if let Some(part) = entry_part(geometry, entries, index) {
            return part;
        }
    }
    unreachable!()
}

// Reads the entries of the directory of versions 1 and 2, without checking them.
fn read_plain<D: Device>(
    device: &mut D,
    plan: &Superblock,
    header: SealedHeader,
    into: &mut [Entry],
) -> Result<(), OpenFault>
    requires plan { HasPlan (D.disk device.old).seen (D.disk device.old).sectors plan.now }
    requires plain { (row plan.now.version).sealed ≡ false }
    requires header { HasHeader (D.disk device.old).seen plan.now header }
    requires count { length into.old ≡ header.header.entries }
    ensures found { OnOk result (HoldsEntries (D.disk device.old).seen plan.now header into.new) }
    ensures sums { OnOk result (sums_if (row plan.now.version).sealed into.new ≡ header.directory) }
    ensures size { length into.new ≡ length into.old }
    ensures refused { IfErr result IsNoReason }
    ensures reads { ReadsOnly (D.disk device.old) (D.disk device.new) }
    ensures cause { CountsOpen (D.disk device.old) (D.disk device.new) result }
{
    let at = Log::new(plan).directory_sector(header.header.generation);
    let sectors = directory_length(plan.version(), into.len() as u64) as usize;
    let mut bytes = [0; MAX_BYTES];
    let run = &mut bytes[..SECTOR_SIZE * sectors];
    read_sectors(device, at, sectors, run)?;
    take_entries(&run[..ENTRY_BYTES * into.len()], into);
    Ok(())
}

// Returns what is wrong with a sector that isn't one of entries.
fn piece_part<D: Device>(device: &mut D, at: u64) -> Result<DirectoryPart, OpenFault>
    requires inside { at < (D.disk device.old).sectors }
    ensures found { IfOk result (IsSealPart ((D.disk device.old).seen at)) }
    ensures refused { IfErr result IsNoReason }
    ensures reads { ReadsOnly (D.disk device.old) (D.disk device.new) }
    ensures cause { CountsOpen (D.disk device.old) (D.disk device.new) result }
{
    let mut sector = [0; SECTOR_SIZE];
    read_sector(device, at, &mut sector)?;
    if is_sealed(&sector) {
        Ok(DirectoryPart::Rest)
    } else {
        Ok(DirectoryPart::Unsealed)
    }
}

// Returns what is wrong with the first sector, from `at` on, that isn't one of entries.
fn find_piece<D: Device>(
    device: &mut D,
    at: u64,
    into: &mut [Entry],
) -> Result<SectorFault, OpenFault>
    requires inside { at + directory_length (length into.old) ≤ (D.disk device.old).sectors }
    requires bad { (es : List Entry) → length es ≡ length into.old → AllFitting es
        → AreEntries (D.disk device.old).seen at es → ⊥ }
    ensures found { IfOk result (IsPieceFault (D.disk device.old).seen at (length into.old)) }
    ensures refused { IfErr result IsNoReason }
    ensures reads { ReadsOnly (D.disk device.old) (D.disk device.new) }
    ensures cause { CountsOpen (D.disk device.old) (D.disk device.new) result }
{
    let count = (into.len() + SECTOR_ENTRIES - 1) / SECTOR_ENTRIES;
    for k in 0..count {
        let found = read_next(device, at, k, into)?;
        if found.is_none() {
            let sector = at + k as u64;
            let part = piece_part(device, sector)?;
            return Ok(SectorFault::Directory { sector, part });
        }
    }
    entries_fit(into);
    unreachable!()
}

// Returns what is wrong with the directory of versions 1 and 2.
fn find_plain<D: Device>(
    device: &mut D,
    plan: &Superblock,
    header: SealedHeader,
    into: &mut [Entry],
) -> Result<SectorFault, OpenFault>
    requires plan { HasPlan (D.disk device.old).seen (D.disk device.old).sectors plan.now }
    requires plain { (row plan.now.version).sealed ≡ false }
    requires header { HasHeader (D.disk device.old).seen plan.now header }
    requires count { length into.old ≡ header.header.entries }
    requires bad { HasBadDirectory (D.disk device.old).seen plan.now header }
    ensures found { IfOk result (IsFault (D.disk device.old).sectors (D.disk device.old).seen) }
    ensures refused { IfErr result IsNoReason }
    ensures reads { ReadsOnly (D.disk device.old) (D.disk device.new) }
    ensures cause { CountsOpen (D.disk device.old) (D.disk device.new) result }
{
    read_plain(device, plan, header, into)?;
    Ok(SectorFault::Directory {
        sector: Log::new(plan).directory_sector(header.header.generation),
        part: bad_entry(plan.geometry(), into),
    })
}

// Returns what is wrong with the directory of version 3: its first wrong sector, its sums, or its first wrong entry.
fn find_sealed<D: Device>(
    device: &mut D,
    plan: &Superblock,
    header: SealedHeader,
    into: &mut [Entry],
) -> Result<SectorFault, OpenFault>
    requires plan { HasPlan (D.disk device.old).seen (D.disk device.old).sectors plan.now }
    requires sealed { (row plan.now.version).sealed ≡ true }
    requires header { HasHeader (D.disk device.old).seen plan.now header }
    requires count { length into.old ≡ header.header.entries }
    requires bad { HasBadDirectory (D.disk device.old).seen plan.now header }
    ensures found { IfOk result (IsFault (D.disk device.old).sectors (D.disk device.old).seen) }
    ensures refused { IfErr result IsNoReason }
    ensures reads { ReadsOnly (D.disk device.old) (D.disk device.new) }
    ensures cause { CountsOpen (D.disk device.old) (D.disk device.new) result }
{
    let sector = Log::new(plan).directory_sector(header.header.generation);
    let Some(sums) = read_entries(device, sector, into)? else {
        return find_piece(device, sector, into);
    };
    entries_fit(into);
    let part = if sums == header.directory {
        bad_entry(plan.geometry(), into)
    } else {
        DirectoryPart::Sums
    };
    Ok(SectorFault::Directory { sector, part })
}

/// Returns what is wrong with the directory of the committed header.
pub(crate) fn find_directory<D: Device>(
    device: &mut D,
    plan: &Superblock,
    entries: &mut [Entry],
) -> Result<SectorFault, OpenFault>
    requires plan { HasPlan (D.disk device.old).seen (D.disk device.old).sectors plan.now }
    requires room { 4096 ≤ length entries.old }
    requires bad { (h : SealedHeader) × HasHeader (D.disk device.old).seen plan.now h
        × HasBadDirectory (D.disk device.old).seen plan.now h }
    ensures found { IfOk result (IsFault (D.disk device.old).sectors (D.disk device.old).seen) }
    ensures refused { IfErr result IsNoReason }
    ensures reads { ReadsOnly (D.disk device.old) (D.disk device.new) }
    ensures cause { CountsOpen (D.disk device.old) (D.disk device.new) result }
{
    let header = read_header(device, plan)?;
    let named = &mut entries[..header.header.entries as usize];
    if plan.version().row().sealed {
        find_sealed(device, plan, header, named)
    } else {
        find_plain(device, plan, header, named)
    }
}
