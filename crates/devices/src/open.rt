// Opens and makes devices in files.
ghost use Rattle.std.specs.Prelude.{◌≡◌, ◌≢◌, ◌⊎◌, ◌<◌, ◌≤◌, ◌*◌, ◌/◌, ℕ, [], ◌∷◌, length, replicate, take};
ghost use Rattle.std.specs.Prelude.{IfErr, IfOk, IfSome, IsErrOf, OnOk, OnErr};
ghost use Rattle.device.specs.Calls.{Agrees, Only, sectors_of, image_of};
ghost use Rattle.devices.specs.FileDevice.{file_disk, raw_file};
ghost use Rattle.devices.specs.OpeningCalls.{listed, locked, measured, resized, synced, Gets, GetsFrom, Loads};
ghost use Rattle.devices.specs.OpeningCalls.{LoadsLocked, TakesLock, MakesZeros, KeepsLength, IsOpened, IsMade};
ghost use Rattle.devices.specs.OpeningCalls.{FailsToMake, Mirrors, StopsWithin, got, sectors_in};
ghost use Rattle.devices.specs.CallErrors.{HasCause};
ghost use Rattle.devices.specs.RawCalls.{Adds};

use crate::fault::FileFault;
use crate::file_device::CopiedFile;
use crate::host_file::HostFile;
use crate::openable::{Access, Lock, LockAnswer, Openable};
use crate::sector_copy::SectorCopy;
use device::{MAX_SECTORS, SECTOR_SIZE};
use std::alloc::Global;
use std::io::{self, ErrorKind};

// How many sectors a device has in a file of this number of bytes.
fn device_sectors(bytes: u64) -> u64
    ensures value { result ≡ sectors_in bytes }
    ensures few { result ≤ 131072 }
{
    (bytes / SECTOR_SIZE as u64).min(MAX_SECTORS)
}

// How many sectors are read at once.
const READ_SECTORS: usize = 128;

// Reads at least one byte of the file from `at` on, and returns how many. An interrupted call is repeated.
#[tactic(auto, using(crate::proofs::Openings::keeps_length))]
fn get_some<F: Openable>(file: &mut F, at: u64, into: &mut [u8]) -> Result<usize, FileFault>
    requires { 0 < length into.old }
    ensures bound { IfOk result (λ n. (0 < n) × (n ≤ length into.new)) }
    ensures ok { IfOk result (λ n. Adds (F.opening file.old) (F.opening file.new) (got at (take n into.new) ∷ [])) }
    ensures length { KeepsLength (F.opening file.old) (F.opening file.new) }
    ensures fault { IfErr result (λ fault. fault ≡ FileFault.Io) }
    ensures cause { HasCause (F.errors file.old) (F.errors file.new) result }
    ensures calls { F.calls file.new ≡ F.calls file.old }
{
    for tries in 0..u64::MAX {
        match file.get(at, into) {
            Ok(0) => return Err(FileFault::Io),
            Ok(count) => return Ok(count),
            Err(error) => {
                if error.kind() != ErrorKind::Interrupted {
                    return Err(FileFault::Io);
                }
            }
        }
    }
    Err(FileFault::Io)
}

// Fills `into` with the bytes of the file from `at` on.
#[tactic(auto, using(crate::proofs::Openings::gets_none, crate::proofs::Openings::keeps_length))]
fn get_fully<F: Openable>(file: &mut F, at: usize, into: &mut [u8]) -> Result<(), FileFault>
    requires { at ≤ 512 * 131072 }
    ensures bytes { OnOk result (GetsFrom at (F.opening file.old) (F.opening file.new) into.new) }
    ensures held { IfErr result (λ fault. fault ≢ FileFault.Held) }
    ensures length { KeepsLength (F.opening file.old) (F.opening file.new) }
    ensures cause { HasCause (F.errors file.old) (F.errors file.new) result }
    ensures calls { F.calls file.new ≡ F.calls file.old }
{
    let mut done = 0;
    while done < into.len() {
        done += get_some(file, (at + done) as u64, &mut into[done..])?;
    }
    Ok(())
}

// Reads the first bytes of the file into all sectors of `copy`, through `buffer`.
fn get_sectors<F: Openable>(
    file: &mut F,
    buffer: &mut [u8],
    copy: &mut SectorCopy,
) -> Result<(), FileFault>
    requires buffer { length buffer.old ≡ 65536 }
    requires few { sectors_of copy.old ≤ 131072 }
    ensures bytes { OnOk result (Gets (F.opening file.old) (F.opening file.new) copy.new) }
    ensures size { length copy.new ≡ length copy.old }
    ensures held { IfErr result (λ fault. fault ≢ FileFault.Held) }
    ensures length { KeepsLength (F.opening file.old) (F.opening file.new) }
    ensures calls { F.calls file.new ≡ F.calls file.old }
{
    let sectors = copy.sectors();
    for i in 0..sectors.div_ceil(READ_SECTORS) {
        let at = READ_SECTORS * i;
        let count = (sectors - at).min(READ_SECTORS);
        let part = &mut buffer[..count * SECTOR_SIZE];
        get_fully(file, at * SECTOR_SIZE, part)?;
        copy.put(at, part);
    }
    Ok(())
}

// Returns the first sectors of the file.
fn get_all<F: Openable>(
    alloc: Global,
    file: &mut F,
    sectors: usize,
) -> Result<SectorCopy, FileFault>
    requires { sectors ≤ 131072 }
    ensures bytes { IfOk result (λ copy. Gets (F.opening file.old) (F.opening file.new) copy) }
    ensures size { IfOk result (λ copy. length copy ≡ 512 * sectors) }
    ensures held { IfErr result (λ fault. fault ≢ FileFault.Held) }
    ensures length { KeepsLength (F.opening file.old) (F.opening file.new) }
    ensures calls { F.calls file.new ≡ F.calls file.old }
{
    let mut copy = SectorCopy::zeros(alloc, sectors)?;
    let mut buffer = vec![in alloc; 0; READ_SECTORS * SECTOR_SIZE]?;
    get_sectors(file, &mut buffer, &mut copy)?;
    Ok(copy)
}

// Reads the sectors of the device in the file.
fn load<F: Openable>(alloc: Global, file: &mut F) -> Result<SectorCopy, FileFault>
    ensures read { IfOk result (λ copy. Loads (F.opening file.old) (F.opening file.new) copy) }
    ensures few { IfOk result (λ copy. sectors_of copy ≤ 131072) }
    ensures fault { IfErr result (λ fault. fault ≢ FileFault.Held) }
    ensures length { KeepsLength (F.opening file.old) (F.opening file.new) }
    ensures calls { F.calls file.new ≡ F.calls file.old }
{
    let sectors = device_sectors(file.length()?);
    let copy = get_all(alloc, file, sectors as usize)?;
    Ok(copy)
}

// Takes a lock on the file, or none if the system has no locks. `Held` if another open file excludes it.
#[tactic(auto, using(crate::proofs::Openings::keeps_length))]
fn take_lock<F: Openable>(file: &mut F, lock: Lock) -> Result<(), FileFault>
    ensures ok { OnOk result (TakesLock lock (F.opening file.old) (F.opening file.new)) }
    ensures held { IsErrOf result FileFault.Held
        → Adds (F.opening file.old) (F.opening file.new) (locked lock LockAnswer.Held ∷ []) }
    ensures failed { IsErrOf result FileFault.Io → F.opening file.new ≡ F.opening file.old }
    ensures fault { IfErr result (λ fault. (fault ≡ FileFault.Io) ⊎ (fault ≡ FileFault.Held)) }
    ensures length { KeepsLength (F.opening file.old) (F.opening file.new) }
    ensures calls { F.calls file.new ≡ F.calls file.old }
{
    match file.lock(lock)? {
        LockAnswer::Held => Err(FileFault::Held),
        LockAnswer::Granted | LockAnswer::Unavailable => Ok(()),
    }
}

// Locks, syncs and reads the file. If it returns `Held`, the request for the lock was its only call.
fn load_locked<F: Openable>(
    alloc: Global,
    file: &mut F,
    lock: Lock,
) -> Result<SectorCopy, FileFault>
    ensures read { IfOk result (λ copy. LoadsLocked lock (F.opening file.old) (F.opening file.new) copy) }
    ensures few { IfOk result (λ copy. sectors_of copy ≤ 131072) }
    ensures held { IsErrOf result FileFault.Held
        → Adds (F.opening file.old) (F.opening file.new) (locked lock LockAnswer.Held ∷ []) }
    ensures length { KeepsLength (F.opening file.old) (F.opening file.new) }
    ensures calls { F.calls file.new ≡ F.calls file.old }
{
    take_lock(file, lock)?;
    file.sync()?;
    load(alloc, file)
}

// Empties the file, fills it with zeros and makes it durable.
fn fill_zeros<F: Openable>(rt: &HostRuntime, file: &mut F, path: &str, bytes: u64) -> io::Result<()>
    ensures ok { OnOk result (Adds (F.opening file.old) (F.opening file.new)
        (resized 0 ∷ resized bytes ∷ synced ∷ listed path.now ∷ [])) }
    ensures failed { OnErr result (StopsWithin (resized 0 ∷ resized bytes ∷ synced ∷ listed path.now ∷ [])
        (F.opening file.old) (F.opening file.new)) }
    ensures calls { F.calls file.new ≡ F.calls file.old }
{
    file.resize(0)?;
    file.resize(bytes)?;
    file.sync()?;
    file.sync_folder(rt, path)
}

/// Locks the file, fills it with zeros and syncs it. If it returns `Held`, the request for the lock was its
/// only call.
pub(crate) fn make_zeros<F: Openable>(
    rt: &HostRuntime,
    file: &mut F,
    path: &str,
    bytes: u64,
) -> Result<(), FileFault>
    ensures made { OnOk result (MakesZeros path.now bytes (F.opening file.old) (F.opening file.new)) }
    ensures held { IsErrOf result FileFault.Held
        → Adds (F.opening file.old) (F.opening file.new) (locked Lock.Exclusive LockAnswer.Held ∷ []) }
    ensures failed { IsErrOf result FileFault.Io
        → FailsToMake path.now bytes (F.opening file.old) (F.opening file.new) }
    ensures fault { IfErr result (λ fault. (fault ≡ FileFault.Io) ⊎ (fault ≡ FileFault.Held)) }
    ensures calls { F.calls file.new ≡ F.calls file.old }
{
    take_lock(file, Lock::Exclusive)?;
    fill_zeros(rt, file, path, bytes)?;
    Ok(())
}

// Opens and locks the file at `path`, and returns the device in it.
fn open_locked<F: Openable>(
    rt: &HostRuntime,
    path: &str,
    access: Access,
    lock: Lock,
) -> Result<CopiedFile<HostFile<F>>, FileFault>
    ensures opening { IfOk result (λ d. IfSome (F.opening (raw_file d))
        (λ calls. IsOpened path.now access lock calls (file_disk d))) }
    ensures mirror { IfOk result (λ d. IfSome (F.opening (raw_file d)) (λ calls. Mirrors calls (file_disk d))) }
    ensures durable { IfOk result (λ d. Only (file_disk d).seen (file_disk d)) }
    ensures failures { IfOk result (λ d. (file_disk d).failures ≡ 0) }
{
    let mut file = F::at(rt, path, access)?;
    let copy = load_locked(rt.alloc(), &mut file, lock)?;
    Ok(CopiedFile::over(file, copy))
}

impl<F: Openable> CopiedFile<HostFile<F>> {
    /// Opens the device in the file at `path`, which must exist. The device has the file's whole sectors, at
    /// most `MAX_SECTORS`. Bytes after the last sector stay. The file is locked and synced before it is read,
    /// so what the device first reads is durable. Until the device is dropped, no other can be opened in the
    /// file.
    ///
    /// `Held` if another device is open in the file. `Io` if the system refuses to open, sync, measure or
    /// read it, for example if it doesn't exist, or is a folder or a pipe. `NoMemory` if there is no memory
    /// for a copy of it.
    pub fn open(rt: &HostRuntime, path: &str) -> Result<CopiedFile<HostFile<F>>, FileFault>
        ensures opening { IfOk result (λ d. IfSome (F.opening (raw_file d))
            (λ calls. IsOpened path.now Access.Write Lock.Exclusive calls (file_disk d))) }
        ensures mirror { IfOk result (λ d. IfSome (F.opening (raw_file d)) (λ calls. Mirrors calls (file_disk d))) }
        ensures durable { IfOk result (λ d. Only (file_disk d).seen (file_disk d)) }
        ensures failures { IfOk result (λ d. (file_disk d).failures ≡ 0) }
    {
        open_locked(rt, path, Access::Write, Lock::Exclusive)
    }

    /// As `open`, but the file needn't be writable: each write to the device fails. Other devices opened by
    /// `open_to_read` may be open in the file too.
    pub fn open_to_read(rt: &HostRuntime, path: &str) -> Result<CopiedFile<HostFile<F>>, FileFault>
        ensures opening { IfOk result (λ d. IfSome (F.opening (raw_file d))
            (λ calls. IsOpened path.now Access.Read Lock.Shared calls (file_disk d))) }
        ensures mirror { IfOk result (λ d. IfSome (F.opening (raw_file d)) (λ calls. Mirrors calls (file_disk d))) }
        ensures durable { IfOk result (λ d. Only (file_disk d).seen (file_disk d)) }
        ensures failures { IfOk result (λ d. (file_disk d).failures ≡ 0) }
    {
        open_locked(rt, path, Access::Read, Lock::Shared)
    }

    /// Makes a device of `sectors` sectors, all zeros, in the file at `path`. An existing file is emptied
    /// first. The zeros are synced, and so is the folder of the file if the system lets it be opened. Until
    /// the device is dropped, no other can be opened in the file.
    ///
    /// `Held` if another device is open in the file, which then isn't changed. `Io` if the system refuses to
    /// make, lengthen or sync the file, which may then exist with any length. `NoMemory` if there is no
    /// memory for a copy of it; then no file was touched.
    pub fn create(
        rt: &HostRuntime,
        path: &str,
        sectors: u64,
    ) -> Result<CopiedFile<HostFile<F>>, FileFault>
        requires { sectors ≤ MAX_SECTORS }
        ensures opening { IfOk result (λ d. IfSome (F.opening (raw_file d))
            (λ calls. IsMade path.now Access.Create sectors calls)) }
        ensures mirror { IfOk result (λ d. IfSome (F.opening (raw_file d)) (λ calls. Mirrors calls (file_disk d))) }
        ensures size { IfOk result (λ d. (file_disk d).sectors ≡ sectors) }
        ensures zeros { IfOk result (λ d. (i : ℕ) → i < sectors → (file_disk d).seen i ≡ replicate 512 0) }
        ensures durable { IfOk result (λ d. Only (file_disk d).seen (file_disk d)) }
        ensures failures { IfOk result (λ d. (file_disk d).failures ≡ 0) }
    {
        let zeros = SectorCopy::zeros(rt.alloc(), sectors as usize)?;
        let mut file = F::at(rt, path, Access::Create)?;
        make_zeros(rt, &mut file, path, sectors * SECTOR_SIZE as u64)?;
        Ok(CopiedFile::over(file, zeros))
    }
}
