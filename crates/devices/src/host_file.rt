// A file of the operating system, as a file of sectors.
ghost use Rattle.std.specs.Prelude.{◌≡◌, ◌*◌, ◌<◌, ◌≤◌, ◌∷◌, [], nat_lt, true, length, take, IfOk, IfSome, OnErr, OnOk};
ghost use Rattle.devices.specs.CallErrors.{HasCause, HasFailed};
ghost use Rattle.devices.specs.RawCalls.{Adds, Takes, TakesFront, Tells, calls_of, syncs, took};
ghost use Rattle.devices.specs.Steps.{fresh};

use crate::history::{History, Step};
use crate::raw_file::RawFile;
use crate::sector_copy::SectorCopy;
use crate::sector_file::SectorFile;
use device::{Failed, SECTOR_SIZE};
use std::io::ErrorKind;

/// An open file of the operating system, which nothing else writes to.
///
/// Its history lists what its calls did. A write that failed counts as a write of all its sectors, because it
/// may have written some of them.
#[derive(Drop)]
pub struct HostFile<F: RawFile> {
    file: F,
    // A call has failed.
    is_broken: bool,
    history: History,
    ghost broken: { is_broken ≡ nat_lt 0 history.failures },
    // A call of the device fails only if a call of the file failed.
    ghost caused: { is_broken ≡ true → HasFailed (F.errors file) },
    ghost reported: { ∥ Tells history.events history.failures (F.calls file) ∥₁ },
}

// Writes at least one byte of `from`, at the byte `at`. An interrupted call is repeated.
fn put_some<F: RawFile>(file: &mut F, at: u64, from: &[u8]) -> Result<usize, Failed>
    requires { 0 < length from.now }
    ensures bound { IfOk result (λ n. (0 < n) × (n ≤ length from.now)) }
    ensures ok { IfOk result (λ n. Adds (F.calls file.old) (F.calls file.new) (took at (take n from.now) ∷ [])) }
    ensures err { OnErr result (TakesFront at (F.calls file.old) (F.calls file.new) from.now) }
    ensures cause { HasCause (F.errors file.old) (F.errors file.new) result }
{
    for tries in 0..u64::MAX {
        match file.put(at, from) {
            Ok(0) => return Err(Failed),
            Ok(count) => return Ok(count),
            Err(error) => {
                if error.kind() != ErrorKind::Interrupted {
                    return Err(Failed);
                }
            }
        }
    }
    Err(Failed)
}

// Writes all of the bytes at the byte `at`. After `Failed`, a prefix of them may be written.
#[tactic(auto, using(crate::proofs::Deeds::takes_none))]
fn put_fully<F: RawFile>(file: &mut F, at: u64, from: &[u8]) -> Result<(), Failed>
    requires { at ≤ 512 * 131072 }
    ensures ok { OnOk result (Takes at (F.calls file.old) (F.calls file.new) from.now) }
    ensures err { OnErr result (TakesFront at (F.calls file.old) (F.calls file.new) from.now) }
    ensures cause { HasCause (F.errors file.old) (F.errors file.new) result }
{
    let mut done = 0;
    while done < from.len() {
        done += put_some(file, at + done as u64, &from[done..])?;
    }
    Ok(())
}

// Writes these sectors from `at` on. After `Failed`, a prefix of the bytes may be written.
fn put_sectors<F: RawFile>(file: &mut F, at: u64, from: &[u8]) -> Result<(), Failed>
    requires { at ≤ 131072 }
    ensures ok { OnOk result (Takes (512 * at) (F.calls file.old) (F.calls file.new) from.now) }
    ensures err { OnErr result (TakesFront (512 * at) (F.calls file.old) (F.calls file.new) from.now) }
    ensures cause { HasCause (F.errors file.old) (F.errors file.new) result }
{
    put_fully(file, at * SECTOR_SIZE as u64, from)
}

// Makes durable what was written. `Failed` changes nothing.
fn sync_all<F: RawFile>(file: &mut F) -> Result<(), Failed>
    ensures ok { OnOk result (Adds (F.calls file.old) (F.calls file.new) (calls_of syncs)) }
    ensures err { OnErr result (F.calls file.new ≡ F.calls file.old) }
    ensures cause { HasCause (F.errors file.old) (F.errors file.new) result }
{
    file.keep().map_err(|_| Failed)
}

// The history of a file that holds these sectors, before any event. The loop computes nothing, because a
// history takes no bytes. It is there for the proof: no slice has all sectors at once.
#[tactic(auto, using(crate::proofs::Histories::all_held))]
fn history_of(copy: &SectorCopy) -> History
    ensures { result ≡ fresh copy.now }
{
    let mut history = History::new(&[]);
    for at in 0..copy.sectors() {
        let bytes = copy.sector(at);
        history = history.then(&Step::Held { bytes });
    }
    history
}

impl<F: RawFile> HostFile<F> {
    /// A file that holds these sectors, before any event.
    pub fn new(file: F, copy: &SectorCopy) -> HostFile<F>
        requires { IfSome (F.calls file) (λ calls. calls ≡ []) }
        ensures first { result.history.first ≡ copy.now }
        ensures events { result.history.events ≡ [] }
        ensures failures { result.history.failures ≡ 0 }
        ensures file { result.file ≡ file }
    {
        HostFile {
            file,
            is_broken: false,
            history: history_of(copy),
        }
    }

    /// The operating system's file.
    pub fn file(&self) -> &F
        ensures { result.now ≡ self.now.file }
    {
        &self.file
    }
}

impl<F: RawFile> SectorFile for HostFile<F> {
    ghost first = { λ f. f.history.first };

    ghost events = { λ f. f.history.events };

    ghost failures = { λ f. f.history.failures };

    fn write(&mut self, at: u64, from: &[u8]) -> Result<(), Failed> {
        let history = self.history.then(&Step::Wrote { at, bytes: from });
        if !self.is_broken && put_sectors(&mut self.file, at, from).is_ok() {
            self.history = history;
            return Ok(());
        }
        self.is_broken = true;
        self.history = history.then(&Step::Failed);
        Err(Failed)
    }

    fn sync(&mut self) -> Result<(), Failed> {
        if !self.is_broken && sync_all(&mut self.file).is_ok() {
            self.history = self.history.then(&Step::Synced);
            return Ok(());
        }
        self.is_broken = true;
        self.history = self.history.then(&Step::Failed);
        Err(Failed)
    }

    fn power_cut(&mut self) {
        self.history = self.history.then(&Step::Cut);
    }
}
