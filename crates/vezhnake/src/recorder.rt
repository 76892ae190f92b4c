// The host's storage, as a file of sectors.
ghost use Rattle.std.specs.Prelude.{◌≡◌, ◌≢◌, ◌++◌, [], true, false, nat_lt, length, drop, IfSome, IfNone};
ghost use Rattle.vezhnake.specs.HostCalls.{events_of, encoded};
ghost use Rattle.vezhnake.specs.Pending.{Keeps};
ghost use Rattle.vezhnake.specs.Steps.{fresh};

use crate::history::{History, Step};
use crate::pending::Pending;
use device::{Failed, SECTOR_SIZE};
use devices::SectorFile;
use std::alloc::Global;
use std::cell::Cell;

/// The host's storage, as a file of sectors. It records each call, and the host carries the calls
/// out in order.
///
/// A call fails if there is no memory to record it. Then every later write and sync fails too.
#[derive(Drop)]
pub struct Recorder {
    pending: Pending,
    // How many of the recorded calls were taken. Contracts can't read the content of a cell.
    taken: Cell<u64>,
    // Whether a call could not be recorded.
    is_broken: bool,
    history: History,
    ghost kept: { Keeps pending history.calls },
    ghost broken: { nat_lt 0 history.failures ≡ true → is_broken ≡ true },
    ghost all: { is_broken ≡ false → history.lost ≡ [] },
}

impl Recorder {
    /// Returns storage that holds these bytes, before any event.
    pub fn new(alloc: Global, bytes: &[u8]) -> Recorder
        ensures { result.history ≡ fresh bytes.now }
    {
        Recorder {
            pending: Pending::new(alloc),
            taken: Cell::new(0),
            is_broken: false,
            history: History::new(bytes),
        }
    }

    /// Returns the encoded calls after the first `taken`, or `None` if they aren't kept any more. They are kept if
    /// `taken` is the number of calls before the kept ones, or of all calls.
    pub fn since(&self, taken: u64) -> Option<&[u8]>
        ensures some { IfSome result (λ bytes. bytes.now ≡ encoded (drop taken self.now.history.calls)) }
        ensures none { IfNone result ((taken ≢ self.now.pending.start) × (taken ≢ length self.now.history.calls)) }
    {
        self.pending.since(taken)
    }

    /// Returns how many calls were recorded in all.
    pub fn count(&self) -> u64
        ensures { result ≡ length self.now.history.calls }
    {
        self.pending.count
    }

    /// Records that all calls so far were taken, and returns their count. The next recorded call may overwrite them.
    pub fn note_taken(&self) -> u64
        ensures { result ≡ length self.now.history.calls }
    {
        self.taken.set(self.pending.count);
        self.pending.count
    }
}

impl SectorFile for Recorder {
    ghost use Rattle.std.specs.Prelude.{◌++◌};
    ghost use Rattle.vezhnake.specs.HostCalls.{events_of};

    ghost first = { λ r. r.history.first };

    ghost events = { λ r. events_of r.history.calls ++ r.history.lost };

    ghost failures = { λ r. r.history.failures };

    fn write(&mut self, at: u64, from: &[u8]) -> Result<(), Failed> {
        let taken = self.taken.get();
        let recorded = self.history.then(&Step::Write { at, bytes: from });
        let lost = self.history.then(&Step::LostWrite { at, bytes: from });
        if !self.is_broken
            && self
                .pending
                .add(taken, at * SECTOR_SIZE as u64, from)
                .is_ok()
        {
            self.history = recorded;
            return Ok(());
        }
        self.is_broken = true;
        self.history = lost;
        Err(Failed)
    }

    fn sync(&mut self) -> Result<(), Failed> {
        let taken = self.taken.get();
        let recorded = self.history.then(&Step::Sync);
        let lost = self.history.then(&Step::LostSync);
        if !self.is_broken && self.pending.add(taken, u64::MAX, &[]).is_ok() {
            self.history = recorded;
            return Ok(());
        }
        self.is_broken = true;
        self.history = lost;
        Err(Failed)
    }

    /// Records a sync, which makes every byte of the host's storage durable: a power cut here loses
    /// nothing.
    fn power_cut(&mut self) {
        let taken = self.taken.get();
        let recorded = self.history.then(&Step::Cut);
        let lost = self.history.then(&Step::LostCut);
        if !self.is_broken && self.pending.add(taken, u64::MAX, &[]).is_ok() {
            self.history = recorded;
            return;
        }
        self.is_broken = true;
        self.history = lost;
    }
}
