// The bytes of a device in memory, with a record of all that was done to them.
ghost use Rattle.std.specs.Prelude.{◌≡◌, ◌≤◌, ◌+◌, ◌*◌, ◌%◌, ◌++◌, ◌∷◌, [], vec_len, vec_capacity, length, IfOk};
ghost use Rattle.devices.specs.MirrorSound.{IsSoundMirror};

use crate::record::{Action, Outcome, RecordEntry, mark, note, note_writes};
use crate::sectors::{copy_written, put, settle};
use device::SECTOR_SIZE;
use std::alloc::{AllocError, Global};

#[derive(Drop)]
pub(crate) struct Mirror {
    pub(crate) sectors: u64,
    // The bytes that the device began with.
    first: Vec<u8>,
    // What a read returns.
    present: Vec<u8>,
    // What the last sync or power cut left.
    synced: Vec<u8>,
    pub(crate) entries: Vec<RecordEntry>,
    // The entries from this index on aren't synced.
    settled: usize,
    ghost sound: { IsSoundMirror sectors first.items present.items synced.items entries.items settled },
}

impl Mirror {
    ghost use Rattle.device.specs.Calls.{Agrees, sectors_of, AreSectors};
    ghost use Rattle.devices.specs.Past.{synced, writes_of, left_by, EndsCut};
    ghost use Rattle.devices.specs.Mirror.{past_of, state_of};

    /// A device with these bytes, before any event. The record is empty.
    pub fn new(
        alloc: Global,
        sectors: u64,
        first: Vec<u8>,
        entries: Vec<RecordEntry>,
    ) -> Result<Mirror, AllocError>
        requires few { sectors ≤ 131072 }
        requires size { length first.items ≡ 512 * sectors }
        requires empty { entries.items ≡ [] }
        ensures sectors { IfOk result (λ m. m.sectors ≡ sectors) }
        ensures first { IfOk result (λ m. m.first.items ≡ first.items) }
        ensures entries { IfOk result (λ m. m.entries ≡ entries) }
    {
        let present = first.to_vec(alloc)?;
        let synced = first.to_vec(alloc)?;
        Ok(Mirror {
            sectors,
            first,
            present,
            synced,
            entries,
            settled: 0,
        })
    }

    /// Fills `into` with the sectors from `at` on.
    #[tactic(auto, using(device::proofs::Flat::got_inside))]
    pub fn read(&self, at: u64, into: &mut [u8])
        requires whole { length into.old % 512 ≡ 0 }
        requires inside { at + sectors_of into.old ≤ self.now.sectors }
        ensures { AreSectors (state_of self.now).present at into.new }
    {
        let start = at as usize * SECTOR_SIZE;
        into.copy_from_slice(&self.present[start..start + into.len()]);
    }

    /// Writes `from` into the sectors from `at` on. The record needs space for an entry for each.
    #[tactic(auto, using(crate::proofs::Entries::length_written, crate::proofs::Entries::past_written))]
    pub fn write(&mut self, at: u64, from: &[u8])
        requires whole { length from.now % 512 ≡ 0 }
        requires inside { at + sectors_of from.now ≤ self.old.sectors }
        requires room { vec_len self.old.entries + sectors_of from.now
            ≤ vec_capacity self.old.entries }
        ensures past { past_of self.new
            ≡ past_of self.old ++ writes_of at (sectors_of from.now) from.now }
        ensures first { self.new.first ≡ self.old.first }
        ensures sectors { self.new.sectors ≡ self.old.sectors }
        ensures entries { vec_len self.new.entries
            ≡ vec_len self.old.entries + sectors_of from.now }
        ensures capacity { vec_capacity self.old.entries ≤ vec_capacity self.new.entries }
    {
        put(&mut self.present, at as usize, from);
        note_writes(&mut self.entries, at, from);
    }

    /// Makes all sectors durable. The record needs space for an entry.
    #[tactic(auto, using(crate::proofs::Entries::past_synced))]
    pub fn sync(&mut self)
        requires room { vec_len self.old.entries + 1 ≤ vec_capacity self.old.entries }
        ensures past { past_of self.new ≡ past_of self.old ++ synced ∷ [] }
        ensures first { self.new.first ≡ self.old.first }
        ensures sectors { self.new.sectors ≡ self.old.sectors }
        ensures entries { vec_len self.new.entries ≡ vec_len self.old.entries + 1 }
        ensures capacity { vec_capacity self.old.entries ≤ vec_capacity self.new.entries }
    {
        copy_written(
            &mut self.synced,
            &self.present,
            &self.entries[self.settled..],
        );
        note(&mut self.entries, Action::Synced);
        self.settled = self.entries.len();
    }

    /// The power goes and comes back.
    #[tactic(auto, using(crate::proofs::Entries::past_cut))]
    pub fn power_cut(&mut self, outcome: Outcome)
        ensures past { EndsCut outcome (past_of self.old) (past_of self.new) }
        ensures left { Agrees (state_of self.new).present (left_by outcome (state_of self.old)) }
        ensures first { self.new.first ≡ self.old.first }
        ensures sectors { self.new.sectors ≡ self.old.sectors }
        ensures entries { vec_len self.new.entries ≡ vec_len self.old.entries }
        ensures capacity { vec_capacity self.old.entries ≤ vec_capacity self.new.entries }
    {
        settle(
            &mut self.present,
            &mut self.synced,
            &self.entries[self.settled..],
            outcome,
        );
        mark(&mut self.entries, outcome);
        self.settled = self.entries.len();
    }
}
