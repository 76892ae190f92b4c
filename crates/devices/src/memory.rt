// A device in memory.
ghost use Rattle.std.specs.Prelude.{◌≡◌, ◌<◌, ◌≤◌, ◌+◌, ◌%◌, ◌++◌, ◌∷◌, ◌↔◌, [], ℕ, length, vec_len, vec_capacity};
ghost use Rattle.std.specs.Prelude.{replicate, IfOk, IsOk, IsErr, OnOk, OnErr};
ghost use Rattle.device.specs.Calls.{Agrees, Elsewhere, sectors_of, AreSectors, Narrows, Tears, Only, Counts};
ghost use Rattle.device.specs.Moments.{Elapses};
ghost use Rattle.devices.specs.Past.{synced, writes_of, left_by, EndsCut};

use crate::mirror::Mirror;
use crate::record::Outcome;
use collections::Tally;
use device::{Device, Failed, MAX_SECTORS, SECTOR_SIZE};
use std::alloc::{AllocError, Global};

/// A device in memory, which keeps a record with an entry for each sector written and each sync.
///
/// A write or a sync for which the record lacks entries fails and writes nothing. No other call fails.
#[derive(Drop)]
pub struct Memory {
    mirror: Mirror,
    room: usize,
    outcome: Outcome,
    failures: Tally,
    ghost within: { vec_len mirror.entries ≤ room },
    ghost reserved: { room ≤ vec_capacity mirror.entries },
}

impl Memory {
    ghost use Rattle.devices.specs.Memory.{memory_disk, memory_past, capacity_left, outcome_of};

    /// A device of `sectors` sectors, all zeros and all synced. Its record has space for `room`
    /// entries, and its power cuts leave `outcome`. The only error is lack of memory.
    pub fn new(
        alloc: Global,
        sectors: u64,
        room: usize,
        outcome: Outcome,
    ) -> Result<Memory, AllocError>
        requires { sectors ≤ MAX_SECTORS }
        ensures size { IfOk result (λ m. (memory_disk m).sectors ≡ sectors) }
        ensures zeros { IfOk result (λ m. (i : ℕ) → i < sectors → (memory_disk m).seen i ≡ replicate 512 0) }
        ensures durable { IfOk result (λ m. Only (memory_disk m).seen (memory_disk m)) }
        ensures past { IfOk result (λ m. memory_past m ≡ []) }
        ensures failures { IfOk result (λ m. (memory_disk m).failures ≡ 0) }
        ensures room { IfOk result (λ m. capacity_left m ≡ room) }
        ensures outcome { IfOk result (λ m. outcome_of m ≡ outcome) }
    {
        let first = vec![in alloc; 0; sectors as usize * SECTOR_SIZE]?;
        let entries = Vec::with_capacity(alloc, room)?;
        Ok(Memory {
            mirror: Mirror::new(alloc, sectors, first, entries)?,
            room,
            outcome,
            failures: Tally::new(),
        })
    }

    // Fails if the record has space for fewer entries.
    fn check_capacity(&mut self, entries: usize) -> Result<(), Failed>
        ensures full { IsErr result ↔ (capacity_left self.old < entries) }
        ensures mirror { self.new.mirror ≡ self.old.mirror }
        ensures room { self.new.room ≡ self.old.room }
        ensures outcome { outcome_of self.new ≡ outcome_of self.old }
        ensures ok { OnOk result (self.new.failures.number ≡ self.old.failures.number) }
        ensures err { OnErr result (self.new.failures.number ≡ self.old.failures.number + 1) }
    {
        if self.room - self.mirror.entries.len() < entries {
            self.failures = self.failures.next();
            return Err(Failed);
        }
        Ok(())
    }
}

impl Device for Memory {
    ghost use Rattle.devices.specs.Memory.{memory_disk, memory_past, memory_state, capacity_left, outcome_of};
    ghost use Rattle.devices.specs.Memory.{IsUntouched};
    ghost use Rattle.devices.specs.PastLaws.{past_counts_now, past_only_now};
    ghost use Rattle.devices.specs.MirrorSoundLaws.{sound_seen_left};
    ghost use Rattle.device.specs.Calls.{image_of};

    ghost disk = { memory_disk };

    fn sectors(&self) -> u64 {
        self.mirror.sectors
    }

    /// Never fails.
    fn read(&mut self, at: u64, into: &mut [u8]) -> Result<(), Failed>
        requires whole { length into.old % 512 ≡ 0 }
        requires inside { at + sectors_of into.old ≤ (memory_disk self.old).sectors }
        ensures ok { IsOk result }
        ensures same { self.new ≡ self.old }
        ensures bytes { OnOk result (AreSectors (memory_disk self.new).seen at into.new) }
        ensures size { (memory_disk self.new).sectors ≡ (memory_disk self.old).sectors }
        ensures seen { Agrees (memory_disk self.new).seen (memory_disk self.old).seen }
        ensures crash { Narrows (memory_disk self.old) (memory_disk self.new) }
        ensures nothing_durable { Narrows (memory_disk self.new) (memory_disk self.old) }
        ensures time { Elapses (memory_disk self.old) (memory_disk self.new) }
        ensures cause { Counts (memory_disk self.old) (memory_disk self.new) result }
    {
        self.mirror.read(at, into);
        Ok(())
    }

    /// Fails exactly if the record has space for fewer entries than `from` has sectors. Then it writes
    /// nothing.
    fn write(&mut self, at: u64, from: &[u8]) -> Result<(), Failed>
        requires whole { length from.now % 512 ≡ 0 }
        requires inside { at + sectors_of from.now ≤ (memory_disk self.old).sectors }
        ensures full { IsErr result ↔ (capacity_left self.old < sectors_of from.now) }
        ensures past { OnOk result (memory_past self.new
            ≡ memory_past self.old ++ writes_of at (sectors_of from.now) from.now) }
        ensures room { OnOk result (capacity_left self.new + sectors_of from.now ≡ capacity_left self.old) }
        ensures untouched { OnErr result (IsUntouched self.old self.new) }
        ensures outcome { outcome_of self.new ≡ outcome_of self.old }
        ensures written { OnOk result (AreSectors (memory_disk self.new).seen at from.now) }
        ensures size { (memory_disk self.new).sectors ≡ (memory_disk self.old).sectors }
        ensures elsewhere { Elsewhere at (sectors_of from.now) (memory_disk self.old).seen
            (memory_disk self.new).seen }
        ensures crash { Tears at (sectors_of from.now) (memory_disk self.old)
            (memory_disk self.new) }
        ensures time { Elapses (memory_disk self.old) (memory_disk self.new) }
        ensures cause { Counts (memory_disk self.old) (memory_disk self.new) result }
    {
        self.check_capacity(from.len() / SECTOR_SIZE)?;
        self.mirror.write(at, from);
        Ok(())
    }

    /// Fails exactly if the record has no space.
    fn sync(&mut self) -> Result<(), Failed>
        ensures full { IsErr result ↔ (capacity_left self.old ≡ 0) }
        ensures past { OnOk result (memory_past self.new ≡ memory_past self.old ++ synced ∷ []) }
        ensures room { OnOk result (capacity_left self.new + 1 ≡ capacity_left self.old) }
        ensures untouched { OnErr result (IsUntouched self.old self.new) }
        ensures outcome { outcome_of self.new ≡ outcome_of self.old }
        ensures durable { OnOk result (Only (memory_disk self.new).seen (memory_disk self.new)) }
        ensures size { (memory_disk self.new).sectors ≡ (memory_disk self.old).sectors }
        ensures seen { Agrees (memory_disk self.new).seen (memory_disk self.old).seen }
        ensures crash { Narrows (memory_disk self.old) (memory_disk self.new) }
        ensures nothing_durable { OnErr result
            (Narrows (memory_disk self.new) (memory_disk self.old)) }
        ensures time { Elapses (memory_disk self.old) (memory_disk self.new) }
        ensures cause { Counts (memory_disk self.old) (memory_disk self.new) result }
    {
        self.check_capacity(1)?;
        self.mirror.sync();
        Ok(())
    }

    /// Afterwards a read gives exactly what the outcome leaves: the written bytes, the synced ones, or the
    /// synced ones with each unsynced sector filled. It needs no space in the record.
    fn power_cut(&mut self)
        ensures outcome_left { Agrees (memory_disk self.new).seen
            (left_by (outcome_of self.old) (memory_state self.old)) }
        ensures past { EndsCut (outcome_of self.old) (memory_past self.old) (memory_past self.new) }
        ensures room { capacity_left self.new ≡ capacity_left self.old }
        ensures outcome { outcome_of self.new ≡ outcome_of self.old }
        ensures left { (memory_disk self.old).may_leave (memory_disk self.new).seen }
        ensures durable { Only (memory_disk self.new).seen (memory_disk self.new) }
        ensures size { (memory_disk self.new).sectors ≡ (memory_disk self.old).sectors }
        ensures time { Elapses (memory_disk self.old) (memory_disk self.new) }
        ensures no_failure { (memory_disk self.new).failures ≡ (memory_disk self.old).failures }
    {
        self.mirror.power_cut(self.outcome);
    }

    ghost seen_left = { λ m. sound_seen_left _ _ _ _ _ _ m.mirror.sound };

    ghost counts_now = { λ m t c. past_counts_now m.mirror.sectors (image_of m.mirror.first.items) (memory_past m)
        t c };

    ghost only_now = { λ m c. past_only_now m.mirror.sectors (image_of m.mirror.first.items) (memory_past m) c };

    ghost left_whole = { λ m t c left. left.3.whole };

    ghost few_sectors = { λ m. m.mirror.sound.few };
}
