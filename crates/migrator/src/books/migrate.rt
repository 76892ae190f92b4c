// Migration: copying saved frames home.
ghost use Rattle.std.specs.Prelude.{◌≡◌, ◌⊎◌, ℕ, ◌+◌, ◌-◌, ◌<◌, ◌≤◌, true, false, IfOk, OnOk, OnErr};
ghost use Rattle.device.specs.Calls.{Counts};
ghost use Rattle.checkpoint.specs.Snapshots.{all_moved};
ghost use Rattle.migrator.specs.Durable.{IsDurable, IsLesser, IsSoundOn, Migrates, MovedBy, Publishes};
ghost use Rattle.migrator.specs.Durable.{on_snapshots, stored_on};
ghost use Rattle.migrator.specs.Saving.{MayFinish};

use crate::books::Books;
use crate::copy::copy_home;
use crate::directory::Directory;
use crate::first_in_cluster::is_first;
use device::{Device, Failed};
use layout::{BLOCK_BYTES, CheckpointHeader};

impl Books {
    // Copies the next entry's frame home, unless it was copied with the previous entry of its cluster.
    fn move_next<D: Device>(
        &mut self,
        device: &mut D,
        buffer: &mut [u8; BLOCK_BYTES],
        scratch: &mut [u8; BLOCK_BYTES],
    ) -> Result<(), Failed>
        requires stands { IsDurable (D.disk device.old) self.old }
        requires some { self.old.moved < self.old.header.entries }
        ensures stands { IsDurable (D.disk device.new) self.new }
        ensures moved { OnOk result (MovedBy (D.disk device.old) (D.disk device.new) self.old self.new 1) }
        ensures unmoved { OnErr result (MovedBy (D.disk device.old) (D.disk device.new) self.old self.new 0) }
        ensures cause { Counts (D.disk device.old) (D.disk device.new) result }
    {
        let generation = self.header.generation;
        let entries = self.directory.as_slice();
        let index = self.moved as usize;
        let entry = entries[index];
        if !is_first(&self.plan, entries, index) {
            self.moved += 1;
            return Ok(());
        }
        copy_home(
            device,
            &self.plan,
            generation,
            entries,
            entry.object,
            buffer,
            scratch,
        )?;
        self.moved += 1;
        Ok(())
    }

    // Publishes a header with 0 entries: all saved frames are home.
    fn finish<D: Device>(&mut self, device: &mut D, spare: &mut Directory) -> Result<(), Failed>
        requires { MayFinish (D.disk device.old) self.old }
        ensures { Publishes (D.disk device.old) (D.disk device.new) self.old self.new
            (on_snapshots all_moved (stored_on (D.disk device.old) self.old)) result }
    {
        let header = CheckpointHeader {
            sequence: self.header.sequence + 1,
            generation: self.header.generation,
            entries: 0,
            age: self.header.age,
        };
        spare.clear();
        self.adopt(device, header, self.root, spare)
    }

    // Copies `count` saved frames home.
    fn move_some<D: Device>(&mut self, device: &mut D, count: u64) -> Result<(), Failed>
        requires stands { IsDurable (D.disk device.old) self.old }
        requires some { self.old.moved + count ≤ self.old.header.entries }
        ensures stands { IsDurable (D.disk device.new) self.new }
        ensures moved { OnOk result (MovedBy (D.disk device.old) (D.disk device.new) self.old self.new count) }
        ensures unmoved { OnErr result ((k : ℕ) × (k ≤ count)
            × MovedBy (D.disk device.old) (D.disk device.new) self.old self.new k) }
        ensures none { count ≡ 0 → (self.new ≡ self.old) × (device.new ≡ device.old) }
        ensures cause { Counts (D.disk device.old) (D.disk device.new) result }
    {
        let mut buffer = [0; BLOCK_BYTES];
        let mut scratch = [0; BLOCK_BYTES];
        for _ in 0..count {
            self.move_next(device, &mut buffer, &mut scratch)?;
        }
        Ok(())
    }

    // Whether all saved frames are home, but the header still has entries.
    fn is_to_finish(&self) -> bool
        requires { self.now.moved ≤ self.now.header.entries }
        ensures yes { result ≡ true → (0 < self.now.header.entries)
            × (self.now.moved ≡ self.now.header.entries) }
        ensures no { result ≡ false → (self.now.header.entries ≡ 0)
            ⊎ (self.now.moved < self.now.header.entries) }
    {
        self.header.entries != 0 && self.moved >= self.header.entries
    }

    // Returns how many saved frames to copy home, if the caller wants `count`, and how many are then left.
    fn share(&self, count: u64) -> (u64, u64)
        requires { self.now.moved ≤ self.now.header.entries }
        ensures lesser { IsLesser result.0 count (self.now.header.entries - self.now.moved) }
        ensures left { result.1 ≡ self.now.header.entries - self.now.moved - result.0 }
    {
        let left = self.header.entries - self.moved;
        if count < left {
            (count, left - count)
        } else {
            (left, 0)
        }
    }

    /// Copies the next `count` saved frames home, in the order of their numbers, and returns how many are
    /// left. If none is left, makes the home frames durable and publishes a header with 0 entries.
    pub(crate) fn migrate<D: Device>(
        &mut self,
        device: &mut D,
        spare: &mut Directory,
        count: u64,
    ) -> Result<u64, Failed>
        requires stands { IsDurable (D.disk device.old) self.old }
        requires sound { IsSoundOn (D.disk device.old) self.old }
        ensures left { IfOk result (λ n. n ≡ (stored_on (D.disk device.old) self.old).to_move - count) }
        ensures migrates { Migrates (D.disk device.old) (D.disk device.new) self.old self.new count result }
        ensures untouched { self.old.header.entries ≡ 0
            → (self.new ≡ self.old) × (device.new ≡ device.old) }
    {
        let (some, left) = self.share(count);
        self.move_some(device, some)?;
        if self.is_to_finish() {
            self.finish(device, spare)?;
            return Ok(0);
        }
        Ok(left)
    }
}
