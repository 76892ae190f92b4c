// Migration: copying saved frames home.
ghost use Rattle.std.specs.Prelude.{◌≡◌, ℕ, ◌-◌, ◌≤◌, IfOk, OnOk, OnErr};
ghost use Rattle.device.specs.Calls.{Counts};
ghost use Rattle.checkpoint.specs.Saved.{LeavesEither};
ghost use Rattle.checkpoint.specs.Snapshots.{moved_saved, moved};
ghost use Rattle.migrator.specs.Durable.{stored_of, is_sound, snapshots_in, on_snapshots};

use crate::durable::Durable;
use device::{Device, Failed};

impl<D: Device> Durable<D> {
    /// Copies the next `count` saved frames home, in the order of their numbers, and returns how many are
    /// left. If none is left, makes the home frames durable, and publishes a header with 0 entries. If the
    /// header has 0 entries already, it makes no call on the device.
    ///
    /// Returns `Failed` exactly if the device failed. Then a crash leaves what was saved. If this call was to
    /// copy the last frame, the header may have 0 entries.
    pub fn migrate(&mut self, count: u64) -> Result<u64, Failed>
        requires sound { is_sound D.disk self.old }
        ensures left { IfOk result (λ n. n ≡ (stored_of D.disk self.old).to_move - count) }
        ensures moved { OnOk result
            (stored_of D.disk self.new ≡ on_snapshots (moved count) (stored_of D.disk self.old)) }
        ensures unmoved { OnErr result ((k : ℕ) × (k ≤ (stored_of D.disk self.old).to_move)
            × (stored_of D.disk self.new ≡ record (stored_of D.disk self.old) { to_move = k })) }
        ensures untouched { (stored_of D.disk self.old).saved.entries ≡ 0 → self.new ≡ self.old }
        ensures plan { self.new.books.plan ≡ self.old.books.plan }
        ensures sound { OnOk result (is_sound D.disk self.new) }
        ensures size { (D.disk self.new.beneath).sectors ≡ (D.disk self.old.beneath).sectors }
        ensures any_moment { LeavesEither (D.disk self.old.beneath) (D.disk self.new.beneath)
            (stored_of D.disk self.old).saved (moved_saved count (snapshots_in (stored_of D.disk self.old))) }
        ensures cause { Counts (D.disk self.old.beneath) (D.disk self.new.beneath) result }
    {
        self.books.migrate(&mut self.device, &mut self.spare, count)
    }
}
