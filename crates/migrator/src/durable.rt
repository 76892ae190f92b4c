// A durable store over a device.
ghost use Rattle.std.specs.Prelude.{◌≡◌, ◌⊎◌, ◌≤◌, Some, OnOk, OnErr, IsErrOf, option_map};
ghost use Rattle.model.specs.Keepable.{IsKeepable};
ghost use Rattle.device.specs.Calls.{Counts};
ghost use Rattle.layout.specs.Frames.{IsObject};
ghost use Rattle.migrator.specs.Put.{Broken, Kept, held_slot, sum_of, HasFreeSlot};
ghost use Rattle.checkpoint.specs.Saved.{most, LeavesOneOf};
ghost use Rattle.checkpoint.specs.Snapshots.{committed, next_saved, MayCommit};
ghost use Rattle.migrator.specs.Durable.{FrozenPuts, left_of, stored_of, is_sound, with_working, with_frozen, GoesOn};
ghost use Rattle.migrator.specs.Durable.{puts, on_snapshots, freezing_puts};
ghost use Rattle.checkpoint.specs.Refused.{IsPutAnswer, IsFreezeAnswer, IsCommitAnswer, IsRefused};
ghost use Rattle.model.specs.Frame.{content_behind};

use crate::books::Books;
use crate::directory::Directory;
use device::{Device, Failed};
use model::{Cap, ContentRef, ObjectHeader, Refusal};
use std::marker::Model;

mod access;
mod journal;
mod migrate;
mod open;

pub use open::Opened;

/// The frames on a device: the saved ones, the frozen ones, and the working ones, which were written since
/// the last freeze.
#[derive(Drop)]
pub struct Durable<D: Device> {
    device: D,
    books: Books,
    /// Memory for the directory of the next header.
    spare: Directory,
}

impl<D: Device> Model for Durable<D> {
    ghost use Rattle.migrator.specs.Durable.{DurableState, IsDurable};

    ghost Value = { DurableState D };

    ghost view = { λ s. record { beneath = s.device; books = s.books } };

    ghost invariant = { λ s. IsDurable (D.disk s.device) s.books };
}

impl<D: Device> Durable<D> {
    /// Writes the working frame of an object, for the next checkpoint to be frozen. It goes into the object's
    /// slot, or the next free one, in the log half without saved and frozen frames. Returns `Failed` exactly
    /// if the device failed; then the slot may hold any bytes.
    pub fn put_working(
        &mut self,
        number: u64,
        header: ObjectHeader,
        content: ContentRef<'_>,
    ) -> Result<(), Failed>
        requires object { IsObject self.old.books.plan.geometry number }
        requires keepable { IsKeepable self.old.books.plan.geometry most number
            (record { header = header; content = content_behind content }) }
        requires room { HasFreeSlot self.old.books.plan.geometry.log
            (stored_of D.disk self.old).working number }
        ensures put { OnOk result (stored_of D.disk self.new
            ≡ with_working number (Kept (record { header = header; content = content_behind content.entry }))
            (stored_of D.disk self.old)) }
        ensures broken { OnErr result (stored_of D.disk self.new
            ≡ with_working number Broken (stored_of D.disk self.old)) }
        ensures goes_on { GoesOn D.disk self.old self.new }
        ensures cause { Counts (D.disk self.old.beneath) (D.disk self.new.beneath) result }
    {
        self.books
            .put_working(&mut self.device, number, header, content)
    }

    /// Writes the frozen frame of an object. It goes into the object's slot, or the next free one, in the log
    /// half without saved frames. Returns `Fault` exactly if the device failed; then the slot may hold any
    /// bytes. Returns `NoCheckpoint` exactly if no checkpoint is frozen.
    pub fn put_frozen(
        &mut self,
        number: u64,
        header: ObjectHeader,
        content: ContentRef<'_>,
    ) -> Result<(), Refusal>
        requires object { IsObject self.old.books.plan.geometry number }
        requires keepable { IsKeepable self.old.books.plan.geometry most number
            (record { header = header; content = content_behind content }) }
        requires room { (f : FrozenPuts) → (stored_of D.disk self.old).frozen ≡ Some f
            → HasFreeSlot f.size f.put number }
        ensures put { OnOk result (stored_of D.disk self.new
            ≡ with_frozen number (Kept (record { header = header; content = content_behind content.entry }))
            (stored_of D.disk self.old)) }
        ensures broken { OnErr result (stored_of D.disk self.new
            ≡ with_frozen number Broken (stored_of D.disk self.old)) }
        ensures answer { IsPutAnswer (D.disk self.old.beneath) (D.disk self.new.beneath)
            (option_map left_of (stored_of D.disk self.old).frozen) result }
        ensures goes_on { GoesOn D.disk self.old self.new }
    {
        match self.books.frozen_size {
            None => Err(Refusal::NoCheckpoint),
            Some(_) => {
                self.books
                    .put_running(&mut self.device, number, header, content)?;
                Ok(())
            }
        }
    }

    /// Freezes a checkpoint of `size` objects. The working frames become frozen ones, and count among the
    /// `size`. It makes no device call. Returns `CheckpointRunning` exactly if a checkpoint is frozen
    /// already, else `MigrationPending` exactly if a saved object isn't home.
    pub fn freeze(&mut self, size: u64) -> Result<(), Refusal>
        requires enough { sum_of held_slot (stored_of D.disk self.old).working ≤ size }
        requires few { size ≤ self.old.books.plan.geometry.log }
        ensures frozen { OnOk result
            (stored_of D.disk self.new ≡ freezing_puts size (stored_of D.disk self.old)) }
        ensures unchanged { OnErr result (self.new ≡ self.old) }
        ensures answer { IsFreezeAnswer (option_map left_of (stored_of D.disk self.old).frozen)
            (stored_of D.disk self.old).saved.entries result }
        ensures beneath { self.new.beneath ≡ self.old.beneath }
        ensures plan { self.new.books.plan ≡ self.old.books.plan }
        ensures sound { is_sound D.disk self.old → is_sound D.disk self.new }
    {
        if self.books.frozen_size.is_some() {
            return Err(Refusal::CheckpointRunning);
        }
        if self.books.header.entries != 0 {
            return Err(Refusal::MigrationPending);
        }
        self.books.freeze(size);
        Ok(())
    }

    /// Commits the frozen checkpoint at an age: its frames are saved, and other objects keep their saved
    /// frames. Returns its generation.
    ///
    /// Returns `NoCheckpoint` exactly if no checkpoint is frozen, else `NotStable(left)` exactly if `left` of
    /// its frames aren't in the log yet. Returns `Fault` exactly if the device failed; then a crash leaves
    /// what was saved before, or the same with the frozen frames.
    pub fn commit(&mut self, age: u64) -> Result<u64, Refusal>
        requires sound { is_sound D.disk self.old }
        requires ready { (f : FrozenPuts) → (stored_of D.disk self.old).frozen ≡ Some f
            → MayCommit puts age f (stored_of D.disk self.old).saved }
        ensures committed { (f : FrozenPuts) → (stored_of D.disk self.old).frozen ≡ Some f
            → OnOk result (stored_of D.disk self.new
            ≡ on_snapshots (committed puts age f) (stored_of D.disk self.old)) }
        ensures stable { OnOk result ((f : FrozenPuts) × ((stored_of D.disk self.old).frozen ≡ Some f)
            × (left_of f ≡ 0)) }
        ensures unchanged { OnErr result (stored_of D.disk self.new ≡ stored_of D.disk self.old) }
        ensures untouched { IsRefused result → self.new ≡ self.old }
        ensures plan { self.new.books.plan ≡ self.old.books.plan }
        ensures answer { IsCommitAnswer (D.disk self.old.beneath) (D.disk self.new.beneath)
            (option_map left_of (stored_of D.disk self.old).frozen)
            (stored_of D.disk self.old).saved.generation result }
        ensures sound { IsErrOf result Refusal.Fault ⊎ is_sound D.disk self.new }
        ensures size { (D.disk self.new.beneath).sectors ≡ (D.disk self.old.beneath).sectors }
        ensures any_moment { LeavesOneOf (D.disk self.old.beneath) (D.disk self.new.beneath)
            (stored_of D.disk self.old).saved
            (option_map (λ f. next_saved puts age f (stored_of D.disk self.old).saved)
            (stored_of D.disk self.old).frozen) }
    {
        let Some(left) = self.books.left() else {
            return Err(Refusal::NoCheckpoint);
        };
        if left != 0 {
            return Err(Refusal::NotStable(left));
        }
        self.books.commit(&mut self.device, &mut self.spare, age)?;
        Ok(self.books.header.generation)
    }
}
