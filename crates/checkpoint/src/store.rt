// The trait of object stores.
ghost use Rattle.std.specs.Prelude.{◌≡◌, ◌⊎◌, ◌↔◌, ℕ, ◌-◌, ◌<◌, ◌≤◌, ◌^◌, None, Some, length, nat_lt, IfOk, IfErr, OnOk};
ghost use Rattle.std.specs.Prelude.{OnErr, IsErrOf};
ghost use Rattle.model.specs.Machine.{untouched, touched_count};
ghost use Rattle.device.specs.Disk.{Image};
ghost use Rattle.device.specs.Calls.{Counts};
ghost use Rattle.device.specs.Moments.{Peeks};
ghost use Rattle.checkpoint.specs.Saved.{Holds, LeavesSaved, LeavesEither, LeavesOneOf};
ghost use Rattle.checkpoint.specs.Snapshots.{MayCommit, committed, freezing, journaled, left_in, moved, moved_saved};
ghost use Rattle.checkpoint.specs.Snapshots.{next_saved};
ghost use Rattle.checkpoint.specs.Journal.{is_page_now, is_still_saved, next_journaled, words_now};
ghost use Rattle.checkpoint.specs.Opened.{Refuses};
ghost use Rattle.capability.specs.Parts.{AreSameUnlessFailed, MayFetch, frames_of};
ghost use Rattle.checkpoint.specs.Refused.{IsCommitAnswer, IsFreezeAnswer, IsJournalAnswer, IsRefused, IsTurnedAway};
ghost use Rattle.checkpoint.specs.Store.{all_frozen, all_untouched, whole, FrozenFrames, View, Continues, OpensStore, stabilized};
ghost use Rattle.checkpoint.specs.Store.{IsStabilizeAnswer};

use crate::{Checkpoint, OpenRefused};
use capability::PresentFrames;
use device::{Device, Failed};
use model::Refusal;
use std::alloc::Global;

/// A store over a device: the present objects, the frozen ones of a checkpoint that isn't committed yet, and
/// the saved ones of the committed checkpoint.
///
/// After a call in which the device failed, the objects are unknown and no call can follow: give the device
/// back and open it again. A crash then leaves what was saved. If the call was `commit`, `journal`, or the
/// `migrate` of the last object, it leaves this or what the call saves.
pub trait ObjectStore<D: Device>: PresentFrames + Sized {
    /// How a store is set up.
    type Setting: Copy;

    /// Memory of a closed store, which the next one can use.
    type Memory: Drop;

    /// The device, the frozen and the saved state, and whether the store can be used.
    ghost view: { Self → View D };

    /// Whether a store has this setting, such as the capacity of a cache.
    ghost is_set: { Self.Setting → Self → Type 0 };

    /// Opens a device, and writes nothing to it. The present objects are the saved ones. The store may take
    /// over `memory`, instead of allocating its own.
    ///
    /// A refusal gives the device back, with `Failed` exactly if the device failed, `NoMemory` only if memory
    /// ran out, and else the least of reasons 1 to 7 to refuse an image.
    fn open(
        alloc: Global,
        device: D,
        setting: Self::Setting,
        memory: &mut Option<Self::Memory>,
    ) -> Result<Self, OpenRefused<D>>
        ensures opened { IfOk result (λ s. OpensStore D.disk device (Self.parts s) (view s)) }
        ensures set { IfOk result (λ s. is_set setting s) }
        ensures refused { IfErr result (λ r. Refuses D.disk device r.device r.fault) };

    /// The device. No call may be made on it.
    fn device(&self) -> &D
        ensures { result.now ≡ (view self.now).beneath };

    /// Returns the device, and makes no call on it.
    fn into_device(self) -> D
        ensures { result ≡ (view self).beneath };

    /// Returns the device, and makes no call on it. Leaves the store's memory in `memory`.
    fn close(self, memory: &mut Option<Self::Memory>) -> D
        ensures { result ≡ (view self).beneath };

    /// The generation, the age and the number of entries of the committed checkpoint.
    fn saved(&self) -> Checkpoint
        ensures generation { result.generation ≡ (view self.now).snapshots.saved.generation }
        ensures age { result.age ≡ (view self.now).snapshots.saved.age }
        ensures entries { result.entries ≡ (view self.now).snapshots.saved.entries };

    /// How many objects of the frozen checkpoint `stabilize` has yet to reach, or `None` if none is
    /// frozen.
    fn left(&self) -> Option<u64>
        ensures { result ≡ left_in whole (view self.now).snapshots };

    /// Removes an object from memory, if the store's policy allows it. Fails exactly if the device fails.
    fn evict(&mut self, number: u64) -> Result<(), Failed>
        requires known { number < length (Self.parts self.old).headers }
        requires may { MayFetch Self.IsUsable Self.parts self.old }
        ensures same { AreSameUnlessFailed (Self.parts self.old) (Self.parts self.new) }
        ensures continues { Self.ContinuesTo self.old self.new }
        ensures cause { Counts (D.disk (view self.old).beneath) (D.disk (view self.new).beneath) result };

    /// Begins a checkpoint: freezes all objects in their present state. Returns how many were written since
    /// the last checkpoint began. It doesn't allocate, and makes no call on the device.
    ///
    /// Returns `CheckpointRunning` exactly if a checkpoint is frozen already, else `MigrationPending` exactly
    /// if a saved object isn't home. A refusal changes nothing.
    fn freeze(&mut self) -> Result<u64, Refusal>
        requires may { MayFetch Self.IsUsable Self.parts self.old }
        ensures answer { IsFreezeAnswer (left_in whole (view self.old).snapshots)
            (view self.old).snapshots.saved.entries result }
        ensures unchanged { OnErr result (self.new ≡ self.old) }
        ensures size { IfOk result (λ n. n ≡ touched_count (Self.parts self.old).touched) }
        ensures same { OnOk result (Self.parts self.new ≡ all_untouched (Self.parts self.old)) }
        ensures snapshots { OnOk result ((view self.new).snapshots
            ≡ freezing (all_frozen (frames_of (Self.parts self.old)) (touched_count (Self.parts self.old).touched))
            (view self.old).snapshots) }
        ensures beneath { (view self.new).beneath ≡ (view self.old).beneath }
        ensures usable { OnOk result ((view self.new).usable) };

    /// Writes the next `count` frozen objects to the log, and returns how many are left.
    ///
    /// Returns `NoCheckpoint` exactly if no checkpoint is frozen; then nothing changes. Returns `Fault`
    /// exactly if the device failed.
    fn stabilize(&mut self, count: u64) -> Result<u64, Refusal>
        requires usable { (view self.old).usable }
        ensures answer { IsStabilizeAnswer (D.disk (view self.old).beneath) (D.disk (view self.new).beneath)
            (left_in whole (view self.old).snapshots) count result }
        ensures unchanged { IsRefused result → self.new ≡ self.old }
        ensures same { AreSameUnlessFailed (Self.parts self.old) (Self.parts self.new) }
        ensures snapshots { (f : FrozenFrames) → (view self.old).snapshots.frozen ≡ Some f
            → OnOk result ((view self.new).snapshots ≡ stabilized count f (view self.old).snapshots) }
        ensures usable { OnOk result ((view self.new).usable) }
        ensures size { (D.disk (view self.new).beneath).sectors ≡ (D.disk (view self.old).beneath).sectors }
        ensures any_moment { LeavesSaved (D.disk (view self.old).beneath) (D.disk (view self.new).beneath)
            (view self.old).snapshots.saved };

    /// Commits the frozen checkpoint at an age: its frames are the saved ones from then on. Returns its
    /// generation.
    ///
    /// Returns `NoCheckpoint` exactly if no checkpoint is frozen, else `NotStable(left)` exactly if
    /// `stabilize` has yet to reach `left` of its objects. A refusal changes nothing. Returns `Fault` exactly
    /// if the device failed; then a crash leaves what was saved, or what was frozen.
    fn commit(&mut self, age: u64) -> Result<u64, Refusal>
        requires usable { (view self.old).usable }
        requires ready { (f : FrozenFrames) → (view self.old).snapshots.frozen ≡ Some f
            → MayCommit whole age f (view self.old).snapshots.saved }
        ensures answer { IsCommitAnswer (D.disk (view self.old).beneath) (D.disk (view self.new).beneath)
            (left_in whole (view self.old).snapshots) (view self.old).snapshots.saved.generation result }
        ensures unchanged { IsRefused result → self.new ≡ self.old }
        ensures same { AreSameUnlessFailed (Self.parts self.old) (Self.parts self.new) }
        ensures snapshots { (f : FrozenFrames) → (view self.old).snapshots.frozen ≡ Some f
            → OnOk result ((view self.new).snapshots ≡ committed whole age f (view self.old).snapshots) }
        ensures usable { OnOk result ((view self.new).usable) }
        ensures size { (D.disk (view self.new).beneath).sectors ≡ (D.disk (view self.old).beneath).sectors }
        ensures any_moment { (f : FrozenFrames) → (view self.old).snapshots.frozen ≡ Some f → f.left ≡ 0
            → LeavesEither (D.disk (view self.old).beneath) (D.disk (view self.new).beneath)
            (view self.old).snapshots.saved (next_saved whole age f (view self.old).snapshots.saved) };

    /// Copies `count` of the saved objects home, and returns how many are left. If all are home already (the
    /// header has 0 entries), it makes no call on the device.
    ///
    /// Fails exactly if the device does. Then a crash leaves what was saved. If this call was to bring the
    /// last object home, the header may have 0 entries.
    fn migrate(&mut self, count: u64) -> Result<u64, Failed>
        requires usable { (view self.old).usable }
        ensures same { AreSameUnlessFailed (Self.parts self.old) (Self.parts self.new) }
        ensures left { IfOk result (λ n. n ≡ (view self.old).snapshots.to_move - count) }
        ensures snapshots { OnOk result ((view self.new).snapshots ≡ moved count (view self.old).snapshots) }
        ensures untouched { (view self.old).snapshots.saved.entries ≡ 0 → self.new ≡ self.old }
        ensures usable { OnOk result ((view self.new).usable) }
        ensures size { (D.disk (view self.new).beneath).sectors ≡ (D.disk (view self.old).beneath).sectors }
        ensures any_moment { LeavesEither (D.disk (view self.old).beneath) (D.disk (view self.new).beneath)
            (view self.old).snapshots.saved (moved_saved count (view self.old).snapshots) }
        ensures cause { Counts (D.disk (view self.old).beneath) (D.disk (view self.new).beneath) result };

    /// Saves the present words of a page, at an age and without a checkpoint. All else that is saved stays:
    /// the page's owner and counts, and all other objects. Returns the new generation. It doesn't allocate.
    ///
    /// The first of these refusals that applies is returned: `CheckpointRunning` if a checkpoint is frozen,
    /// `MigrationPending` if a saved object isn't home, `BadNumber` if no object has the number,
    /// `NotJournaled(NotPage)` if it isn't a page, `NotJournaled(Renewed)` if no page is saved at the number,
    /// or the saved one was freed since. A refusal writes nothing, and only `Renewed` comes after a device
    /// call.
    ///
    /// Returns `Fault` exactly if the device failed. Then a crash leaves what was saved or, if no other
    /// refusal applies, the same with the page's new words.
    fn journal(&mut self, number: u64, age: u64) -> Result<u64, Refusal>
        requires may { MayFetch Self.IsUsable Self.parts self.old }
        requires later { (view self.old).snapshots.saved.age < age }
        requires most { age ≤ 2 ^ 62 }
        ensures answer { IsJournalAnswer (D.disk (view self.old).beneath) (D.disk (view self.new).beneath)
            (left_in whole (view self.old).snapshots) (view self.old).snapshots.saved
            (nat_lt number (length (Self.parts self.old).headers)) (is_page_now (Self.parts self.old) number)
            (is_still_saved (Self.parts self.old) (view self.old).snapshots.saved number) result }
        ensures turned_away { IsTurnedAway result → self.new ≡ self.old }
        ensures same { AreSameUnlessFailed (Self.parts self.old) (Self.parts self.new) }
        ensures usable { IsErrOf result Refusal.Fault ⊎ (view self.new).usable }
        ensures snapshots { OnOk result ((view self.new).snapshots ≡ journaled age number
            (words_now (Self.parts self.old) number) (view self.old).snapshots) }
        ensures refused { IsRefused result → (view self.new).snapshots ≡ (view self.old).snapshots }
        ensures size { (D.disk (view self.new).beneath).sectors ≡ (D.disk (view self.old).beneath).sectors }
        ensures any_moment { LeavesOneOf (D.disk (view self.old).beneath) (D.disk (view self.new).beneath)
            (view self.old).snapshots.saved (next_journaled age number
            (words_now (Self.parts self.old) number) (view self.old).snapshots.frozen
            (view self.old).snapshots.saved (is_page_now (Self.parts self.old) number)
            (is_still_saved (Self.parts self.old) (view self.old).snapshots.saved number)) };

    /// Fetching or changing present objects neither commits nor begins a checkpoint.
    ghost continues: { (s t : Self) → Self.ContinuesTo s t → Continues D.disk (view s) (view t) };

    /// If nothing was written since, and no checkpoint is frozen, the device was only read.
    ghost continues_peeks: { (s t : Self) → Self.ContinuesTo s t → touched_count (Self.parts t).touched ≡ 0
        → (view s).snapshots.frozen ≡ None → Peeks (D.disk (view s).beneath) (D.disk (view t).beneath) };

    /// Fetching or changing present objects keeps the setting.
    ghost stays_set: { (setting : Self.Setting) (s t : Self) → Self.ContinuesTo s t → is_set setting s
        → is_set setting t };

    /// The present objects can be used exactly if the store can.
    ghost usable_is: { (s : Self) → Self.IsUsable s ↔ (view s).usable };

    /// While a store can be used, a crash leaves what is saved.
    ghost sound_holds: { (s : Self) (c : Image) → (view s).usable → (D.disk (view s).beneath).may_leave c
        → Holds (D.disk (view s).beneath).sectors c (view s).snapshots.saved };

    ghost failures_are: { (s : Self) → (Self.parts s).failures ≡ (D.disk (view s).beneath).failures };

    ghost geometry_is: { (s : Self) → (Self.parts s).geometry ≡ (view s).snapshots.saved.geometry };
}
