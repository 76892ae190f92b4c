// Opening a store over a device, and the stages of a checkpoint.
ghost use Rattle.std.specs.Prelude.{◌≡◌, ◌<◌, ℕ, true, false, length, replicate, IfOk, IfErr, OnOk};
ghost use Rattle.capability.specs.Parts.{AreSameUnlessFailed, MayFetch};
ghost use Rattle.checkpoint.specs.Opened.{Refuses};
ghost use Rattle.device.specs.Calls.{Counts};
ghost use Rattle.model.specs.Frame.{header_at};
ghost use Rattle.checkpoint.specs.Store.{OpensStore};
ghost use Rattle.object_cache.specs.Memory.{mark_at};
ghost use Rattle.object_cache.specs.StoreState.{ContinuesIn, HasCapacity, IsUsableIn, on_device, parts_of, cached_at, view_of};
ghost use Rattle.object_cache.specs.StoreState.{without_cached};

use crate::headers::FrozenHeaders;
use crate::policy::Policy;
use crate::saved_objects::SavedObjects;
use crate::store::Store;
use crate::store::journal::journal_page;
use cache_entries::Entries;
use capability::ObjectTable;
use checkpoint::{Checkpoint, ObjectStore, OpenFault, OpenRefused};
use collections::NumberSet;
use device::{Device, Failed};
use migrator::{Durable, Opened};
use model::Refusal;
use std::alloc::Global;
use std::mem;

// Makes the dirty numbers pending, with their present headers. Afterwards no number is dirty or touched.
fn take_written(
    frozen_headers: &mut FrozenHeaders,
    table: &ObjectTable,
    pending: &mut NumberSet,
    dirty: &mut NumberSet,
    touched: &mut NumberSet,
)
    requires each { length dirty.old ≡ length frozen_headers.old }
    ensures count { length frozen_headers.new ≡ length frozen_headers.old }
    ensures marked { (n : ℕ) → mark_at dirty.old n ≡ true
        → header_at frozen_headers.new n ≡ header_at table.now n }
    ensures pending { pending.new ≡ dirty.old }
    ensures dirty { dirty.new ≡ replicate (length pending.old) false }
    ensures touched { touched.new ≡ replicate (length touched.old) false }
{
    frozen_headers.take_marked(table, dirty);
    mem::swap(pending, dirty);
    dirty.clear();
    touched.clear();
}

impl<D: Device, P: Policy> ObjectStore<D> for Store<D, P> {
    type Setting = P::Setting;

    type Memory = Entries;

    ghost view = { view_of D.disk };

    ghost is_set = { λ setting s. HasCapacity (P.most_for setting) s };

    /// Opens a device, and allocates all memory that the store will need. If the policy keeps all bodies in
    /// memory, reads them now; otherwise none is in memory at first. Errors: see `ObjectStore::open`.
    fn open(
        alloc: Global,
        device: D,
        setting: P::Setting,
        memory: &mut Option<Entries>,
    ) -> Result<Self, OpenRefused<D>>
        ensures opened { IfOk result (λ s. OpensStore D.disk device (parts_of D.disk s) (view_of D.disk s)) }
        ensures set { IfOk result (λ s. HasCapacity (P.most_for setting) s) }
        ensures bound { IfOk result (λ s. s.capacity ≡ P.most_for setting (length s.headers)) }
        ensures refused { IfErr result (λ r. Refuses D.disk device r.device r.fault) }
    {
        match Durable::open::<SavedObjects<P>>(alloc, device, memory) {
            Ok(opened) => {
                let Opened { store, taken } = opened;
                match Store::over(alloc, store, taken, setting, memory) {
                    Ok(store) => Ok(store),
                    Err(device) => Err(OpenRefused {
                        fault: OpenFault::NoMemory,
                        device,
                    }),
                }
            }
            Err(refused) => Err(refused),
        }
    }

    fn device(&self) -> &D {
        self.durable.device()
    }

    fn into_device(self) -> D {
        let (durable, entries) = self.into_durable();
        drop(entries);
        durable.into_device()
    }

    fn close(self, memory: &mut Option<Entries>) -> D {
        let (durable, entries) = self.into_durable();
        drop(memory.replace(entries));
        durable.into_device()
    }

    fn saved(&self) -> Checkpoint {
        self.durable.saved()
    }

    fn left(&self) -> Option<u64> {
        match self.durable.left() {
            Some(_) => Some(self.left),
            None => None,
        }
    }

    /// Removes the entry of an object, unless the policy keeps all bodies in memory. First writes those of
    /// its frames that aren't in the log. Does nothing if the object has no entry. Fails exactly if the
    /// device fails.
    fn evict(&mut self, number: u64) -> Result<(), Failed>
        requires known { number < length self.old.headers }
        requires may { MayFetch (IsUsableIn D.disk) (parts_of D.disk) self.old }
        ensures gone { OnOk result (P.KEEPS_ALL ≡ false → cached_at self.new.cached number ≡ false) }
        ensures away { OnOk result (P.KEEPS_ALL ≡ false → cached_at self.old.cached number ≡ true
            → self.new ≡ without_cached number (on_device self.old self.new)) }
        ensures none { cached_at self.old.cached number ≡ false → self.new ≡ self.old }
        ensures all { P.KEEPS_ALL ≡ true → self.new ≡ self.old }
        ensures same { AreSameUnlessFailed (parts_of D.disk self.old) (parts_of D.disk self.new) }
        ensures continues { ContinuesIn P.KEEPS_ALL D.disk self.old self.new }
        ensures cause { Counts (D.disk self.old.durable.beneath) (D.disk self.new.durable.beneath) result }
    {
        if P::KEEPS_ALL {
            return Ok(());
        }
        if self.entries.holds(number) {
            return self.write_and_evict(number);
        }
        Ok(())
    }

    fn freeze(&mut self) -> Result<u64, Refusal> {
        let size = self.touched_count;
        self.durable.freeze(size)?;
        take_written(
            &mut self.frozen_headers,
            &self.table,
            &mut self.pending,
            &mut self.dirty,
            &mut self.touched,
        );
        self.touched_count = 0;
        self.left = size;
        Ok(size)
    }

    /// Writes `count` of the frozen objects to the log, and returns how many it has yet to reach. An object
    /// that an eviction wrote early counts as not reached until its turn. Refusals: see
    /// `ObjectStore::stabilize`.
    fn stabilize(&mut self, count: u64) -> Result<u64, Refusal> {
        let Some(left) = self.left() else {
            return Err(Refusal::NoCheckpoint);
        };
        let some = count.min(left);
        self.put_some(some)?;
        Ok(left - some)
    }

    fn commit(&mut self, age: u64) -> Result<u64, Refusal> {
        // `Durable::commit` counts the frozen frames that aren't in the log. That count is lower if an
        // eviction wrote some early. The count here is the model's; if it is 0, so is the other.
        let Some(left) = self.left() else {
            return Err(Refusal::NoCheckpoint);
        };
        if left != 0 {
            return Err(Refusal::NotStable(left));
        }
        self.durable.commit(age)
    }

    fn migrate(&mut self, count: u64) -> Result<u64, Failed> {
        self.durable.migrate(count)
    }

    /// Saves the present words of a page. If the page isn't in memory, its words are read into the scratch buffer,
    /// which `open` allocated. Refusals: see `ObjectStore::journal`.
    fn journal(&mut self, number: u64, age: u64) -> Result<u64, Refusal> {
        journal_page(
            &mut self.durable,
            &self.table,
            &self.entries,
            &mut self.scratch,
            number,
            age,
        )
    }

    ghost use Rattle.std.proofs.Common.{◌∙◌, refl};
    ghost use Rattle.object_cache.specs.Laws.{continues_by, holds_by};

    ghost continues = { λ s t h. continues_by D.disk s t h.goes_on };

    ghost continues_peeks = { λ s t h none idle. h.goes_on.only_reads none idle };

    ghost stays_set = { λ setting s t h set. (set.0, h.goes_on.capacity ∙ set.1) };

    ghost usable_is = { λ s. (λ usable. usable, λ usable. usable) };

    ghost sound_holds = { λ s c sound left. holds_by D.disk s c sound left };

    ghost failures_are = { λ s. refl };

    ghost geometry_is = { λ s. refl };
}
