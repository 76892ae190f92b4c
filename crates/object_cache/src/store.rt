// The store of objects over a device.
ghost use Rattle.std.specs.Prelude.{◌∷◌, ◌≡◌, ◌≢◌, ◌<◌, ◌-◌, None, false, true, ℕ, length, slice_set, take, OnOk};
ghost use Rattle.model.specs.Frame.{header_at, held_at};
ghost use Rattle.migrator.specs.Durable.{stored_of};

use crate::all_objects::copy_objects;
use crate::frozen::{FrozenState, own_body, put_body, state_by};
use crate::headers::FrozenHeaders;
use crate::policy::{KeepAll, KeepRecent, Policy};
use crate::staging::Staging;
use cache_entries::Entries;
use capability::ObjectTable;
use collections::NumberSet;
use device::{Device, Failed};
use layout::{Scratch, Superblock};
use migrator::{AllObjects, Durable, WholeStore};
use std::alloc::{AllocError, Global};
use std::marker::{Model, PhantomData};

mod durable;
mod fetch;
mod journal;
mod open;
mod prepare;
mod present;
mod stabilize;

/// The objects over a device. The headers of all objects are always in memory; the policy says which bodies
/// are. Objects with an entry have their bodies in memory. The other bodies are on the device, or one of them
/// in `staging`.
#[derive(Drop)]
pub struct Store<D: Device, P: Policy> {
    durable: Durable<D>,
    table: ObjectTable,
    /// The numbers written since the last freeze.
    touched: NumberSet,
    /// How many numbers are touched.
    touched_count: u64,
    /// The touched numbers whose present frame isn't in the log.
    dirty: NumberSet,
    entries: Entries,
    /// The numbers whose frozen frame isn't in the log.
    pending: NumberSet,
    /// The headers of pending numbers at the freeze.
    frozen_headers: FrozenHeaders,
    /// How many objects of the frozen checkpoint `stabilize` has yet to reach.
    left: u64,
    /// A frozen body without an entry; its slot may be torn.
    staging: Staging,
    scratch: Scratch,
    policy: PhantomData<P>,
}

/// The store that keeps all bodies in memory, from opening on.
pub type PlainStore<D> = Store<D, KeepAll>;

/// The store that keeps at most its capacity of objects in memory.
pub type BoundedCache<D> = Store<D, KeepRecent>;

impl<D: Device, P: Policy> Model for Store<D, P> {
    ghost use Rattle.migrator.specs.Durable.{stored_of};
    ghost use Rattle.object_cache.specs.Memory.{memory_of};
    ghost use Rattle.object_cache.specs.StoreState.{StoreState, IsCache, cache_of};

    ghost Value = { StoreState D };

    ghost view = { λ s. cache_of D.disk s.durable
        (memory_of s.table s.frozen_headers s.touched s.dirty s.pending s.entries.at s.staging)
        s.left s.entries.order s.entries.most };

    ghost invariant = { λ s. IsCache P.KEEPS_ALL (stored_of D.disk s.durable)
        (memory_of s.table s.frozen_headers s.touched s.dirty s.pending s.entries.at s.staging)
        s.left s.touched_count };
}

impl<D: Device, P: Policy> Store<D, P> {
    ghost use Rattle.object_cache.specs.Memory.{Nothing, Shared, Apart, released, mark_at, masked};
    ghost use Rattle.object_cache.specs.StoreState.{IsBounded, IsFetchedIn, Moves, on_device, on_device_with};
    ghost use Rattle.object_cache.specs.StoreState.{AreKeepableIn, IsKeepableIn, frozen_state_at, cached_at};
    ghost use Rattle.object_cache.specs.StoreState.{pending_count, without_cached};
    ghost use Rattle.cache_entries.specs.Order.{without};

    /// Returns how many objects are in memory: never more than the capacity.
    pub fn len(&self) -> usize
        ensures count { result ≡ length self.now.order }
        ensures bounded { IsBounded self.now }
    {
        self.entries.len()
    }

    // Returns the durable store and the entries, and drops all else in memory.
    fn into_durable(self) -> (Durable<D>, Entries)
        ensures { result.0 ≡ self.durable }
    {
        let Store {
            durable,
            table,
            touched,
            dirty,
            entries,
            pending,
            frozen_headers,
            staging,
            scratch,
            ..
        } = self;
        // Drops the fields as two tuples, because each drop by itself would be one more step of this proof.
        drop((table, touched, dirty, pending));
        drop((frozen_headers, staging, scratch));
        (durable, entries)
    }

    // Marks an object as used last, if it has an entry. Returns whether it has one.
    pub(crate) fn use_now(&mut self, number: u64) -> bool
        requires { number < length self.old.headers }
        ensures fetched { result ≡ true → IsFetchedIn self.old number }
        ensures uncached { result ≡ false → cached_at self.old.cached number ≡ false }
        ensures used { result ≡ true → self.new
            ≡ record self.old { order = number ∷ without number self.old.order } }
        ensures unchanged { result ≡ false → self.new ≡ self.old }
        ensures bounded { IsBounded self.old }
    {
        self.entries.promote(number)
    }

    // Makes a frozen copy of an object's body, which its present and its unwritten frozen frame share.
    pub(crate) fn keep_apart(&mut self, number: u64)
        requires fetched { IsFetchedIn self.old number }
        requires shared { frozen_state_at self.old.frozen_state number ≡ Shared }
        ensures { self.new ≡ record self.old { frozen_state = slice_set self.old.frozen_state number Apart } }
    {
        self.entries.keep_apart(number);
    }

    // Removes the entry of a clean object. The log must have its frozen frame, if there is one.
    pub(crate) fn drop_entry(&mut self, number: u64)
        requires fetched { IsFetchedIn self.old number }
        requires clean { mark_at self.old.dirty number ≡ false }
        requires frozen_state { frozen_state_at self.old.frozen_state number ≡ Nothing }
        requires masked { masked (header_at self.old.headers number).role (held_at self.old.contents number)
            ≡ held_at self.old.contents number }
        requires some { P.KEEPS_ALL ≡ false }
        ensures { self.new ≡ record self.old {
          cached = slice_set self.old.cached number false;
          order = without number self.old.order;
        } }
    {
        self.entries.remove(number);
    }

    // Writes the present frame of a dirty object, and clears its dirty mark. After `Failed` the object is still
    // dirty.
    pub(crate) fn put_present(&mut self, number: u64) -> Result<(), Failed>
        requires fetched { IsFetchedIn self.old number }
        requires dirty { mark_at self.old.dirty number ≡ true }
        requires keepable { IsKeepableIn D.disk self.old number }
        ensures clean { OnOk result (mark_at self.new.dirty number ≡ false) }
        ensures frozen_state { self.new.frozen_state ≡ self.old.frozen_state }
        ensures staging { self.new.staging ≡ self.old.staging }
        ensures moves { Moves D.disk on_device self.old self.new result }
    {
        let header = self.table.header(number);
        self.durable
            .put_working(number, header, self.entries.present(number))?;
        self.dirty.set(number as usize, false);
        Ok(())
    }

    // Writes the frozen frame of an object from its entry. After `Failed` the object is still pending.
    pub(crate) fn put_own_frozen(&mut self, number: u64) -> Result<(), Failed>
        requires fetched { IsFetchedIn self.old number }
        requires frozen_state { frozen_state_at self.old.frozen_state number ≢ Nothing }
        ensures put { OnOk result (self.new ≡ record self.old {
          durable = self.new.durable;
          pending = slice_set self.old.pending number false;
          frozen_state = slice_set self.old.frozen_state number Nothing;
          staging = released number self.old.staging;
        }) }
        ensures fewer { OnOk result (pending_count self.new < pending_count self.old) }
        ensures empty { self.old.staging ≡ None → self.new.staging ≡ None }
        ensures moves { Moves D.disk on_device self.old self.new result }
    {
        let header = self.frozen_headers.header(number);
        let content = own_body(&self.entries, number);
        put_body(&mut self.durable, number, header, content)?;
        self.pending.set(number as usize, false);
        self.entries.drop_kept(number);
        self.staging.release(number);
        Ok(())
    }

    // Returns which body an object's entry has for a frozen frame that isn't in the log. `Nothing` if the object has
    // no entry.
    pub(crate) fn frozen_state(&self, number: u64) -> FrozenState
        requires { number < length self.now.headers }
        ensures fetched { result ≢ Nothing → IsFetchedIn self.now number }
        ensures state { result ≡ frozen_state_at self.now.frozen_state number }
    {
        let is_pending = self.pending.contains(number as usize);
        let is_touched = self.touched.contains(number as usize);
        if self.entries.holds(number) {
            return state_by(is_pending, self.entries.kept(number).is_some(), is_touched);
        }
        FrozenState::Nothing
    }

    // Writes an object's frozen frame from its entry, if the entry has a frozen body that isn't in the log.
    fn write_frozen(&mut self, number: u64) -> Result<(), Failed>
        requires { IsFetchedIn self.old number }
        ensures frozen_written { OnOk result (frozen_state_at self.new.frozen_state number ≡ Nothing) }
        ensures empty { self.old.staging ≡ None → self.new.staging ≡ None }
        ensures moves { Moves D.disk on_device self.old self.new result }
    {
        match self.frozen_state(number) {
            FrozenState::Nothing => Ok(()),
            _ => self.put_own_frozen(number),
        }
    }

    // If an object is dirty, writes its present frame and clears its dirty mark.
    fn write_back(&mut self, number: u64) -> Result<(), Failed>
        requires fetched { IsFetchedIn self.old number }
        requires keepable { IsKeepableIn D.disk self.old number }
        ensures clean { OnOk result (mark_at self.new.dirty number ≡ false) }
        ensures frozen_state { self.new.frozen_state ≡ self.old.frozen_state }
        ensures staging { self.new.staging ≡ self.old.staging }
        ensures moves { Moves D.disk on_device self.old self.new result }
    {
        if self.dirty.contains(number as usize) {
            return self.put_present(number);
        }
        Ok(())
    }

    // Writes the frames of an entry that aren't in the log, and evicts the entry. After `Failed` the entry
    // stays.
    pub(crate) fn write_and_evict(&mut self, number: u64) -> Result<(), Failed>
        requires fetched { IsFetchedIn self.old number }
        requires keepable { IsKeepableIn D.disk self.old number }
        requires some { P.KEEPS_ALL ≡ false }
        ensures away { OnOk result (self.new ≡ without_cached number (on_device self.old self.new)) }
        ensures empty { self.old.staging ≡ None → self.new.staging ≡ None }
        ensures moves { Moves D.disk on_device_with self.old self.new result }
    {
        self.write_frozen(number)?;
        self.write_back(number)?;
        self.drop_entry(number);
        Ok(())
    }

    // If the cache is full, evicts the entry used longest ago. After `Failed` the entry stays.
    pub(crate) fn make_room(&mut self) -> Result<(), Failed>
        requires keepable { AreKeepableIn D.disk self.old }
        requires some { P.KEEPS_ALL ≡ false }
        ensures room { OnOk result (length self.new.order < self.new.capacity) }
        ensures uncached { OnOk result ((n : ℕ) → cached_at self.old.cached n ≡ false
            → cached_at self.new.cached n ≡ false) }
        ensures least { OnOk result (self.new.order ≡ take (self.old.capacity - 1) self.old.order) }
        ensures empty { self.old.staging ≡ None → self.new.staging ≡ None }
        ensures moves { Moves D.disk on_device_with self.old self.new result }
    {
        if self.entries.is_full() {
            let Some(oldest) = self.entries.least() else {
                unreachable!()
            };
            return self.write_and_evict(oldest);
        }
        Ok(())
    }
}

impl<D: Device> WholeStore<D> for PlainStore<D> {
    ghost use Rattle.std.proofs.Common.{refl};

    ghost durable = { λ s. s.durable };

    fn superblock(&self) -> &Superblock {
        self.durable.superblock()
    }

    fn into_parts(self, alloc: Global) -> (Durable<D>, Result<AllObjects, AllocError>) {
        let objects = copy_objects(alloc, &self.table, &self.entries);
        let (durable, entries) = self.into_durable();
        drop(entries);
        (durable, objects)
    }

    ghost is_over = { λ s. record { beneath = refl; saved = refl; sound = λ sound. sound } };

    ghost still = { λ s t there. there.still refl };
}
