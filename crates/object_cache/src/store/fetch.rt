// Fetches bodies into memory, and evicts those used longest ago.
ghost use Rattle.std.specs.Prelude.{◌≡◌, ℕ, ◌<◌, ◌≤◌, ◌∷◌, None, false, true, length, take, OnOk};
ghost use Rattle.std.specs.List.{All, Contains};
ghost use Rattle.cache_entries.specs.Entries.{entry_at};
ghost use Rattle.cache_entries.specs.Order.{used_in_turn, with_new, without};
ghost use Rattle.layout.specs.Frame.{content_of};
ghost use Rattle.object_cache.specs.Memory.{masked};
ghost use Rattle.object_cache.specs.StoreState.{on_device_with, GoesOnIn, IsFetchedIn, Moves, cached_at, with_cached};
ghost use Rattle.object_cache.specs.StoreState.{AreKeepableIn};

use crate::frozen::mask;
use crate::policy::Policy;
use crate::store::Store;
use cache_entries::Entries;
use device::{Device, Failed};
use layout::{Body, Scratch};
use model::Role;

// Adds an entry with a body that was read; the body is `Free` if the object's role is `Free`.
fn insert_read(entries: &mut Entries, number: u64, role: Role, body: &Body, scratch: &Scratch)
    requires known { number < length entries.old.at }
    requires absent { entry_at entries.old.at number ≡ None }
    requires room { length entries.old.order < entries.old.most }
    ensures { entries.new ≡ with_new number
        (masked role (content_of body.now scratch.now.slots scratch.now.words)) entries.old }
{
    entries.insert(number, mask(role, body.content(scratch)));
}

impl<D: Device, P: Policy> Store<D, P> {
    // Reads the body of an object that has no entry, and adds its entry. The staging buffer must be empty.
    fn read(&mut self, number: u64) -> Result<(), Failed>
        requires known { number < length self.old.headers }
        requires uncached { cached_at self.old.cached number ≡ false }
        requires empty { self.old.staging ≡ None }
        requires room { length self.old.order < self.old.capacity }
        ensures cached { OnOk result (self.new
            ≡ with_cached number (record self.old { durable = self.new.durable })) }
        ensures empty { self.new.staging ≡ None }
        ensures moves { Moves D.disk on_device_with self.old self.new result }
    {
        let read = self.durable.fetch(number, &mut self.scratch)?;
        let header = self.table.header(number);
        insert_read(
            &mut self.entries,
            number,
            header.role,
            &read.1,
            &self.scratch,
        );
        Ok(())
    }

    // Fetches an object that has no entry. If the cache is full, it first evicts the entry used longest ago. The
    // staging buffer must be empty.
    #[inline(never)]
    fn read_in(&mut self, number: u64) -> Result<(), Failed>
        requires known { number < length self.old.headers }
        requires uncached { cached_at self.old.cached number ≡ false }
        requires empty { self.old.staging ≡ None }
        requires keepable { AreKeepableIn D.disk self.old }
        requires some { P.KEEPS_ALL ≡ false }
        ensures order { OnOk result (self.new.order ≡ take self.old.capacity (number ∷ self.old.order)) }
        ensures empty { self.new.staging ≡ None }
        ensures moves { Moves D.disk on_device_with self.old self.new result }
    {
        self.make_room()?;
        self.read(number)
    }

    // Marks an object as used last, and fetches it if it has no entry. The staging buffer must be empty.
    fn fetch_one(&mut self, number: u64) -> Result<(), Failed>
        requires known { number < length self.old.headers }
        requires empty { self.old.staging ≡ None }
        requires keepable { AreKeepableIn D.disk self.old }
        requires some { P.KEEPS_ALL ≡ false }
        ensures order { OnOk result (self.new.order
            ≡ take self.old.capacity (number ∷ without number self.old.order)) }
        ensures empty { self.new.staging ≡ None }
        ensures moves { Moves D.disk on_device_with self.old self.new result }
    {
        if self.use_now(number) {
            return Ok(());
        }
        self.read_in(number)
    }

    // Marks objects as used, in turn, up to the first that has no entry. Returns whether it marked all; then all are
    // in memory.
    pub(crate) fn use_again(&mut self, numbers: &[u64]) -> bool
        requires { All (λ n. n < length self.old.headers) numbers.now }
        ensures fetched { result ≡ true → (n : ℕ) → Contains numbers.now n → IsFetchedIn self.new n }
        ensures used { result ≡ true → self.new.order ≡ used_in_turn numbers.now self.old.order }
        ensures prefix { (k : ℕ) × (self.new.order ≡ used_in_turn (take k numbers.now) self.old.order) }
        ensures few { length self.new.order ≤ self.new.capacity }
        ensures least { 8 ≤ self.new.capacity }
        ensures each { length self.old.contents ≡ length self.old.headers }
        ensures rest { self.new ≡ record self.old { order = self.new.order } }
        ensures continues { GoesOnIn D.disk self.old self.new }
    {
        self.entries.use_again(numbers)
    }

    // Empties the staging buffer, then fetches the objects of a list in turn.
    pub(crate) fn read_all_in(&mut self, fetched: &[u64]) -> Result<(), Failed>
        requires known { All (λ n. n < length self.old.headers) fetched.now }
        requires bounded { length self.old.order ≤ self.old.capacity }
        requires keepable { AreKeepableIn D.disk self.old }
        requires some { P.KEEPS_ALL ≡ false }
        ensures order { OnOk result (self.new.order
            ≡ take self.old.capacity (used_in_turn fetched.now self.old.order)) }
        ensures moves { Moves D.disk on_device_with self.old self.new result }
    {
        self.empty_staging()?;
        for number in fetched {
            self.fetch_one(*number)?;
        }
        Ok(())
    }
}
