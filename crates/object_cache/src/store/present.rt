// The present objects of a store.
ghost use Rattle.std.specs.Prelude.{◌≡◌, ◌↔◌, ◌<◌, ◌≤◌, ℕ, true, false, length, take, OnOk, IsErr};
ghost use Rattle.std.specs.List.{All, Contains};
ghost use Rattle.cache_entries.specs.Order.{used_in_turn};
ghost use Rattle.capability.specs.Parts.{MayFetch, OnlyFetches, Prepares, fresh_content};
ghost use Rattle.model.specs.Frame.{void_held};
ghost use Rattle.model.specs.Object.{role_of};
ghost use Rattle.object_cache.specs.StoreState.{ContinuesIn, IsAnnouncedIn, IsFetchedIn, IsUsableIn, parts_of};

use crate::policy::Policy;
use crate::store::Store;
use capability::{Frames, Fresh, MAX_FETCHED, ObjectTable, PresentFrames, RootChange};
use device::{Device, Failed};
use model::{Cap, ContentRef, Geometry, Refusal, Role};

// Returns the role of a new object.
fn role_of(fresh: Fresh) -> Role
    ensures { result ≡ role_of (fresh_content void_held fresh) }
{
    match fresh {
        Fresh::Page => Role::Page,
        Fresh::Node => Role::Node,
        Fresh::Root { .. } => Role::Root,
        Fresh::Annex => Role::Annex,
        Fresh::Bank { .. } => Role::Bank,
    }
}

impl<D: Device, P: Policy> Frames for Store<D, P> {
    ghost parts = { parts_of D.disk };

    ghost IsUsable = { IsUsableIn D.disk };

    ghost IsFetched = { IsFetchedIn };

    ghost ContinuesTo = { ContinuesIn P.KEEPS_ALL D.disk };

    fn geometry(&self) -> Geometry {
        self.durable.geometry()
    }

    fn table(&self) -> &ObjectTable {
        &self.table
    }

    /// Fetches the bodies of up to 8 objects into memory, in turn. If the cache is full, evicts those used
    /// longest ago. Fails exactly if the device fails.
    fn fetch(&mut self, numbers: &[u64]) -> Result<(), Failed>
        requires few { length numbers.now ≤ MAX_FETCHED }
        requires known { All (λ n. n < length (parts_of D.disk self.old).headers) numbers.now }
        requires may { MayFetch (IsUsableIn D.disk) (parts_of D.disk) self.old }
        ensures fetched { OnOk result ((n : ℕ) → Contains numbers.now n → IsFetchedIn self.new n) }
        ensures order { P.KEEPS_ALL ≡ false → OnOk result (self.new.order
            ≡ take self.old.capacity (used_in_turn numbers.now self.old.order)) }
        ensures all { P.KEEPS_ALL ≡ true → self.new ≡ self.old }
        ensures same { OnOk result (parts_of D.disk self.new ≡ parts_of D.disk self.old) }
        ensures cause { IsErr result
            ↔ ((parts_of D.disk self.old).failures < (parts_of D.disk self.new).failures) }
        ensures snapshots { OnlyFetches (parts_of D.disk) (ContinuesIn P.KEEPS_ALL D.disk) self.old self.new }
    {
        // For the proof: borrowing a field brings in the store's invariant.
        let _ = &self.durable;
        if P::KEEPS_ALL {
            return Ok(());
        }
        if self.use_again(numbers) {
            return Ok(());
        }
        let read = self.read_all_in(numbers);
        // For the proof: by the contract of `len`, the order has exactly the numbers with an entry.
        self.len();
        read
    }

    fn frame(&self, number: u64) -> ContentRef<'_> {
        self.entries.present(number)
    }

    ghost use Rattle.object_cache.specs.Laws.{continues_same, continues_twice};

    ghost known_fetched = { λ s n there. (there.header, there.content) };

    ghost stays_usable = { λ s t went stayed. went.goes_on.goes_on.sound };

    ghost continues_same = { λ s. continues_same D.disk P.KEEPS_ALL D.only_now s };

    ghost continues_twice = { λ s t u first second.
        continues_twice D.disk P.KEEPS_ALL D.counts_now s t u first second };
}

impl<D: Device, P: Policy> PresentFrames for Store<D, P> {
    ghost IsAnnounced = { IsAnnouncedIn };

    /// Fetches the bodies of up to 8 objects, as `fetch` does, and announces the numbers to be written. Refusals:
    /// see `PresentFrames::prepare`.
    #[inline(always)]
    fn prepare(&mut self, fetched: &[u64], written: &[u64]) -> Result<(), Refusal>
        requires few { length fetched.now ≤ MAX_FETCHED }
        requires known { All (λ n. n < length (parts_of D.disk self.old).headers) fetched.now }
        requires announced { All (λ n. n < length (parts_of D.disk self.old).headers) written.now }
        requires may { MayFetch (IsUsableIn D.disk) (parts_of D.disk) self.old }
        ensures fetched { OnOk result ((n : ℕ) → Contains fetched.now n → IsFetchedIn self.new n) }
        ensures announced { OnOk result ((n : ℕ) → Contains written.now n → IsAnnouncedIn self.new n) }
        ensures order { P.KEEPS_ALL ≡ false → OnOk result (self.new.order
            ≡ take self.old.capacity (used_in_turn fetched.now self.old.order)) }
        ensures all { P.KEEPS_ALL ≡ true → self.new.order ≡ self.old.order }
        ensures prepares { Prepares (parts_of D.disk) (ContinuesIn P.KEEPS_ALL D.disk) self.old self.new written.now result }
    {
        // For the proof: borrowing a field brings in the store's invariant.
        let _ = &self.durable;
        self.fetch(fetched)?;
        self.make_writable(written)
    }

    fn set_word(&mut self, number: u64, index: usize, word: u64) {
        self.entries.set_word(number, index, word);
    }

    fn set_slot(&mut self, number: u64, slot: usize, held: Cap) {
        self.entries.set_slot(number, slot, held);
    }

    fn set_last_slots(&mut self, number: u64, held: [Cap; 4]) {
        self.entries.set_last_slots(number, held);
    }

    #[inline(always)]
    fn change_root(&mut self, process: u64, change: RootChange) {
        self.entries.change_root(process, change);
    }

    fn claim(&mut self, number: u64, fresh: Fresh, owner: u64) {
        self.entries.claim(number, fresh);
        self.table.claim(number, role_of(fresh), owner);
    }

    fn reset(&mut self, number: u64) {
        self.entries.free(number);
        self.table.rescind(number);
    }

    fn set_owner(&mut self, number: u64, bank: u64) {
        self.table.set_owner(number, bank);
    }

    fn consume(&mut self, root: u64) {
        self.table.consume(root);
    }

    ghost known_announced = { λ s n there. (there.header, there.content) };
}
