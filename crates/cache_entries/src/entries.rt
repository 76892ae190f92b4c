// Cache entries in the order of their last use.
ghost use Rattle.std.specs.Prelude.{◌≡◌, ◌↔◌, ℕ, ◌<◌, ◌≤◌, [], Some, None, true, false, length, replicate, is_some};
ghost use Rattle.std.specs.Prelude.{nat_le, option_map, take, IfOk, IsSome};
ghost use Rattle.std.specs.List.{Contains};
ghost use Rattle.capability.specs.Objects.{changed_root, with_root_in, with_slots_in};
ghost use Rattle.capability.specs.Parts.{fresh_content};
ghost use Rattle.model.specs.Frame.{content_behind, void_held};
ghost use Rattle.model.specs.Object.{with_slot_in, with_word_in};
ghost use Rattle.model.specs.declared.object.Content.TheVariants as content;
ghost use Rattle.cache_entries.specs.Entries.{changing, entry_at, kept_of, present_of};
ghost use Rattle.cache_entries.specs.Order.{AreOrdered, used_longest_ago, with_entry_of, with_new, without_entry};
ghost use Rattle.cache_entries.specs.Order.{used_in_turn, used_now};

use crate::bodies::Bodies;
use crate::use_order::UseOrder;
use capability::{Fresh, RootChange};
use collections::Capacity;
use model::{Cap, ContentRef};
use std::alloc::{AllocError, Global};
use std::marker::Model;
use std::num::NonZeroUsize;

/// Cache entries by number, at most a capacity, in the order of their last use. Only `new` and `renew`
/// allocate.
#[derive(Drop)]
pub struct Entries {
    order: UseOrder,
    presents: Bodies,
    kepts: Bodies,
    /// By place: whether the entry there has a frozen copy, in `kepts`.
    marks: Vec<bool>,
}

impl Model for Entries {
    ghost use Rattle.cache_entries.specs.Order.{AreStored, EntriesState, entries_of};

    ghost Value = { EntriesState };

    ghost view = { λ e. entries_of e.order e.presents e.kepts e.marks.items };

    ghost invariant = { λ e. AreStored e.order.most e.presents e.kepts e.marks.items };
}

impl Entries {
    /// Returns an empty cache for numbers below `count`, with memory for `capacity` entries. Later calls
    /// don't allocate. Fails only if memory runs out.
    pub fn new(alloc: Global, capacity: Capacity, count: usize) -> Result<Entries, AllocError>
        ensures none { IfOk result (λ entries. entries
            ≡ record { at = replicate count None; order = []; most = capacity }) }
        ensures least { 8 ≤ capacity }
    {
        let most = capacity.count() as usize;
        match NonZeroUsize::new(most) {
            Some(places) => {
                let order = UseOrder::new(alloc, places, count)?;
                let presents = Bodies::new(alloc, most)?;
                let kepts = Bodies::new(alloc, most)?;
                let mut marks = Vec::new(alloc);
                marks.resize(most, false)?;
                Ok(Entries {
                    order,
                    presents,
                    kepts,
                    marks,
                })
            }
            None => unreachable!(),
        }
    }

    /// Returns an empty cache, as `new` does, but in the memory of `spare` if that has the same capacity and count.
    /// Leaves `None` in `spare`. Fails only if memory runs out.
    pub fn renew(
        alloc: Global,
        spare: &mut Option<Entries>,
        capacity: Capacity,
        count: usize,
    ) -> Result<Entries, AllocError>
        ensures none { IfOk result (λ entries. entries
            ≡ record { at = replicate count None; order = []; most = capacity }) }
        ensures least { 8 ≤ capacity }
    {
        if let Some(mut entries) = spare.take() {
            if entries.fits(capacity, count) {
                entries.clear();
                return Ok(entries);
            }
        }
        Entries::new(alloc, capacity, count)
    }

    /// Whether this cache has this capacity, for the numbers below `count`.
    pub fn fits(&self, capacity: Capacity, count: usize) -> bool
        ensures { result ≡ true ↔ ((self.now.most ≡ capacity) × (length self.now.at ≡ count)) }
    {
        self.order.fits(capacity.count() as usize, count)
    }

    // Removes all entries.
    fn clear(&mut self)
        ensures { self.new ≡ record {
          at = replicate (length self.old.at) None;
          order = [];
          most = self.old.most;
        } }
    {
        self.order.clear();
    }

    /// How many entries there are.
    pub fn len(&self) -> usize
        ensures count { result ≡ length self.now.order }
        ensures ordered { AreOrdered self.now }
    {
        self.order.len()
    }

    /// Whether there are as many entries as the capacity.
    pub fn is_full(&self) -> bool
        ensures full { result ≡ nat_le self.now.most (length self.now.order) }
        ensures ordered { AreOrdered self.now }
    {
        self.order.is_full()
    }

    /// Whether a number has an entry.
    pub fn holds(&self, number: u64) -> bool
        requires { number < length self.now.at }
        ensures { result ≡ is_some (entry_at self.now.at number) }
    {
        self.order.has(number)
    }

    /// The present body of an entry.
    pub fn present(&self, number: u64) -> ContentRef<'_>
        requires { IsSome (entry_at self.now.at number) }
        ensures { option_map present_of (entry_at self.now.at number) ≡ Some (content_behind result) }
    {
        self.presents.get(self.order.place(number))
    }

    /// The frozen copy of an entry, or `None` if it has none.
    pub fn kept(&self, number: u64) -> Option<ContentRef<'_>>
        requires { IsSome (entry_at self.now.at number) }
        ensures { option_map kept_of (entry_at self.now.at number) ≡ Some (option_map content_behind result) }
    {
        let place = self.order.place(number);
        if self.marks[place] {
            Some(self.kepts.get(place))
        } else {
            None
        }
    }

    /// Sets a word of a page that has an entry. No other body changes.
    #[tactic(auto, using(crate::proofs::Stored::present_put))]
    pub fn set_word(&mut self, number: u64, index: usize, word: u64)
        requires entry { IsSome (entry_at self.old.at number) }
        requires within { index < 512 }
        ensures { self.new ≡ with_entry_of (changing (λ c. with_word_in c index word)) number self.old }
    {
        let place = self.order.place(number);
        self.presents.set_word(place, index, word);
    }

    /// Sets a slot of a node or a register of an annex that has an entry. No other body changes.
    #[tactic(auto, using(crate::proofs::Stored::present_put))]
    pub fn set_slot(&mut self, number: u64, slot: usize, held: Cap)
        requires entry { IsSome (entry_at self.old.at number) }
        requires within { slot < 32 }
        ensures { self.new ≡ with_entry_of (changing (λ c. with_slot_in c slot held)) number self.old }
    {
        let place = self.order.place(number);
        self.presents.set_slot(place, slot, held);
    }

    /// Sets the last four slots of a node or registers of an annex that has an entry. No other body changes.
    #[tactic(auto, using(crate::proofs::Stored::present_put))]
    pub fn set_last_slots(&mut self, number: u64, held: [Cap; 4])
        requires { IsSome (entry_at self.old.at number) }
        ensures { self.new ≡ with_entry_of (changing (λ c. with_slots_in c 28 held)) number self.old }
    {
        let place = self.order.place(number);
        self.presents.set_last_slots(place, held);
    }

    /// Changes a root that has an entry. No other body changes.
    #[inline(always)]
    #[tactic(auto, using(crate::proofs::Stored::present_put))]
    pub fn change_root(&mut self, number: u64, change: RootChange)
        requires { IsSome (entry_at self.old.at number) }
        ensures { self.new ≡ with_entry_of (changing (with_root_in (changed_root change))) number self.old }
    {
        let place = self.order.place(number);
        self.presents.change_root(place, change);
    }

    /// Replaces the present body of an entry by a copy of `content`.
    #[tactic(auto, using(crate::proofs::Stored::present_put))]
    pub fn put(&mut self, number: u64, content: ContentRef<'_>)
        requires { IsSome (entry_at self.old.at number) }
        ensures { self.new ≡ with_entry_of (changing (λ c. content_behind content.entry)) number self.old }
    {
        let at = self.order.place(number);
        self.presents.put(at, content);
    }

    /// Replaces the present body of an entry by that of a new object.
    #[tactic(auto, using(crate::proofs::Stored::present_put))]
    pub fn claim(&mut self, number: u64, fresh: Fresh)
        requires { IsSome (entry_at self.old.at number) }
        ensures { self.new ≡ with_entry_of (changing (λ c. fresh_content void_held fresh)) number self.old }
    {
        let place = self.order.place(number);
        self.presents.claim(place, fresh);
    }

    /// Makes the present body `Free` if the number has an entry; else changes nothing.
    #[tactic(auto, using(crate::proofs::Stored::present_put))]
    pub fn free(&mut self, number: u64)
        requires { number < length self.old.at }
        ensures { self.new ≡ with_entry_of (changing (λ c. content.Free)) number self.old }
    {
        if self.order.has(number) {
            let place = self.order.place(number);
            self.presents.put(place, ContentRef::Free);
        }
    }

    /// Copies the present body of an entry to its frozen copy.
    pub fn keep_apart(&mut self, number: u64)
        requires { IsSome (entry_at self.old.at number) }
        ensures { self.new ≡ with_entry_of (λ e. record e { kept = Some e.present }) number self.old }
    {
        let place = self.order.place(number);
        self.kepts.put(place, self.presents.get(place));
        self.marks[place] = true;
    }

    /// Drops the frozen copy of an entry, if it has one.
    #[tactic(auto, using(crate::proofs::Stored::kept_dropped))]
    pub fn drop_kept(&mut self, number: u64)
        requires { IsSome (entry_at self.old.at number) }
        ensures { self.new ≡ with_entry_of (λ e. record e { kept = None }) number self.old }
    {
        let place = self.order.place(number);
        self.marks[place] = false;
    }

    /// Adds an entry with a copy of `content` and no frozen copy. The entry becomes the most recently used. The
    /// number must have no entry, and the cache must not be full.
    #[tactic(auto, using(crate::proofs::Stored::entered))]
    pub fn insert(&mut self, number: u64, content: ContentRef<'_>)
        requires known { number < length self.old.at }
        requires absent { entry_at self.old.at number ≡ None }
        requires room { length self.old.order < self.old.most }
        ensures { self.new ≡ with_new number (content_behind content.entry) self.old }
    {
        let place = self.order.insert(number);
        self.presents.put(place, content);
        self.marks[place] = false;
    }

    /// Removes the entry of a number.
    #[tactic(auto, using(crate::proofs::Stored::left))]
    pub fn remove(&mut self, number: u64)
        requires { IsSome (entry_at self.old.at number) }
        ensures { self.new ≡ without_entry number self.old }
    {
        self.order.remove(number);
    }

    /// Marks numbers as used, in turn, up to the first that has no entry. Returns whether it marked
    /// them all; then each has an entry.
    pub fn use_again(&mut self, numbers: &[u64]) -> bool
        ensures held { result ≡ true → (n : ℕ) → Contains numbers.now n
            → IsSome (entry_at self.old.at n) }
        ensures used { result ≡ true → self.new.order ≡ used_in_turn numbers.now self.old.order }
        ensures prefix { (k : ℕ) × (self.new.order ≡ used_in_turn (take k numbers.now) self.old.order) }
        ensures rest { self.new ≡ record self.old { order = self.new.order } }
        ensures ordered { AreOrdered self.new }
    {
        self.order.spread();
        self.order.use_again(numbers)
    }

    /// Marks a number as used last if it has an entry. Returns whether it has one.
    pub fn promote(&mut self, number: u64) -> bool
        requires { number < length self.old.at }
        ensures held { result ≡ is_some (entry_at self.old.at number) }
        ensures used { result ≡ true → self.new ≡ used_now number self.old }
        ensures unchanged { result ≡ false → self.new ≡ self.old }
        ensures ordered { AreOrdered self.old }
    {
        self.order.spread();
        if !self.order.has(number) {
            return false;
        }
        self.order.use_now(number);
        true
    }

    /// Returns the number whose entry was used longest ago. The cache must be full.
    pub fn least(&mut self) -> Option<u64>
        requires { self.old.most ≤ length self.old.order }
        ensures least { result ≡ used_longest_ago self.old.order }
        ensures ordered { AreOrdered self.old }
        ensures same { self.new ≡ self.old }
    {
        self.order.least()
    }
}
