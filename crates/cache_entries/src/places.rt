// Numbers in the order of their last use, and a place for each.
ghost use Rattle.std.specs.Prelude.{◌≡◌, ◌≢◌, ◌↔◌, ◌<◌, ◌≤◌, [], ◌∷◌, ℕ, None, Some, true, false, is_some, length};
ghost use Rattle.std.specs.Prelude.{nat_le, replicate, slice_set, IfOk, IsSome};
ghost use Rattle.std.specs.Map.{keys_of};
ghost use Rattle.std.specs.NonZero.{non_zero_usize_get};
ghost use Rattle.model.specs.Revoke.{is_member};
ghost use Rattle.cache_entries.specs.Order.{AreSpread, IsFilled, place_at, used_last, used_longest_ago, without};

use crate::number_hasher::NumberHasher;
use lru::LruCache;
use std::alloc::{AllocError, Global};
use std::hash::BuildHasherDefault;
use std::marker::Model;
use std::num::NonZeroUsize;

type UseList = LruCache<usize, (), BuildHasherDefault<NumberHasher>>;

/// Numbers in the order of their last use, and a place for each.
///
/// The order contains all places from the start, so only `new` allocates. Places without a number come last.
#[derive(Drop)]
pub(crate) struct Places {
    order: UseList,
    /// By place: its number. For a place without a number the value has no meaning.
    numbers: Vec<u64>,
    /// By number: its place, or `numbers.len()` if it has no place.
    places: Vec<usize>,
    /// How many places have a number.
    count: usize,
}

impl Model for Places {
    ghost use Rattle.std.specs.Map.{keys_of};
    ghost use Rattle.cache_entries.specs.Order.{ArePlaced, OrderState, order_of};

    ghost Value = { OrderState };

    ghost view = { λ p. order_of (keys_of p.order.entries) p.numbers.items p.places.items p.count };

    ghost invariant = { λ p. ArePlaced (keys_of p.order.entries) p.numbers.items p.places.items p.count };
}

// Returns a list of all places below `most`, in some order. Fails only if memory runs out.
fn all_places(alloc: Global, most: NonZeroUsize) -> Result<UseList, AllocError>
    ensures { IfOk result (λ order. IsFilled (keys_of order.entries) (non_zero_usize_get most)) }
{
    let mut order = LruCache::with_hasher(alloc, most, BuildHasherDefault::new())?;
    for place in 0..most.get() {
        match order.put(place, ()) {
            Ok(_) => {}
            Err(_) => return Err(AllocError),
        }
    }
    Ok(order)
}

// Puts all places below `most` into their first order, in which place 0 was used longest ago.
#[tactic(auto, using(crate::proofs::Turns::filled_used))]
fn restore_order(order: &mut UseList, most: usize)
    ensures { (count : ℕ) → IsFilled (keys_of order.old.entries) count → IsFilled (keys_of order.new.entries) count }
{
    for place in 0..most {
        order.promote(&place);
    }
}

// Returns the place used longest ago.
fn last_place(order: &UseList) -> usize
    requires { 0 < length (keys_of order.now.entries) }
    ensures { used_longest_ago (keys_of order.now.entries) ≡ Some result }
{
    match order.peek_lru() {
        Some((place, _)) => *place,
        None => unreachable!(),
    }
}

impl Places {
    /// Returns an empty order for at most `most` of the numbers below `count`. Fails only if memory runs out.
    pub(crate) fn new(alloc: Global, most: NonZeroUsize, count: usize) -> Result<Places, AllocError>
        ensures { IfOk result (λ places. places
            ≡ record { numbers = []; places = replicate count None; most = non_zero_usize_get most }) }
    {
        let order = all_places(alloc, most)?;
        let mut numbers = Vec::new(alloc);
        numbers.resize(most.get(), 0)?;
        let mut places = Vec::new(alloc);
        places.resize(count, most.get())?;
        Ok(Places {
            order,
            numbers,
            places,
            count: 0,
        })
    }

    /// Whether there are `most` places, for the numbers below `count`.
    pub(crate) fn fits(&self, most: usize, count: usize) -> bool
        ensures { result ≡ true ↔ ((self.now.most ≡ most) × (length self.now.places ≡ count)) }
    {
        self.numbers.len() == most && self.places.len() == count
    }

    /// Frees all places, and puts them into their first order.
    pub(crate) fn clear(&mut self)
        ensures { self.new ≡ record {
          numbers = [];
          places = replicate (length self.old.places) None;
          most = self.old.most;
        } }
    {
        let most = self.numbers.len();
        restore_order(&mut self.order, most);
        self.places.fill(most);
        self.count = 0;
    }

    /// How many numbers have a place.
    pub(crate) fn len(&self) -> usize
        ensures count { result ≡ length self.now.numbers }
        ensures spread { AreSpread self.now }
    {
        self.count
    }

    /// Whether all places have a number.
    #[tactic(auto, using(crate::proofs::Spreads::count_is, crate::proofs::Spreads::most_is))]
    pub(crate) fn is_full(&self) -> bool
        ensures full { result ≡ nat_le self.now.most (length self.now.numbers) }
        ensures spread { AreSpread self.now }
    {
        self.count >= self.numbers.len()
    }

    /// Whether a number has a place.
    pub(crate) fn has(&self, number: u64) -> bool
        requires { number < length self.now.places }
        ensures { result ≡ is_some (place_at self.now.places number) }
    {
        self.places[number as usize] < self.numbers.len()
    }

    /// Whether a number has a place. The number may be out of range.
    #[tactic(auto, using(crate::proofs::Spreads::known_is, crate::proofs::Logs::unlisted))]
    pub(crate) fn lists(&self, number: u64) -> bool
        ensures { result ≡ is_member self.now.numbers number }
    {
        // For the proof: by the contract of `len`, each number in the order has a place.
        self.len();
        (number as usize) < self.places.len() && self.has(number)
    }

    /// The place of a number that has one.
    pub(crate) fn place(&self, number: u64) -> usize
        requires { IsSome (place_at self.now.places number) }
        ensures place { place_at self.now.places number ≡ Some result }
        ensures spread { AreSpread self.now }
    {
        self.places[number as usize]
    }

    /// Marks a number that has a place as used last.
    pub(crate) fn promote(&mut self, number: u64)
        requires { is_member self.old.numbers number ≡ true }
        ensures { self.new ≡ used_last number self.old }
    {
        let place = self.places[number as usize];
        self.order.promote(&place);
    }

    /// Gives the place used longest ago to a number that has none, and marks it as used last. Some place must be
    /// free.
    pub(crate) fn insert(&mut self, number: u64) -> usize
        requires known { number < length self.old.places }
        requires absent { place_at self.old.places number ≡ None }
        requires room { length self.old.numbers < self.old.most }
        ensures inserted { self.new ≡ record {
          numbers = number ∷ self.old.numbers;
          places = slice_set self.old.places number (Some result);
          most = self.old.most;
        } }
        ensures fresh { (n : ℕ) → place_at self.old.places n ≢ Some result }
        ensures within { result < self.old.most }
    {
        let place = last_place(&self.order);
        self.order.promote(&place);
        self.numbers[place] = number;
        self.places[number as usize] = place;
        self.count += 1;
        place
    }

    /// Frees the place of a number that has one.
    #[tactic(auto, using(crate::proofs::Spreads::count_some, crate::proofs::Spreads::some_place))]
    pub(crate) fn remove(&mut self, number: u64)
        requires { IsSome (place_at self.old.places number) }
        ensures { self.new ≡ record {
          numbers = without number self.old.numbers;
          places = slice_set self.old.places number None;
          most = self.old.most;
        } }
    {
        let place = self.places[number as usize];
        self.order.demote(&place);
        self.places[number as usize] = self.numbers.len();
        self.count -= 1;
    }

    /// Returns the number used longest ago. All places must have a number.
    #[tactic(auto, using(crate::proofs::Spreads::least_number, crate::proofs::Spreads::spread_is))]
    pub(crate) fn least(&self) -> u64
        requires { self.now.most ≤ length self.now.numbers }
        ensures least { Some result ≡ used_longest_ago self.now.numbers }
        ensures spread { AreSpread self.now }
    {
        let place = last_place(&self.order);
        self.numbers[place]
    }
}
