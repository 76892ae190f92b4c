// Numbers in the order of their last use.
ghost use Rattle.std.specs.Prelude.{◌≡◌, ◌≢◌, ◌↔◌, ℕ, ◌<◌, ◌≤◌, [], ◌∷◌, None, Some, true, false};
ghost use Rattle.std.specs.Prelude.{length, is_some, nat_le, replicate, slice_set, IfOk, IsSome};
ghost use Rattle.std.specs.NonZero.{non_zero_usize_get};
ghost use Rattle.model.specs.Revoke.{is_member};
ghost use Rattle.cache_entries.specs.Order.{AreSpread, IsLogOf, Uses, place_at, used_all};
ghost use Rattle.cache_entries.specs.Order.{used_last, used_longest_ago, without};

use crate::places::Places;
use crate::use_log::UseLog;
use std::alloc::{AllocError, Global};
use std::marker::Model;
use std::num::NonZeroUsize;

// How many uses the log can hold, for each place.
const USES_PER_PLACE: usize = 16;

// The most uses that `settle_few` moves to the order before an eviction.
const FEW_USES: usize = 8;

/// Numbers in the order of their last use, and a place for each.
///
/// A use is only appended to a log. All uses move to the order once the log is full. A search for the number used
/// longest ago moves only the uses of the numbers that it comes across.
#[derive(Drop)]
pub(crate) struct UseOrder {
    order: Places,
    log: UseLog,
}

impl Model for UseOrder {
    ghost use Rattle.cache_entries.specs.Order.{IsLogOf, OrderState, used_all};

    ghost Value = { OrderState };

    ghost view = { λ o. used_all o.log.uses o.order };

    ghost invariant = { λ o. IsLogOf o.log o.order };
}

// Moves all uses from the log to the order.
#[inline(never)]
fn settle(order: &mut Places, log: &mut UseLog)
    requires { IsLogOf log.old order.old }
    ensures order { order.new ≡ used_all log.old.uses order.old }
    ensures log { log.new ≡ record { uses = []; count = log.old.count; most = log.old.most } }
{
    for index in 0..log.len() {
        if !log.is_outdated(index) {
            order.promote(log.number(index));
        }
    }
    log.clear();
}

// Makes space in the log for one more use.
fn spare_use(order: &mut Places, log: &mut UseLog)
    requires { IsLogOf log.old order.old }
    ensures same { used_all log.new.uses order.new ≡ used_all log.old.uses order.old }
    ensures log { IsLogOf log.new order.new }
    ensures members { (n : ℕ) → is_member order.new.numbers n ≡ is_member order.old.numbers n }
    ensures room { length log.new.uses < log.new.most }
{
    if log.is_full() {
        settle(order, log);
    }
}

// If the log has a use of a number, moves all uses from the log to the order.
fn settle_if_used(order: &mut Places, log: &mut UseLog, number: u64)
    requires log { IsLogOf log.old order.old }
    requires known { number < log.old.count }
    ensures same { used_all log.new.uses order.new ≡ used_all log.old.uses order.old }
    ensures log { IsLogOf log.new order.new }
    ensures unused { is_member log.new.uses number ≡ false }
{
    if log.has(number) {
        settle(order, log);
    }
}

// Moves all uses from the log to the order if there are at most `FEW_USES`: then this is cheaper now than later.
#[tactic(auto, using(crate::proofs::Logs::settled_full))]
fn settle_few(order: &mut Places, log: &mut UseLog)
    requires log { IsLogOf log.old order.old }
    requires full { order.old.most ≤ length order.old.numbers }
    ensures same { used_all log.new.uses order.new ≡ used_all log.old.uses order.old }
    ensures log { IsLogOf log.new order.new }
    ensures full { order.new.most ≤ length order.new.numbers }
{
    if log.len() <= FEW_USES {
        settle(order, log);
    }
}

// Returns the number used longest ago. All places must have a number. If the first number in the order has a
// use in the log, it is moved to the end, and the search goes on.
fn find_least(order: &mut Places, log: &mut UseLog) -> u64
    requires log { IsLogOf log.old order.old }
    requires full { order.old.most ≤ length order.old.numbers }
    ensures least { Some result ≡ used_longest_ago (used_all log.new.uses order.new).numbers }
    ensures same { used_all log.new.uses order.new ≡ used_all log.old.uses order.old }
    ensures log { IsLogOf log.new order.new }
    ensures spread { AreSpread order.new }
{
    settle_few(order, log);
    for _ in 0..order.len() {
        let number = order.least();
        if !log.has(number) {
            return number;
        }
        order.promote(number);
    }
    settle(order, log);
    order.least()
}

impl UseOrder {
    ghost use Rattle.cache_entries.specs.contracts.use_order.UseOrder.{the_row};

    /// Returns an empty order for at most `most` of the numbers below `count`. Fails only if memory runs out.
    pub(crate) fn new(
        alloc: Global,
        most: NonZeroUsize,
        count: usize,
    ) -> Result<UseOrder, AllocError>
        ensures { IfOk result (λ order. order
            ≡ record { numbers = []; places = replicate count None; most = non_zero_usize_get most }) }
    {
        let order = Places::new(alloc, most, count)?;
        let log = UseLog::new(alloc, most.get().saturating_mul(USES_PER_PLACE), count)?;
        Ok(UseOrder { order, log })
    }

    /// Whether this order is for at most `most` of the numbers below `count`.
    pub(crate) fn fits(&self, most: usize, count: usize) -> bool
        ensures { result ≡ true ↔ ((self.now.most ≡ most) × (length self.now.places ≡ count)) }
    {
        self.order.fits(most, count)
    }

    /// Removes all numbers.
    pub(crate) fn clear(&mut self)
        ensures { self.new ≡ record {
          numbers = [];
          places = replicate (length self.old.places) None;
          most = self.old.most;
        } }
    {
        self.log.clear();
        self.order.clear();
    }

    /// How many numbers there are.
    #[tactic(auto, using(crate::proofs::Turns::length_in_turn, crate::proofs::Turns::spread_in_turn))]
    pub(crate) fn len(&self) -> usize
        ensures count { result ≡ length self.now.numbers }
        ensures spread { AreSpread self.now }
    {
        self.order.len()
    }

    /// Whether all places have a number.
    #[tactic(auto, using(crate::proofs::Turns::length_in_turn, crate::proofs::Turns::spread_in_turn))]
    pub(crate) fn is_full(&self) -> bool
        ensures full { result ≡ nat_le self.now.most (length self.now.numbers) }
        ensures spread { AreSpread self.now }
    {
        self.order.is_full()
    }

    /// A lemma as a function: each number in the order has a place, and no two have the same.
    #[tactic(auto, using(crate::proofs::Turns::spread_in_turn))]
    pub(crate) fn spread(&self)
        ensures { AreSpread self.now }
    {
        self.order.len();
    }

    /// Whether a number has a place.
    pub(crate) fn has(&self, number: u64) -> bool
        requires { number < length self.now.places }
        ensures { result ≡ is_some (place_at self.now.places number) }
    {
        self.order.has(number)
    }

    /// The place of a number that has one.
    #[tactic(auto, using(crate::proofs::Turns::spread_in_turn))]
    pub(crate) fn place(&self, number: u64) -> usize
        requires { IsSome (place_at self.now.places number) }
        ensures place { place_at self.now.places number ≡ Some result }
        ensures spread { AreSpread self.now }
    {
        self.order.place(number)
    }

    /// Marks a number of the order as used last.
    #[tactic(auto, using(crate::proofs::Turns::all_at_end))]
    pub(crate) fn use_now(&mut self, number: u64)
        requires { is_member self.old.numbers number ≡ true }
        ensures { self.new ≡ used_last number self.old }
    {
        spare_use(&mut self.order, &mut self.log);
        // For the proof: by the contract of `len`, each number in the order has a place.
        self.order.len();
        self.log.push(number);
    }

    // Marks a number as used last if it has a place. Returns whether it has one.
    #[tactic(auto, using(crate::proofs::Turns::member_in_turn))]
    fn use_if_placed(&mut self, number: u64) -> bool
        ensures listed { result ≡ true → is_member self.old.numbers number ≡ true }
        ensures used { result ≡ true → self.new ≡ used_last number self.old }
        ensures unchanged { result ≡ false → self.new ≡ self.old }
    {
        if !self.order.lists(number) {
            return false;
        }
        self.use_now(number);
        true
    }

    /// Marks numbers as used, in turn, up to the first that has no place. Returns whether it marked
    /// them all.
    pub(crate) fn use_again(&mut self, numbers: &[u64]) -> bool
        ensures { Uses self.old self.new numbers.now result }
    {
        for number in numbers {
            if !self.use_if_placed(*number) {
                return false;
            }
        }
        true
    }

    /// Gives a place to a number that has none, and marks it as used last. Some place must be free.
    pub(crate) fn insert(&mut self, number: u64) -> usize
        requires known { number < length self.old.places }
        requires absent { place_at self.old.places number ≡ None }
        requires room { length self.old.numbers < self.old.most }
        ensures inserted { self.new ≡ record {
          numbers = number ∷ self.old.numbers;
          places = slice_set self.old.places number (Some result);
          most = self.old.most;
        } }
        ensures fresh { (n : ℕ) → place_at self.old.places n ≢ Some result }
        ensures within { result < self.old.most }
    {
        spare_use(&mut self.order, &mut self.log);
        // For the proof: by the contract of `len`, each number in the order has a place.
        self.order.len();
        let place = self.order.insert(number);
        self.log.push(number);
        place
    }

    /// Frees the place of a number that has one.
    pub(crate) fn remove(&mut self, number: u64)
        requires { IsSome (place_at self.old.places number) }
        ensures { self.new ≡ record {
          numbers = without number self.old.numbers;
          places = slice_set self.old.places number None;
          most = self.old.most;
        } }
    {
        settle_if_used(&mut self.order, &mut self.log, number);
        self.order.remove(number);
    }

    /// Returns the number used longest ago. All places must have a number.
    #[tactic(auto, using(crate::proofs::Turns::spread_in_turn))]
    pub(crate) fn least(&mut self) -> Option<u64>
        requires { self.old.most ≤ length self.old.numbers }
        ensures least { result ≡ used_longest_ago self.old.numbers }
        ensures spread { AreSpread self.old }
        ensures same { self.new ≡ self.old }
    {
        Some(find_least(&mut self.order, &mut self.log))
    }
}
