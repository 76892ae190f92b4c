// A log of uses that are not in an order yet.
ghost use Rattle.std.specs.Prelude.{◌≡◌, ◌+◌, ◌<◌, [], ◌∷◌, ◌++◌, true, false, drop, length, slice_index, IfOk};
ghost use Rattle.model.specs.Revoke.{is_member};

use std::alloc::{AllocError, Global};
use std::marker::Model;

/// A log of uses of numbers, the last one at the end. Only `new` allocates.
#[derive(Drop)]
pub(crate) struct UseLog {
    uses: Vec<u64>,
    /// By number: the index of its last use. For a number that isn't in the log the value has no meaning.
    stamps: Vec<usize>,
}

impl Model for UseLog {
    ghost use Rattle.std.specs.Prelude.{length, vec_capacity};
    ghost use Rattle.cache_entries.specs.Order.{AreStamped, LogState};

    ghost Value = { LogState };

    ghost view = { λ l. record {
      uses = l.uses.items;
      count = length l.stamps.items;
      most = vec_capacity l.uses;
    } };

    ghost invariant = { λ l. AreStamped l.uses.items l.stamps.items };
}

impl UseLog {
    /// Returns an empty log for at most `most` uses of the numbers below `count`. Fails only if memory runs out.
    pub(crate) fn new(alloc: Global, most: usize, count: usize) -> Result<UseLog, AllocError>
        ensures { IfOk result (λ log. log ≡ record { uses = []; count = count; most = most }) }
    {
        let uses = Vec::with_capacity(alloc, most)?;
        let mut stamps = Vec::new(alloc);
        stamps.resize(count, 0)?;
        Ok(UseLog { uses, stamps })
    }

    /// Removes all uses.
    pub(crate) fn clear(&mut self)
        ensures { self.new ≡ record { uses = []; count = self.old.count; most = self.old.most } }
    {
        self.uses.clear();
    }

    /// How many uses there are.
    pub(crate) fn len(&self) -> usize
        ensures { result ≡ length self.now.uses }
    {
        self.uses.len()
    }

    /// Whether the memory for uses is full.
    pub(crate) fn is_full(&self) -> bool
        ensures { result ≡ false → length self.now.uses < self.now.most }
    {
        self.uses.len() >= self.uses.capacity()
    }

    /// Whether the log has a use of a number.
    pub(crate) fn has(&self, number: u64) -> bool
        requires { number < self.now.count }
        ensures { result ≡ is_member self.now.uses number }
    {
        let stamp = self.stamps[number as usize];
        stamp < self.uses.len() && self.uses[stamp] == number
    }

    /// Returns the number that was used at an index.
    pub(crate) fn number(&self, index: usize) -> u64
        requires { index < length self.now.uses }
        ensures { result ≡ slice_index self.now.uses index }
    {
        self.uses[index]
    }

    /// Whether the log has a later use of the number at an index. Then the use at this index doesn't matter.
    pub(crate) fn is_outdated(&self, index: usize) -> bool
        requires { index < length self.now.uses }
        ensures { result ≡ true
            → is_member (drop (index + 1) self.now.uses) (slice_index self.now.uses index) ≡ true }
    {
        let number = self.uses[index];
        index < self.stamps[number as usize]
    }

    /// Adds a use.
    pub(crate) fn push(&mut self, number: u64)
        requires known { number < self.old.count }
        requires room { length self.old.uses < self.old.most }
        ensures { self.new ≡ record {
          uses = self.old.uses ++ number ∷ [];
          count = self.old.count;
          most = self.old.most;
        } }
    {
        self.stamps[number as usize] = self.uses.len();
        self.uses.push_reserved(number);
    }
}
