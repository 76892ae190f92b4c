// A set of numbers, as a bit for each number, with a summary of the bits.
ghost use Rattle.std.specs.Prelude.{◌≡◌, ◌<◌, ◌^◌, length, replicate, slice_index_or, slice_set, false, IfSome, IfOk};
ghost use Rattle.std.specs.Prelude.{None};
ghost use Rattle.collections.specs.Marks.{IsNextMarked, HasNoneMarked, IsNextUnmarked, HasAllMarked};

use crate::bits::{WORD_BITS, first_clear, first_summed, has_bit, put_bit};
use std::alloc::{AllocError, Global};
use std::marker::Model;

/// A set of numbers below a count.
///
/// A number is in the set if its bit in `words` is set. A bit of `summary` is set if the word with this index isn't
/// 0. So the next number of the set is found from one word and the summary, which has one word for each 4096 numbers.
#[derive(Drop)]
pub struct NumberSet {
    count: usize,
    words: Vec<u64>,
    summary: Vec<u64>,
}

impl Model for NumberSet {
    ghost use Rattle.std.specs.Prelude.{Bool, List};
    ghost use Rattle.collections.specs.Bits.{marks_of, IsSummed};

    ghost Value = { List Bool };

    ghost view = { λ s. marks_of s.count s.words.items };

    ghost invariant = { λ s. IsSummed s.count s.words.items s.summary.items };
}

impl NumberSet {
    /// An empty set of numbers below `count`. Fails only if memory runs out.
    #[tactic(auto, using(crate::proofs::Marks::fresh, crate::proofs::Marks::zeros_summed))]
    pub fn new(alloc: Global, count: usize) -> Result<NumberSet, AllocError>
        ensures { IfOk result (λ numbers. numbers ≡ replicate count false) }
    {
        let mut words = Vec::new(alloc);
        words.resize(count.div_ceil(WORD_BITS), 0)?;
        let mut summary = Vec::new(alloc);
        summary.resize(words.len().div_ceil(WORD_BITS), 0)?;
        Ok(NumberSet {
            count,
            words,
            summary,
        })
    }

    /// Whether a number is in the set.
    #[tactic(auto, using(crate::proofs::Marks::has_word))]
    pub fn contains(&self, number: usize) -> bool
        requires { number < length self.now }
        ensures { result ≡ slice_index_or self.now number false }
    {
        has_bit(&self.words, number)
    }

    /// Puts a number into the set, or takes it out.
    #[tactic(auto, using(crate::proofs::Marks::has_word, crate::proofs::Marks::has_word_above))]
    pub fn set(&mut self, number: usize, is_in: bool)
        requires { number < length self.old }
        ensures { self.new ≡ slice_set self.old number is_in }
    {
        let word = put_bit(&mut self.words, number, is_in);
        put_bit(&mut self.summary, number / WORD_BITS, word != 0);
    }

    /// Removes all numbers from the set.
    #[tactic(auto, using(crate::proofs::Marks::cleared))]
    pub fn clear(&mut self)
        ensures { self.new ≡ replicate (length self.old) false }
    {
        self.words.fill(0);
        self.summary.fill(0);
    }

    /// Returns the least number of the set that isn't below `from`, or `None`.
    #[tactic(auto, using(crate::proofs::Marks::next_is_marked, crate::proofs::Marks::none_is_marked))]
    pub fn next(&self, from: usize) -> Option<usize>
        ensures some { IfSome result (λ number. IsNextMarked self.now from number) }
        ensures none { result ≡ None → HasNoneMarked self.now from }
        ensures few { length self.now < 2 ^ 64 }
    {
        first_summed(&self.words, &self.summary, from)
    }

    /// Returns the least number that isn't in the set and isn't below `from`, or `None`. Checks 64 numbers at a time.
    #[tactic(auto, using(crate::proofs::Marks::all_are_marked, crate::proofs::Marks::words_hold))]
    pub fn next_missing(&self, from: usize) -> Option<usize>
        ensures some { IfSome result (λ number. IsNextUnmarked self.now from number) }
        ensures none { result ≡ None → HasAllMarked self.now from }
    {
        let number = first_clear(&self.words, from)?;
        if number < self.count {
            Some(number)
        } else {
            None
        }
    }
}
