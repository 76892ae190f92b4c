// The numbers that a search found, each with its level: how many steps lead to it.

use crate::step::Step;
use collections::NumberSet;
use std::alloc::{AllocError, Global};

/// How a number was found: its level, which is the number of steps to it, and the last step.
#[derive(Clone, Copy)]
pub(crate) struct Found {
    level: u64,
    // `None` if the search began with the number.
    step: Option<Step>,
}

/// The numbers that a search found, and the greatest level among them.
#[derive(Drop)]
pub(crate) struct Levels {
    found: Vec<Option<Found>>,
    greatest: u64,
}

impl Levels {
    ghost use Rattle.std.specs.Prelude.{◌≡◌, ℕ, ◌+◌, ◌<◌, ◌≤◌, None, length, replicate, is_some, option_and_then, IfOk};
    ghost use Rattle.collections.specs.Marks.{is_marked};
    ghost use Rattle.reach.specs.Levels.{Begins, FindsBy, IsTheStep, found_at, has_level};

    /// Returns a value for `count` numbers, with none found. Fails only if memory runs out.
    pub(crate) fn new(alloc: Global, count: usize) -> Result<Levels, AllocError>
        ensures found { IfOk result (λ l. l.found.items ≡ replicate count None) }
        ensures greatest { IfOk result (λ l. l.greatest ≡ 0) }
    {
        let mut found = Vec::new(alloc);
        found.resize(count, None)?;
        Ok(Levels { found, greatest: 0 })
    }

    /// Records a number as found at level 0, unless it was found before.
    #[tactic(auto, using(crate::proofs::Finding::begun_before, crate::proofs::Finding::some_of))]
    pub(crate) fn begin(&mut self, number: u64)
        requires { number < length self.old.found.items }
        ensures { Begins number self.old self.new }
    {
        if self.found[number as usize].is_none() {
            self.found[number as usize] = Some(Found {
                level: 0,
                step: None,
            });
        }
    }

    /// Records the end of a step as found at a level, unless it was found before.
    #[tactic(auto, using(crate::proofs::Finding::added_before, crate::proofs::Finding::some_of))]
    pub(crate) fn add(&mut self, step: Step, level: u64)
        requires known { step.to < length self.old.found.items }
        requires level { level ≤ self.old.greatest + 1 }
        ensures { FindsBy (IsTheStep step) level self.old self.new }
    {
        let to = step.to as usize;
        if self.found[to].is_none() {
            self.found[to] = Some(Found {
                level,
                step: Some(step),
            });
            self.greatest = self.greatest.max(level);
        }
    }

    /// Returns the greatest level.
    pub(crate) fn greatest(&self) -> u64
        ensures { result ≡ self.now.greatest }
    {
        self.greatest
    }

    /// Whether a number was found.
    pub(crate) fn contains(&self, number: u64) -> bool
        ensures { result ≡ is_some (found_at self.now number) }
    {
        match self.found.get(number as usize) {
            Some(found) => found.is_some(),
            None => false,
        }
    }

    /// Returns the set of all numbers that were found. Fails only if memory runs out.
    pub(crate) fn numbers(&self, alloc: Global) -> Result<NumberSet, AllocError>
        ensures count { IfOk result (λ inside. length inside ≡ length self.now.found.items) }
        ensures each { IfOk result (λ inside. (n : ℕ) → is_marked inside n ≡ is_some (found_at self.now n)) }
    {
        let mut inside = NumberSet::new(alloc, self.found.len())?;
        for (number, found) in self.found.iter().enumerate() {
            if found.is_some() {
                inside.set(number, true);
            }
        }
        Ok(inside)
    }

    /// Whether a number was found at a level.
    pub(crate) fn is_at(&self, number: u64, level: u64) -> bool
        requires { number < length self.now.found.items }
        ensures { result ≡ has_level (found_at self.now number) level }
    {
        match self.found[number as usize] {
            Some(found) => found.level == level,
            None => false,
        }
    }

    /// Returns the last step to a number, or `None` if the search didn't find it or began with it.
    pub(crate) fn step_to(&self, number: u64) -> Option<Step>
        ensures { result ≡ option_and_then (λ f. f.step) (found_at self.now number) }
    {
        let found = (*self.found.get(number as usize)?)?;
        found.step
    }
}
