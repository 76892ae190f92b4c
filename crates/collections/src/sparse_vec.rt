// Items by place, in reserved memory.
ghost use Rattle.std.specs.Prelude.{◌≡◌, ◌<◌, Some, None, false, length, replicate, is_some, slice_set, IfOk, IsSome};
ghost use Rattle.std.specs.Borrow.{Lends, sem};
ghost use Rattle.collections.specs.SparseVec.{item_at};

use std::alloc::{AllocError, Global};
use std::marker::Model;

/// Items by place, with memory reserved for one at each place. At first no place has an item; a place that
/// was given one keeps it.
///
/// The items lie in memory without gaps, in the order in which they were added. If the operating system
/// provides memory only once it is written to, places without an item take none.
#[derive(Drop)]
pub struct SparseVec<T> {
    items: Vec<T>,
    /// By place: the index of its item in `items`. For a place without an item, a value past all indexes.
    at: Vec<usize>,
}

impl<T> Model for SparseVec<T> {
    ghost use Rattle.std.specs.Prelude.{List, Option, ◌≤◌, length, vec_capacity};
    ghost use Rattle.collections.specs.SparseVec.{ArePositions, items_in};

    ghost Value = { List (Option T) };

    ghost view = { λ s. items_in s.items.items s.at.items };

    ghost invariant = { λ s. ArePositions s.at.items (length s.items.items)
        × (length s.at.items ≤ vec_capacity s.items) };
}

impl<T: Drop> SparseVec<T> {
    ghost use Rattle.collections.specs.contracts.sparse_vec.SparseVec.{the_row};

    /// Returns `most` places without an item, and memory for an item at each. Fails only if memory runs out.
    #[tactic(auto, using(crate::proofs::Positions::filled, crate::proofs::Positions::none_in))]
    pub fn new(alloc: Global, most: usize) -> Result<SparseVec<T>, AllocError>
        ensures { IfOk result (λ made. made ≡ replicate most None) }
    {
        let items = Vec::with_capacity(alloc, most)?;
        let mut at = Vec::new(alloc);
        at.resize(most, most)?;
        Ok(SparseVec { items, at })
    }

    /// The number of places.
    #[tactic(auto, using(crate::proofs::Positions::length_items))]
    pub fn len(&self) -> usize
        ensures { result ≡ length self.now }
    {
        self.at.len()
    }

    /// Whether a place has an item.
    #[tactic(auto, using(crate::proofs::Positions::placed, crate::proofs::Positions::has_is))]
    pub fn has(&self, place: usize) -> bool
        requires { place < length self.now }
        ensures { result ≡ is_some (item_at self.now place) }
    {
        self.at[place] < self.items.len()
    }

    /// The item of a place that has one.
    #[tactic(auto, using(crate::proofs::Positions::has_place, crate::proofs::Positions::inside_at))]
    pub fn item(&self, place: usize) -> &T
        requires { IsSome (item_at self.now place) }
        ensures { item_at self.now place ≡ Some result.now }
    {
        let at = self.at[place];
        &self.items[at]
    }

    /// Borrows the item of a place that has one, to change it.
    #[tactic(auto, using(crate::proofs::Positions::has_place, crate::proofs::Positions::inside_at))]
    pub fn item_mut(&mut self, place: usize) -> &mut T
        requires { IsSome (item_at self.old place) }
        ensures* writes_back { sem 𝓛 (Lends (the_row T.row) T.row self.entry result
            (λ item. slice_set self.old place (Some item))) }
        ensures value { item_at self.old place ≡ Some result.now }
    {
        let at = self.at[place];
        &mut self.items[at]
    }

    /// Puts an item at a place that has none.
    #[tactic(auto, using(crate::proofs::Positions::placed, crate::proofs::Positions::room))]
    pub fn add(&mut self, place: usize, item: T)
        requires within { place < length self.old }
        requires absent { is_some (item_at self.old place) ≡ false }
        ensures { self.new ≡ slice_set self.old place (Some item) }
    {
        self.at[place] = self.items.len();
        match self.items.push(item) {
            Ok(()) => {}
            Err(_) => unreachable!(),
        }
    }
}
