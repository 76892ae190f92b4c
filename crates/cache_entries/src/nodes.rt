// The slots of nodes and the registers of annexes, by place, in reserved memory.
ghost use Rattle.std.specs.Prelude.{◌≡◌, ◌<◌, ◌≤◌, None, Some, length, replicate, slice_set, List, IfOk, IsSome};
ghost use Rattle.model.specs.Frame.{void_held};
ghost use Rattle.model.specs.declared.capability.Cap.{Cap as CapValue};
ghost use Rattle.collections.specs.SparseVec.{item_at};
ghost use Rattle.cache_entries.specs.Bodies.{AreVoidFrom, slots_at, slots_from};

use collections::SparseVec;
use model::{Cap, SLOTS};
use std::alloc::{AllocError, Global};
use std::marker::Model;

/// The slots of nodes and the registers of annexes by place.
#[derive(Drop)]
pub(crate) struct Nodes {
    slots: SparseVec<[Cap; SLOTS]>,
    /// By place: an index from which on all slots are void. `clear` writes only the slots before it.
    ends: Vec<usize>,
}

impl Model for Nodes {
    ghost use Rattle.std.specs.Prelude.{List, Option};
    ghost use Rattle.model.specs.declared.capability.Cap.{Cap as CapValue};
    ghost use Rattle.cache_entries.specs.Bodies.{AreEnds};

    ghost Value = { List (Option (List CapValue)) };

    ghost view = { λ n. n.slots };

    ghost invariant = { λ n. AreEnds n.slots n.ends.items };
}

// Makes the slots before `end` void. The others must be void already.
fn clear_before(slots: &mut [Cap], end: usize)
    requires count { length slots.old ≡ 32 }
    requires void { AreVoidFrom end slots.old }
    ensures { slots.new ≡ replicate 32 void_held }
{
    for index in 0..end {
        slots[index] = Cap::void();
    }
}

// Sets the slots from index 28 on; `held` has at most four.
fn put_last(slots: &mut [Cap; SLOTS], held: &[Cap])
    requires { length held.now ≤ 4 }
    ensures { slots.new ≡ slots_from slots.old 28 held.now }
{
    for i in 0..held.len() {
        slots[28 + i] = held[i];
    }
}

// Makes all slots void. Those from `end` on must be void already.
fn clear_slots(slots: &mut [Cap; SLOTS], end: usize)
    requires { AreVoidFrom end slots.old }
    ensures { slots.new ≡ replicate 32 void_held }
{
    clear_before(&mut slots[..], end);
}

// Makes all slots at a place void. Those from `end` on must be void already.
fn clear_place(slots: &mut SparseVec<[Cap; SLOTS]>, place: usize, end: usize)
    requires within { place < length slots.old }
    requires void { (s : List CapValue) → item_at slots.old place ≡ Some s → AreVoidFrom end s }
    ensures { slots.new ≡ slice_set slots.old place (Some (replicate 32 void_held)) }
{
    if slots.has(place) {
        clear_slots(slots.item_mut(place), end);
    } else {
        slots.add(place, [Cap::void(); SLOTS]);
    }
}

// Sets all slots at a place.
fn put_place(slots: &mut SparseVec<[Cap; SLOTS]>, place: usize, put: &[Cap; SLOTS])
    requires { place < length slots.old }
    ensures { slots.new ≡ slice_set slots.old place (Some put.now) }
{
    if slots.has(place) {
        *slots.item_mut(place) = *put;
    } else {
        slots.add(place, *put);
    }
}

// Sets a slot at a place.
#[tactic(auto, using(crate::proofs::Voids::slots_are))]
fn set_place(slots: &mut SparseVec<[Cap; SLOTS]>, place: usize, index: usize, held: Cap)
    requires there { IsSome (item_at slots.old place) }
    requires within { index < 32 }
    ensures { slots.new ≡ slice_set slots.old place (Some (slice_set (slots_at slots.old place) index held)) }
{
    let slots = slots.item_mut(place);
    slots[index] = held;
}

// Sets the slots from index 28 on at a place; `held` has at most four.
#[tactic(auto, using(crate::proofs::Voids::slots_are))]
fn set_place_last(slots: &mut SparseVec<[Cap; SLOTS]>, place: usize, held: &[Cap])
    requires there { IsSome (item_at slots.old place) }
    requires few { length held.now ≤ 4 }
    ensures { slots.new ≡ slice_set slots.old place (Some (slots_from (slots_at slots.old place) 28 held.now)) }
{
    put_last(slots.item_mut(place), held);
}

impl Nodes {
    /// Returns `most` places without slots, and memory for 32 slots at each. Fails only if memory runs out.
    #[tactic(auto, using(crate::proofs::Voids::no_ends, collections::proofs::Positions::filled))]
    pub(crate) fn new(alloc: Global, most: usize) -> Result<Nodes, AllocError>
        ensures { IfOk result (λ nodes. nodes ≡ replicate most None) }
    {
        let slots = SparseVec::new(alloc, most)?;
        let mut ends = Vec::new(alloc);
        ends.resize(most, 0)?;
        Ok(Nodes { slots, ends })
    }

    /// Returns the slots of a place that has some.
    pub(crate) fn item(&self, place: usize) -> &[Cap; SLOTS]
        requires { IsSome (item_at self.now place) }
        ensures { item_at self.now place ≡ Some result.now }
    {
        self.slots.item(place)
    }

    /// Sets all slots at a place.
    #[tactic(auto, using(crate::proofs::Voids::all_put))]
    pub(crate) fn put(&mut self, place: usize, slots: &[Cap; SLOTS])
        requires { place < length self.old }
        ensures { self.new ≡ slice_set self.old place (Some slots.now) }
    {
        put_place(&mut self.slots, place, slots);
        self.ends[place] = SLOTS;
    }

    /// Makes all slots at a place void.
    #[tactic(auto, using(crate::proofs::Voids::all_cleared))]
    pub(crate) fn clear(&mut self, place: usize)
        requires { place < length self.old }
        ensures { self.new ≡ slice_set self.old place (Some (replicate 32 void_held)) }
    {
        let end = self.ends[place];
        clear_place(&mut self.slots, place, end);
        self.ends[place] = 0;
    }

    /// Sets a slot at a place that has some.
    #[tactic(auto, using(crate::proofs::Voids::one_put, crate::proofs::Voids::end_within))]
    pub(crate) fn set(&mut self, place: usize, index: usize, held: Cap)
        requires there { IsSome (item_at self.old place) }
        requires within { index < 32 }
        ensures { self.new ≡ slice_set self.old place (Some (slice_set (slots_at self.old place) index held)) }
    {
        set_place(&mut self.slots, place, index, held);
        self.ends[place] = self.ends[place].max(index + 1);
    }

    /// Sets the slots from index 28 on at a place that has slots; `held` has at most four.
    #[tactic(auto, using(crate::proofs::Voids::all_put, crate::proofs::Voids::end_within))]
    pub(crate) fn set_last(&mut self, place: usize, held: &[Cap])
        requires there { IsSome (item_at self.old place) }
        requires few { length held.now ≤ 4 }
        ensures { self.new ≡ slice_set self.old place (Some (slots_from (slots_at self.old place) 28 held.now)) }
    {
        set_place_last(&mut self.slots, place, held);
        self.ends[place] = SLOTS;
    }
}
