// The 32 slots of a node.
ghost use Rattle.std.specs.Prelude.{◌≡◌, ◌<◌, List, length, replicate, IfOk, slice_get, slice_set, Some};

use std::alloc::{AllocError, Global};
use std::marker::Model;

/// How many slots a node has, and how many registers a process.
pub const SLOTS: usize = 32;

/// The 32 slots of a node, or registers of a process, in a vector.
#[derive(Drop)]
pub struct Slots<C> {
    items: Vec<C>,
}

impl<C> Model for Slots<C> {
    ghost use Rattle.std.specs.Prelude.{List};

    ghost Value = { List C };

    ghost view = { λ w. w.items.items };

    ghost use Rattle.std.specs.Prelude.{◌≡◌, vec_len};

    ghost invariant = { λ w. vec_len w.items ≡ 32 };
}

impl<C: Copy> Slots<C> {
    /// Returns slots that all hold `held`. Fails only if memory runs out.
    pub fn new(alloc: Global, held: C) -> Result<Self, AllocError>
        ensures { IfOk result (λ slots. slots ≡ replicate 32 held) }
    {
        let mut items = Vec::with_capacity(alloc, SLOTS)?;
        for _ in 0..SLOTS {
            items.push(held)?;
        }
        Ok(Slots { items })
    }

    /// What a slot holds.
    pub fn get(&self, index: usize) -> C
        requires { index < 32 }
        ensures value { slice_get self.now index ≡ Some result }
        ensures length { length self.now ≡ 32 }
    {
        self.as_slice()[index]
    }

    /// The slots in order.
    pub fn as_array(&self) -> &[C; 32]
        ensures { result.now ≡ self.now }
    {
        match self.as_slice().try_into() {
            Ok(slots) => slots,
            Err(_) => unreachable!(),
        }
    }

    /// The slots in order.
    pub fn as_slice(&self) -> &[C]
        ensures value { result.now ≡ self.now }
        ensures length { length self.now ≡ 32 }
    {
        self.items.as_slice()
    }

    /// A copy of these slots. Fails only if memory runs out.
    pub fn of(alloc: Global, slots: &[C; 32]) -> Result<Self, AllocError>
        ensures { IfOk result (λ copy. copy ≡ slots.now) }
    {
        match Vec::from_array(alloc, *slots) {
            Ok(items) => Ok(Slots { items }),
            Err(_) => Err(AllocError),
        }
    }

    /// Puts a value into a slot.
    pub fn set(&mut self, index: usize, held: C)
        requires { index < 32 }
        ensures set { self.new ≡ slice_set self.old index held }
    {
        self.items[index] = held;
    }
}
