// The capacity of a cache.
ghost use Rattle.std.specs.Prelude.{◌≡◌, ◌≤◌, ◌↔◌, IfSome, IsSome};

use std::marker::Model;

/// The least capacity: one call fetches up to 8 objects.
pub const LEAST_CAPACITY: u64 = 8;

/// The greatest capacity: the most objects that an image has.
pub const GREATEST_CAPACITY: u64 = 8192;

/// The most objects that a store keeps in memory, 8 to 8192.
#[derive(Clone, Copy)]
pub struct Capacity(u64);

impl Model for Capacity {
    ghost use Rattle.std.specs.Prelude.{ℕ, ◌≤◌};

    ghost Value = { ℕ };

    ghost view = { λ c. c.0 };

    ghost inverse = { λ n. record { 0 = n } };

    ghost invariant = { λ c. (8 ≤ c.0) × (c.0 ≤ 8192) };
}

impl Capacity {
    /// The capacity of `count` objects, or `None` if `count` isn't from 8 to 8192.
    pub fn new(count: u64) -> Option<Capacity>
        ensures capacity { IfSome result (λ c. c ≡ count) }
        ensures some { IsSome result ↔ ((8 ≤ count) × (count ≤ 8192)) }
    {
        if count < LEAST_CAPACITY || count > GREATEST_CAPACITY {
            return None;
        }
        Some(Capacity(count))
    }

    /// The number of objects.
    pub fn count(self) -> u64
        ensures value { result ≡ self }
        ensures least { 8 ≤ result }
        ensures greatest { result ≤ 8192 }
    {
        self.0
    }
}
