// A count that only proofs read.
ghost use Rattle.std.specs.Prelude.{◌≡◌, ℕ, ◌+◌};
ghost use Rattle.std.specs.Borrow.{ftrue};

use std::marker::Model;

/// How often something has happened. It takes no memory and does nothing at run time, so it has no greatest value.
#[derive(Drop)]
pub struct Tally {
    pub ghost number: { ℕ },
}

impl Model for Tally {
    ghost also_owns = { λ _. ftrue };
}

impl Tally {
    /// Returns a count of 0.
    pub fn new() -> Tally
        ensures { result.number ≡ 0 }
    {
        Tally {}
    }

    /// Returns a count greater by one.
    pub fn next(&self) -> Tally
        ensures { result.number ≡ self.now.number + 1 }
    {
        Tally {}
    }
}
