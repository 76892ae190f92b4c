// An open store, with its banks and ages.
ghost use Rattle.std.specs.Prelude.{◌≡◌};

use space_bank::Banks;

/// An open store, the banks of its objects, and the ages of its states.
#[derive(Drop)]
pub struct Live<S> {
    pub store: S,
    pub banks: Banks,
    /// The present age.
    pub age: u64,
    /// The age of the frozen state, if there is one.
    pub frozen_age: u64,
}

impl<S: Drop> Live<S> {
    /// Returns the store. The rest is dropped.
    pub fn into_store(self) -> S
        ensures { result ≡ self.store }
    {
        self.store
    }
}
