//! Checkpoints: what one saves, its numbers, what each stage does and answers, why an image is refused, and
//! the trait of stores that make checkpoints.
#![tactic(auto)]

mod committed;
mod open_refused;
mod store;

pub use committed::Checkpoint;
pub use layout::OpenFault;
pub use open_refused::OpenRefused;
pub use store::ObjectStore;
