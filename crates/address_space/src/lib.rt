//! Address spaces: what the loads and stores of processes reach.
#![tactic(auto)]

mod fetching;
mod reference;
mod walking;

pub use reference::{load, store};
pub use walking::{Reached, walk};
