//! Sets of numbers, items by place, the capacity of a cache, and counts that only proofs read.
#![tactic(auto)]

mod bits;
mod capacity;
mod count;
mod set;
mod sparse_vec;

pub use capacity::{Capacity, GREATEST_CAPACITY, LEAST_CAPACITY};
pub use count::Tally;
pub use set::NumberSet;
pub use sparse_vec::SparseVec;
