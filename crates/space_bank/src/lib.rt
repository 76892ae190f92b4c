//! Space banks: the usage of each, which numbers are free, and the orders that allocate and free.
#![tactic(auto)]

mod allocating;
mod banks;
mod carrying;
mod chains;
mod counting;
mod freeing;
mod listing;
mod marking;
mod planning;
mod planning_new;
mod walking;

pub use banks::Banks;
pub use counting::{count_usages, read_limits};
pub use walking::is_in_chain;
