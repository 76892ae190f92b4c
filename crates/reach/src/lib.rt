//! The least closed set that contains some processes: what they, and processes that they make, can change or read.
//! Also a shortest chain of capabilities from them to an object.
#![tactic(auto)]

mod authority;
mod chaining;
mod changing;
mod closing;
mod explaining;
mod holders;
pub mod laws;
mod levels;
mod printing;
mod process;
mod searching;
mod step;
mod world;

pub use authority::Purpose;
pub use chaining::shortest_chain;
pub use changing::changers;
pub use closing::reach;
pub use explaining::print_chain;
pub use printing::{print_changers, print_reach};
pub use process::{all_processes, missing_process};
pub use step::{Step, Way};
pub use world::read_objects;
