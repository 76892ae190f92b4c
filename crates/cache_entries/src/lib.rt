//! Cache entries: objects in memory, at most a capacity, by number and in the order of their last use.
#![tactic(auto)]

mod bodies;
mod entries;
mod nodes;
mod number_hasher;
mod places;
mod use_log;
mod use_order;

pub use entries::Entries;
