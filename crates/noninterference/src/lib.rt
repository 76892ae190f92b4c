//! Objects outside a set of numbers determine neither the answers to processes in the set nor the objects in it.
#![tactic(auto)]

pub mod laws;
pub mod worked;
