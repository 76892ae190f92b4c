//! What processes can change if they have authority only over a set of objects, and may start trusted processes.
#![tactic(auto)]

pub mod laws;
pub mod worked;
