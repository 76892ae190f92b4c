//! Three header slots with numbered gates, and which header is committed.
#![tactic(auto)]

mod deciding;
mod laws;

pub use deciding::{NotCommitted, SlotNumbers, committed, counting_number};
pub use laws::{closing_is_safe, damage_changes_nothing, publishing_is_safe, weaker_rules_fail};
