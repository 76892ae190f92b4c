//! Invocations of capabilities.
#![tactic(auto)]

mod banking;
mod carrying;
mod change;
mod delivery;
mod gates;
mod invocation;
mod kernel_object;
mod node;
mod orders;
mod page;
mod process;
mod reading;
mod reducing;

pub use invocation::invoke;
