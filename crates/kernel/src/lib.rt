//! The kernel: a machine of objects over a device, and its commands.
#![tactic(auto)]

mod age;
mod checkpoints;
mod journaling;
mod kernel;
mod processes;
mod serving;

pub use kernel::Kernel;
pub use processes::Served;
