//! The trait of devices made of sectors: what a read gives, what a crash may leave, and when a call fails.
#![tactic(auto)]

mod device;
mod fault;
mod ordered;

pub use device::{Device, Failed, MAX_SECTORS, SECTOR_SIZE};
pub use ordered::{write_durably, write_in_order};
