//! The store of objects over a device. Its policy says which bodies stay in memory: all, or those of the
//! objects used last.
#![tactic(auto)]

mod all_objects;
mod frozen;
mod headers;
mod number_sets;
mod policy;
mod saved_objects;
mod staging;
mod store;

pub use collections::Capacity;
pub use policy::{KeepAll, KeepRecent, Policy};
pub use store::{BoundedCache, PlainStore, Store};
