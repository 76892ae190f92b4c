//! Opens a device at its committed checkpoint: checks the objects, counts the banks, and writes nothing.
#![tactic(auto)]

pub mod consistency;
pub mod laws;
mod live;
mod recovering;

pub use consistency::{
    Noted, Unbanked, check, find_unbanked, has_role, is_annex_for, is_named, names_its_role,
    read_notes,
};
pub use live::Live;
pub use recovering::{recover, recover_in};
