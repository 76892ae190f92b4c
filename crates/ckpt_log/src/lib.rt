//! The log of checkpoints. `Log::commit` commits a header: a crash at any moment leaves the old header committed, or the
//! new one.
#![tactic(auto)]

mod any_version;
mod closing;
mod committed;
mod directory;
mod header_slot;
mod laws;
mod log;
mod publish;
pub mod sealed;
mod sector;
mod slots;

pub use any_version::close_gates_of;
pub use committed::committed_slot;
pub use header_slot::HeaderSlot;
pub use laws::{
    a_commit_leaves_either_state, headers_spare_the_rest, keep_halves_apart,
    saved_is_read_from_its_sectors, what_is_written_is_read,
};
pub use log::Log;
pub use sector::read_sector;
