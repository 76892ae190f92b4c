// Version 3: its headers, in three slots with numbered gates, its directories, and its units: frames of
// pages and clusters of nodes. `publish` commits a header with two syncs: a crash at any moment leaves the old header
// committed, or the new one.
mod closing;
mod committed;
mod directory;
mod laws;
mod opening;
mod publishing;
mod root;
mod sector;
mod units;

pub(crate) use closing::close_gates;
pub(crate) use committed::read_committed;
pub use committed::{decide, header_of};
pub(crate) use directory::{read_directory, write_directory};
pub use directory::{entries_fit, read_entries, read_next};
pub use laws::sealed_directories_are_read_back;
pub use opening::{HeaderSlot, read_slots};
pub(crate) use publishing::{publish, slot_of};
pub use root::{add_last, empty_root, replace_seal};
pub use units::{read_cluster, read_page, read_summed, write_cluster, write_page};
