//! The durable store: the saved frames of a device, and the frames written to the log for the next
//! checkpoint.
#![tactic(auto)]

mod assemble;
mod books;
mod cluster_buffer;
mod copy;
mod directory;
mod durable;
mod find;
mod first_in_cluster;
mod gather;
mod image;
mod intake;
mod next_root;
mod read;
mod table;
mod unit_seals;
mod units;
mod whole;
mod whole_store;

pub use durable::{Durable, Opened};
pub use intake::Intake;
pub use read::{read_saved, read_superblock};
pub use units::{check_seals, frame_sector, read_unit};
pub use whole_store::{AllObjects, WholeStore};
