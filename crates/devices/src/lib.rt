//! Devices with a record of what was done to them. `Memory` is a device in memory, made with the outcome of
//! its power cuts. `Fuse` makes any device fail after some calls. `ReadOnly` reads the sectors of another device.
//! A device in a file copies its sectors into memory when it is opened, except sectors of zeros: reads are
//! answered from the copy, and writes go to the file and to the copy. Its record is ghost, so it takes no memory.
#![tactic(auto)]

mod fault;
mod file_device;
mod fuse;
mod history;
mod host_file;
mod memory;
mod mirror;
mod new_file;
mod open;
mod openable;
mod raw_file;
mod read_only;
mod record;
mod sector_copy;
mod sector_file;
pub mod sectors;

pub use fault::FileFault;
pub use file_device::{CopiedFile, FileDevice};
pub use fuse::Fuse;
pub use host_file::HostFile;
pub use memory::Memory;
pub use new_file::Unmade;
pub use openable::{Access, Lock, LockAnswer, Openable};
pub use raw_file::RawFile;
pub use read_only::{ReadOnly, SharedDevice};
pub use record::Outcome;
pub use sector_copy::SectorCopy;
pub use sector_file::SectorFile;
