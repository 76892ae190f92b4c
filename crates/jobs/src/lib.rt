//! The commands of `eros` that run, build, check or upgrade an image, once their files are open. They work over any
//! device, reader and writer. Also the faults and the exit status of every command.
#![tactic(auto)]

mod building;
mod checking;
mod done;
mod fault;
pub mod laws;
mod output;
mod running;
mod saving;
mod serving;
mod upgrading;

pub use building::build_image;
pub use checking::check_image;
pub use done::Done;
pub use fault::{Fault, of_write, status};
pub use output::finish;
pub use running::{run_image, run_traced};
pub use saving::run_and_save;
pub use serving::run_shell;
pub use upgrading::upgrade_opened;
