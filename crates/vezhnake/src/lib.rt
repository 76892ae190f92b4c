//! Sessions of the kernel over a host's storage. The host passes an image as bytes, runs script lines, or commands
//! given as numbers, and carries out the device calls. `vezhnake_c` offers this to C.
#![tactic(auto)]

mod batch;
mod handle;
mod history;
mod host_kernel;
mod pending;
mod pointer;
mod raw_command;
mod raw_object;
mod raw_reply;
mod recorder;
mod serving;
mod session;
mod status;
mod text_script;

pub use batch::{Batch, run_batch};
pub use handle::Handle;
pub use history::{History, Step};
pub use raw_command::RawCommand;
pub use raw_object::{RawCapability, RawObject, RawPage};
pub use raw_reply::{RawReply, replies_tell_answers};
pub use session::copy_out;
pub use status::Status;
