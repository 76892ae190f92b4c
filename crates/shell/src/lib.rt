//! A shell over a kernel: reading the lines that a person types, and the answers that the shell itself gives.
#![tactic(auto)]

mod help;
mod inspector;
pub mod laws;
mod listing;
mod reading;
mod request;
mod saving;
mod session;
mod typed_lines;
mod watch;

pub use help::{TOPICS, Topic};
pub use inspector::Inspector;
pub use session::Shell;
pub use typed_lines::TypedLines;
