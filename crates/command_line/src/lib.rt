//! The command line of `eros`: reading the job to do from its words.
#![tactic(auto)]

mod arguments;
mod fault;
mod requested;
mod subcommands;
mod words;

pub use fault::JobFault;
pub use requested::{CommandLine, Job, Reach, Run, Script, Sizes};
pub use words::command_line;
