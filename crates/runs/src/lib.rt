//! Runs of scripts over a kernel, and theorems about them.
#![tactic(auto)]

mod cause;
pub mod laws;
mod observer;
mod raw_reader;
mod running;
mod saving;
mod script_pieces;
mod script_reader;
mod tracer;
mod unsaved;

pub use cause::{Cause, Stop, add_code, fault_of};
pub use observer::{Observer, Silent};
pub use raw_reader::RawReader;
pub use running::{run, run_line, run_observed};
pub use saving::{commit_all, migrate_all, save};
pub use script_pieces::{Piece, Script};
pub use script_reader::ScriptReader;
pub use tracer::{TraceOptions, Tracer};
pub use unsaved::Unsaved;
