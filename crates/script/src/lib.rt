//! The text of scripts: reading the commands of lines, and writing answers.
#![tactic(auto)]

mod counted;
mod fault;
mod keyword;
mod line_fault;
mod line_text;
mod lines;
mod loads;
mod named;
mod number;
mod output;
mod parse;
mod print;
mod raw_writer;
mod short;
mod short_line;
mod shown;
mod words;

pub use counted::{BufferedOutput, CountedWriter};
pub use fault::RunFault;
pub use keyword::command_word;
pub use line_fault::{LineFault, why_bad};
pub use line_text::LineText;
pub use lines::LineBuffer;
pub use named::{capability_of, state_of};
pub use output::Output;
pub use parse::parse_line;
pub use print::{answer_line, print_answer, print_bad_line, refusal_line};
pub use raw_writer::{RawBuffer, RawWriter};
pub use shown::state_word;
