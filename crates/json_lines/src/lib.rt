//! Answers as JSON Lines: each line is a JSON object.
#![tactic(auto)]

mod format;
mod key;
mod object;
mod string;

pub use format::Format;
pub use key::Key;
pub use object::{Member, number_line, number_object, text_object};
pub use string::string_object;
