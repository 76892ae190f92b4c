//! Questions about what is saved, as they are typed at a shell: the words of `eros reach`, `describe`, `draw` and `info`
//! without the image.
#![tactic(auto)]

mod answering;
mod inspecting;
mod query;
mod words;

pub use answering::answer_line;
pub use inspecting::Questions;
pub use query::{describing, drawing, reaching, telling};
