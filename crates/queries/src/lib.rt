//! The commands of `eros` that only read, once their files are open. They work over any device and writer. They
//! describe or draw an image, print its sizes and what processes can reach, and explain why a file is refused.
#![tactic(auto)]

mod answering;
mod describing;
mod diagnosing;
mod drawing;
mod explaining;
mod info;
mod inspecting;
pub mod laws;
mod naming;
mod reaching;
mod saved;

pub use answering::{Query, answer};
pub use describing::describe_image;
pub use diagnosing::{explain_image, explanation_line};
pub use drawing::{Focus, draw_image};
pub use explaining::{explain_description, explained};
pub use info::count_role;
pub use inspecting::info_image;
pub use naming::describe_named;
pub use reaching::{ReachQuestion, reach_image};
pub use saved::{SavedPart, read_saved};
