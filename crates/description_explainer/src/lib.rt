//! Why a description of an image is refused: the first rule that it breaks, and where.
#![tactic(auto)]

mod explaining;
mod naming;
mod place;
mod place_text;
mod roles;
mod text;

pub use explaining::explain;
pub use place::{Place, Rule};
pub use text::{explanation, on_one_line};
