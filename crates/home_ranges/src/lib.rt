//! The frames of objects at home: where each lies, how it is read and written, and where the home ranges of a
//! new image lie.
#![tactic(auto)]

mod frames;
mod home;
pub mod laws;
mod number_range;
mod plan;

pub use home::Home;
pub use number_range::NumberRange;
pub use plan::{lay_out, lay_out_again};
