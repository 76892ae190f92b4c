//! The graph of a description, in DOT. Each object has a box, in the rectangle of the bank that owns it. Each
//! capability that names an object has an arrow.
#![tactic(auto)]

mod arrow;
mod drawing;
mod holding;
pub mod laws;
mod lines;
mod owner;
mod part;
mod restricting;
mod slots;

pub use drawing::draw;
pub use holding::{has_box, holders};
pub use restricting::restrict;
