//! Images as text: describing the objects of a store, and renumbering a description for an image of other sizes.
#![tactic(auto)]

mod adding;
mod describing;
mod entries;
mod fields;
mod growing;
pub mod laws;
mod objects;
mod ranges;
mod text;
mod values;

pub use describing::describe;
pub use growing::grow;
pub use ranges::ranges_of;
pub use text::text_of;
