//! Names that a person gives to the objects of an image: a table from numbers to names, and adding names to
//! texts.
#![tactic(auto)]

mod lines;
mod name;
mod naming;
mod numbering;
mod output;
mod table;
mod words;

pub use lines::NamedLines;
pub use name::{Name, is_name};
pub use naming::{DRAWN, TOLD, name_objects};
pub use numbering::{Unnumbered, number_objects};
pub use output::NamedOutput;
pub use table::{Names, NamesFault};
pub use words::Words;
