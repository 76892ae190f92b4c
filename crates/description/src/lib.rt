//! Descriptions of images: reading one from a TOML table, its frames, and the first rule that it breaks.
#![tactic(auto)]

mod entry;
mod fault;
mod fields;
mod flaw;
mod indexed;
pub mod laws;
mod laying;
mod limits;
mod list;
pub mod member;
mod numbers;
mod object;
mod objects;
mod place;
mod read;
mod sizes;
mod targets;
mod value;
mod wholeness;
mod world;

pub use entry::{BankEntry, Description, NodeEntry, PageEntry, ProcessEntry, SlotEntry, WordEntry};
pub use fault::BuildFault;
pub use fields::is_capability;
pub use flaw::{Held, Indexed, Limit, Misnumbered, Named, Part, SlotFlaw, WorldFault};
pub use laying::lay_world;
pub use limits::beyond_limits;
pub use place::{Flaw, Key, Misread, ShapePlace, TableName};
pub use sizes::{GrowthFault, Sizes};
pub use targets::{Naming, failing};
pub use wholeness::described_is_whole;
pub use world::World;
