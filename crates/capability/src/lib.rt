//! Capabilities and the objects that they name, as frames with counts.
#![tactic(auto)]

pub mod laws;
pub mod objects;
pub mod order;
pub mod plain;
pub mod present;
pub mod roots;
pub mod table;
pub mod view;

pub use model::{Access, Cap, Capability};
pub use order::{BankChange, Caller, Change, OrderPlan, Reply};
pub use plain::Plain;
pub use present::{Frames, Fresh, MAX_FETCHED, PresentFrames, RootChange};
pub use table::ObjectTable;
