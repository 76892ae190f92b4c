//! The abstract machine of a persistent capability system, and the plain types of its commands and answers.
#![tactic(auto)]

pub mod access;
pub mod answer;
pub mod capability;
pub mod command;
pub mod frame;
pub mod geometry;
pub mod line;
pub mod object;
pub mod order;
mod page;
mod slots;
mod want;
mod words;

pub use access::Access;
pub use answer::{Answer, Description, MemoryFault, Refusal, Shown, Unjournaled};
pub use capability::{Cap, Capability, MAX_HEIGHT};
pub use command::{Command, Invocation, Message, Operation, REGISTERS, Register};
pub use frame::{Frame, ObjectHeader};
pub use geometry::{Geometry, MAX_AGE};
pub use line::Line;
pub use object::{Content, ContentRef, Object, Role, Root, State};
pub use order::{Arguments, BankOrder, NodeOrder, PageOrder, ProcessOrder, ResultCode};
pub use page::{Page, WORDS};
pub use slots::{SLOTS, Slots};
pub use words::Words;
