// Objects with their counts.
use crate::capability::Cap;
use crate::object::{Content, Role};

/// The data about an object besides its content. It is in memory whether or not the content is.
#[derive(Clone, Copy)]
pub struct ObjectHeader {
    /// What the object is.
    pub role: Role,
    /// How often the number was rescinded. A capability with a smaller count is stale (EROS: the
    /// allocation count).
    pub allocations: u64,
    /// How often the right to resume the process was used or rescinded (EROS: the call count).
    pub calls: u64,
    /// The number of the bank that owns the object, or 0 if it is free.
    pub owner: u64,
}

/// An object with its counts, as an image stores it. Its capabilities have counts too, and may be stale.
#[derive(Drop)]
pub struct Frame {
    pub header: ObjectHeader,
    pub content: Content<Cap>,
}
