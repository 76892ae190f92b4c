// Steps: one object has authority over another.

use model::Capability;

/// In which way one object has authority over another.
#[derive(Clone, Copy)]
pub enum Way {
    /// The first is a process, and the second its annex.
    Annex,
    /// The first is a bank that owns the second.
    Owner,
    /// The first is a process, whose address space is this capability to the second.
    Space(Capability),
    /// The first holds this capability to the second in a slot, or, as a process, in a register.
    Slot { index: u64, capability: Capability },
}

/// A step: the object `from` has authority over the object `to`.
#[derive(Clone, Copy)]
pub struct Step {
    pub from: u64,
    pub way: Way,
    pub to: u64,
}
