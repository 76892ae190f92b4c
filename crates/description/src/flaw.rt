// Places in a description, and what is wrong there.
ghost use Rattle.std.specs.Prelude.{◌≡◌};

use std::alloc::{AllocError, AllocFailed};

/// A flaw in a list of entries with indexes.
#[derive(Clone, Copy)]
pub enum Indexed {
    /// The index in this entry is outside its range.
    OutOfRange(usize),
    /// These two entries have the same index.
    Twice(usize, usize),
}

/// A flaw in a list of slots or registers.
#[derive(Clone, Copy)]
pub enum SlotFlaw {
    Index(Indexed),
    /// The text of this entry isn't a capability's.
    Text(usize),
}

/// A field of an object. The first number is the object's index in its list.
#[derive(Clone, Copy)]
pub enum Part {
    State(usize),
    Key(usize),
    Space(usize),
    Registers(usize, SlotFlaw),
    Slots(usize, SlotFlaw),
    Words(usize, Indexed),
}

/// A limit of images that a description breaks.
#[derive(Clone, Copy)]
pub enum Limit {
    Nodes,
    Pages,
    Log,
    /// There is no range, or there are more than eight.
    RangeCount,
    /// The range at this index is wrong: it doesn't begin at the number `next`, is empty, has both nodes and pages,
    /// or goes beyond the last number.
    Range { index: usize, next: u64 },
    /// The ranges end at the number `next`, before the last one.
    RangesEnd { next: u64 },
    Age,
    Layout,
}

/// An object with a number, by its index in the list of such objects.
#[derive(Clone, Copy)]
pub enum Named {
    Bank(usize),
    Root(usize),
    Annex(usize),
    Node(usize),
    Page(usize),
}

/// A flaw in the numbers of objects.
#[derive(Clone, Copy)]
pub enum Misnumbered {
    /// The object's number is outside the range for its kind.
    OutOfRange(Named),
    /// Two objects have the same number.
    Twice(Named, Named),
}

/// A capability of a process or node, by the object's index in its list and the entry's index in the
/// object.
#[derive(Clone, Copy)]
pub enum Held {
    Space(usize),
    Register(usize, usize),
    Slot(usize, usize),
}

/// Why a description has no world: the first of these rules that it breaks, and where.
#[derive(Clone, Copy)]
pub enum WorldFault {
    Number(Misnumbered),
    Field(Part),
    Target(Held),
    /// Memory ran out.
    NoMemory,
}

impl From<AllocError> for WorldFault {
    ghost use Rattle.description.specs.declared.flaw.WorldFault.TheVariants as fault;

    ghost from_gives = { λ _ why. why ≡ fault.NoMemory };

    fn from(_error: AllocError) -> WorldFault {
        WorldFault::NoMemory
    }
}

impl<T: Drop> From<AllocFailed<T>> for WorldFault {
    ghost use Rattle.description.specs.declared.flaw.WorldFault.TheVariants as fault;

    ghost from_gives = { λ _ why. why ≡ fault.NoMemory };

    fn from(_failed: AllocFailed<T>) -> WorldFault {
        WorldFault::NoMemory
    }
}
