// The orders of kernel objects, and their result codes.
ghost use Rattle.std.specs.Prelude.{◌≡◌};
ghost use Rattle.model.specs.OrderOutcome.{code_number};

use crate::capability::Capability;

/// The result of an order: the first of the result words.
#[derive(Clone, Copy)]
pub enum ResultCode {
    Done = 0,
    NoOrder = 1,
    NoAccess = 2,
    BadIndex = 3,
    BadCapability = 4,
    Limit = 5,
    NoFrame = 6,
    TooDeep = 7,
    VoidCapability = 8,
    NotFromThisBank = 9,
    PrimeBank = 10,
}

/// An order of a page capability.
#[derive(Clone, Copy)]
pub enum PageOrder {
    Read = 1,
    Write = 2,
    Reduce = 3,
}

/// An order of a node capability.
#[derive(Clone, Copy, PartialEq, Eq)]
pub enum NodeOrder {
    Fetch = 1,
    Store = 2,
    Reduce = 3,
    MakeSpace = 4,
    PutNumber = 5,
}

/// An order of a process capability.
#[derive(Clone, Copy)]
pub enum ProcessOrder {
    GetRegister = 1,
    PutRegister = 2,
    GetWord = 3,
    PutWord = 4,
    MakeStart = 5,
    GetState = 6,
    SetState = 7,
    GetSpace = 8,
    SetSpace = 9,
}

/// An order of a bank capability (EROS, KeyKOS: space bank).
#[derive(Clone, Copy, PartialEq, Eq)]
pub enum BankOrder {
    NewPage = 1,
    NewNode = 2,
    NewProcess = 3,
    NewBank = 4,
    Free = 5,
    Destroy = 6,
    ReturnToParent = 7,
    Remaining = 8,
}

/// The arguments of an order: the second and third word sent, and the first capability.
#[derive(Clone, Copy)]
pub struct Arguments {
    pub first: u64,
    pub second: u64,
    pub capability: Capability,
}

impl ResultCode {
    /// The code as the first result word.
    pub fn number(self) -> u64
        ensures { result ≡ code_number self }
    {
        self as u64
    }
}
