//! The plan of an order, before anything changes: a reply and a change.
ghost use Rattle.std.specs.Prelude.{◌≡◌, [], ◌∷◌};
ghost use Rattle.capability.specs.Changes.{reply_of_code, target_of};

use crate::present::Fresh;
use model::{Capability, Operation, ResultCode, State};

/// What the caller receives.
#[derive(Clone, Copy)]
pub struct Reply {
    pub code: ResultCode,
    /// The result words after the code.
    pub words: [u64; 3],
    pub capability: Capability,
}

/// What a bank changes.
#[derive(Clone, Copy)]
pub enum BankChange {
    /// Makes a free number a page, a node or a bank.
    Make {
        number: u64,
        fresh: Fresh,
        bank: u64,
    },
    /// Makes two free numbers a process: its root and its annex.
    MakeProcess {
        root: u64,
        annex: u64,
        bank: u64,
    },
    /// Frees the listed numbers and subtracts them from the usage of `above` and its ancestors.
    GiveUp {
        above: u64,
    },
    /// Frees a bank and gives what it owns to its own bank.
    Transfer {
        bank: u64,
    },
}

/// The one change that an order makes.
// No `Debug` here: nothing prints a change, and the proof of a derived one takes a minute.
#[derive(Clone, Copy)]
pub enum Change {
    Nothing,
    /// A word of a page.
    Word {
        page: u64,
        index: usize,
        word: u64,
    },
    /// A slot of a node.
    Slot {
        node: u64,
        slot: usize,
        held: Capability,
    },
    /// A register of a process, in its annex.
    Register {
        process: u64,
        annex: u64,
        register: usize,
        held: Capability,
    },
    /// A word of the message that a process received last.
    RootWord {
        process: u64,
        index: usize,
        word: u64,
    },
    /// The state of a process. Every resume capability to it becomes void.
    SetState {
        process: u64,
        state: State,
    },
    /// The address space of a process.
    Space {
        process: u64,
        held: Capability,
    },
    /// Objects of a bank.
    Bank(BankChange),
}

/// The reply of an order, and the change that it makes.
#[derive(Clone, Copy)]
pub struct OrderPlan {
    pub reply: Reply,
    pub change: Change,
}

/// The process that invokes, and what it invokes, before anything changes.
#[derive(Clone, Copy)]
pub struct Caller {
    pub process: u64,
    /// The annex of the process.
    pub annex: u64,
    pub operation: Operation,
    pub invoked: Capability,
}

impl Change {
    /// The number of the object that the change writes, if it writes exactly one.
    pub fn target(&self) -> Option<u64>
        ensures { result ≡ target_of self.now }
    {
        match self {
            Change::Nothing => None,
            Change::Word { page, .. } => Some(*page),
            Change::Slot { node, .. } => Some(*node),
            Change::Register { annex, .. } => Some(*annex),
            Change::RootWord { process, .. }
            | Change::SetState { process, .. }
            | Change::Space { process, .. } => Some(*process),
            Change::Bank(_) => None,
        }
    }
}

impl OrderPlan {
    /// A plan that changes nothing and replies with a code.
    pub fn refused(code: ResultCode) -> OrderPlan
        ensures { result ≡ record { reply = reply_of_code code; change = Change.Nothing } }
    {
        OrderPlan {
            reply: Reply {
                code,
                words: [0; 3],
                capability: Capability::Void,
            },
            change: Change::Nothing,
        }
    }

    /// A plan that replies with three words.
    pub fn replying_three(words: [u64; 3]) -> OrderPlan
        ensures { result ≡ record {
          reply = record { code = ResultCode.Done; words = words; capability = Capability.Void };
          change = Change.Nothing;
        } }
    {
        OrderPlan {
            reply: Reply {
                code: ResultCode::Done,
                words,
                capability: Capability::Void,
            },
            change: Change::Nothing,
        }
    }

    /// A plan that replies with two words and 0.
    pub fn replying(first: u64, second: u64) -> OrderPlan
        ensures { result ≡ record {
          reply = record {
            code = ResultCode.Done;
            words = first ∷ second ∷ 0 ∷ [];
            capability = Capability.Void;
          };
          change = Change.Nothing;
        } }
    {
        OrderPlan {
            reply: Reply {
                code: ResultCode::Done,
                words: [first, second, 0],
                capability: Capability::Void,
            },
            change: Change::Nothing,
        }
    }

    /// A plan that makes a change and replies with a capability.
    pub fn made(capability: Capability, change: Change) -> OrderPlan
        ensures { result ≡ record {
          reply = record { code = ResultCode.Done; words = 0 ∷ 0 ∷ 0 ∷ []; capability = capability };
          change = change;
        } }
    {
        OrderPlan {
            reply: Reply {
                code: ResultCode::Done,
                words: [0; 3],
                capability,
            },
            change,
        }
    }

    /// A plan that replies with a capability.
    pub fn given(capability: Capability) -> OrderPlan
        ensures { result ≡ record {
          reply = record { code = ResultCode.Done; words = 0 ∷ 0 ∷ 0 ∷ []; capability = capability };
          change = Change.Nothing;
        } }
    {
        OrderPlan::made(capability, Change::Nothing)
    }

    /// A plan that makes a change.
    pub fn changed(change: Change) -> OrderPlan
        ensures { result ≡ record { reply = reply_of_code ResultCode.Done; change = change } }
    {
        OrderPlan::made(Capability::Void, change)
    }
}
