// Invocations, and the commands of a script.
ghost use Rattle.std.specs.Prelude.{◌≡◌, ◌<◌, ◌↔◌, IfSome, IsSome};
ghost use Rattle.model.specs.Text.{Fits};

use crate::capability::Capability;
use std::marker::Model;

/// How many registers a process has.
pub const REGISTERS: u8 = 32;

/// A register of a process, by its number, which is below 32.
#[derive(Clone, Copy)]
pub struct Register(u8);

impl Model for Register {
    ghost use Rattle.std.specs.Prelude.{ℕ, ◌<◌};

    ghost Value = { ℕ };

    ghost view = { λ r. r.0 };

    ghost inverse = { λ n. record { 0 = n } };

    ghost invariant = { λ r. r.0 < 32 };
}

impl Register {
    /// The register with this number, if a process has one.
    pub fn new(number: u8) -> Option<Register>
        ensures register { IfSome result (λ r. r ≡ number) }
        ensures some { IsSome result ↔ (number < 32) }
    {
        if number < REGISTERS {
            Some(Register(number))
        } else {
            None
        }
    }

    /// The register's place among the registers of an annex.
    pub fn index(self) -> usize
        ensures value { result ≡ self }
        ensures within { result < 32 }
    {
        self.0 as usize
    }
}

/// What an invocation does to the process that makes it.
#[derive(Clone, Copy, PartialEq, Eq)]
pub enum Operation {
    /// Through a gate the process waits for an answer. A kernel object answers at once, so the process
    /// goes on.
    Call,
    /// The process is available again.
    Return,
    /// The process goes on.
    Send,
}

/// The invocation of a capability by a process (EROS, KeyKOS: call, return and fork or send).
#[derive(Clone, Copy)]
pub struct Invocation {
    pub operation: Operation,
    /// The number of the process.
    pub process: u64,
    /// The register of the invoked capability.
    pub register: Register,
    /// The words that are sent. For a kernel object the first is the order.
    pub words: [u64; 4],
    /// The registers whose capabilities are sent.
    pub sent: [Register; 4],
}

impl Invocation {
    /// A lemma as a function, which does nothing: every invocation can be spelt in a script.
    pub fn can_be_spelt(self)
        ensures { Fits (Command.Invoke self) }
    {
        let _words = self.words;
        let _process = self.process;
        let _register = self.register.index();
        let _first = self.sent[0].index();
        let _second = self.sent[1].index();
        let _third = self.sent[2].index();
        let _fourth = self.sent[3].index();
    }
}

/// Words, a key and four capabilities on their way to a process.
#[derive(Clone, Copy)]
pub struct Message {
    pub words: [u64; 4],
    /// Which start capability was used, or 0.
    pub key: u16,
    /// The capabilities that are sent; they come into registers 28 to 31.
    pub capabilities: [Capability; 4],
}

/// A command to the machine: one line of a script.
#[derive(Clone, Copy)]
pub enum Command {
    Invoke(Invocation),
    /// Reads the word at an address of the process's address space.
    Load {
        process: u64,
        address: u64,
    },
    /// Writes the word at an address of the process's address space.
    Store {
        process: u64,
        address: u64,
        value: u64,
    },
    /// Requests the text of an object.
    Show {
        number: u64,
    },
    /// Requests that an object leave the cache.
    Evict {
        number: u64,
    },
    /// Freezes the state.
    Checkpoint,
    /// Writes up to `count` frozen objects to the log.
    Stabilize {
        count: u64,
    },
    /// Makes the frozen state the saved one.
    Commit,
    /// Moves up to `count` saved objects home.
    Migrate {
        count: u64,
    },
    /// Saves the present words of a page, without a checkpoint.
    Journal {
        number: u64,
    },
    /// Opens the device again.
    Restart,
    /// Cuts the power, and opens the device again.
    Cut,
}

impl Command {
    /// A lemma as a function, which does nothing: every command can be spelt in a script.
    pub fn can_be_spelt(self)
        ensures { Fits self }
    {
        if let Command::Invoke(invocation) = self {
            invocation.can_be_spelt();
        }
    }
}
