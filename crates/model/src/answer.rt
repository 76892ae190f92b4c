// Answers to commands.
ghost use Rattle.std.specs.Prelude.{◌≡◌, IfOk};

use crate::Slots;
use crate::capability::Capability;
use crate::object::Object;
use std::alloc::{AllocError, Global};
use std::marker::Model;

/// Why a memory reference reached no word.
#[derive(Clone, Copy)]
pub enum MemoryFault {
    /// There is no address space.
    NoSpace = 1,
    /// The address lies beyond the address space.
    Beyond = 2,
    /// A slot on the way is void.
    Hole = 3,
    /// A slot on the way doesn't hold the next level.
    Malformed = 4,
    /// The reference is a store, and the way to the page isn't writable.
    ReadOnly = 5,
}

/// Why a page wasn't journaled. If both apply, it is the first in this list.
#[derive(Clone, Copy)]
pub enum Unjournaled {
    /// The object isn't a page.
    NotPage = 1,
    /// No page is saved at its number, or the saved one was rescinded since.
    Renewed = 2,
}

/// Why a command wasn't carried out. If several apply, it is the first in this list, except that `NoMemory`
/// and `Fault` may come in place of others.
#[derive(Clone, Copy)]
pub enum Refusal {
    /// The machine is down: only `restart` and `cut` are taken.
    Down,
    /// The number names no process.
    NoProcess,
    /// The process isn't running.
    NotRunning,
    /// The age can't rise any more.
    Worn,
    /// The started process isn't available.
    Stalled,
    /// More objects would be touched than a log half has slots.
    LogFull,
    /// There is a frozen state.
    CheckpointRunning,
    /// The last checkpoint isn't home.
    MigrationPending,
    /// This many frozen objects are not stable yet.
    NotStable(u64),
    /// There is no frozen state.
    NoCheckpoint,
    /// Memory ran out at a `show`, `restart` or `cut`.
    NoMemory,
    /// The device failed. The machine is down.
    Fault,
    /// No object has the number.
    BadNumber,
    /// The object with the number can't be journaled.
    NotJournaled(Unjournaled),
}

/// What is shown of an object: for a process also the registers in its annex, and for a bank its
/// usage, which is 0 for other objects.
#[derive(Drop)]
pub struct Description {
    pub number: u64,
    pub object: Object,
    pub registers: Option<Slots<Capability>>,
    pub used: u64,
}

/// A description in a box. Few answers have one, so an answer stays small.
#[derive(Drop)]
pub struct Shown {
    description: Box<Description>,
}

impl Model for Shown {
    ghost use Rattle.model.specs.declared.answer.Description.{Description};

    ghost Value = { Description };

    ghost view = { λ s. s.description.value };
}

impl Shown {
    /// Moves a description into a box. Fails only if memory runs out.
    pub fn new(alloc: Global, description: Description) -> Result<Self, AllocError>
        ensures { IfOk result (λ shown. shown ≡ description) }
    {
        Ok(Shown {
            description: Box::new(alloc, description)?,
        })
    }

    /// The description.
    pub fn get(&self) -> &Description
        ensures { result.now ≡ self.now }
    {
        &self.description
    }
}

/// The answer to a command.
#[derive(Drop)]
pub enum Answer {
    Done,
    /// The word that a load read.
    Value(u64),
    MemoryFault(MemoryFault),
    /// A checkpoint began; the number counts the objects written since the last one.
    Frozen(u64),
    /// How many frozen objects `stabilize` has yet to reach, or how many saved ones aren't home.
    Left(u64),
    /// The frozen state became the saved one, with this generation.
    Committed(u64),
    /// The page is saved; the number is the new saved generation.
    Journaled(u64),
    /// The machine was opened, and stands at this generation and age.
    At { generation: u64, age: u64 },
    /// An object.
    Shown(Shown),
    Refused(Refusal),
}
