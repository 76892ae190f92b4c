// Commands given as numbers.
ghost use Rattle.std.specs.Prelude.{◌≡◌, map};
ghost use Rattle.vezhnake.specs.RawCommands.{save_stages};
ghost use Rattle.vezhnake.specs.RawCommands.{command_of, invocation_of, load_of, numbered, registers_of, stage_of};
ghost use Rattle.vezhnake.specs.RawCommands.{store_of};

use model::{Command, Invocation, Operation, Register};

/// A command given as numbers. Fields that its kind doesn't use are ignored.
#[repr(C)]
#[derive(Clone, Copy)]
pub struct RawCommand {
    /// The kind, from 0 on: call, return, send, load, store, evict, checkpoint, stabilize, commit, migrate, journal,
    /// restart, cut.
    pub kind: u32,
    /// The register of the capability that an invocation invokes, below 32.
    pub register: u8,
    /// The registers whose capabilities an invocation sends, each below 32.
    pub sent: [u8; 4],
    /// The number of the process or object; for a stage of a save, how many objects.
    pub number: u64,
    /// The words that an invocation sends. For a load and a store, the address first, then the value to store.
    pub words: [u64; 4],
}

// Returns the registers with these numbers, or `None` if one is out of range.
#[inline(always)]
fn registers_of(numbers: [u8; 4]) -> Option<[Register; 4]>
    ensures { result ≡ registers_of numbers }
{
    Some([
        Register::new(numbers[0])?,
        Register::new(numbers[1])?,
        Register::new(numbers[2])?,
        Register::new(numbers[3])?,
    ])
}

// Returns an invocation with the fields of a command, or `None` if a register is out of range.
#[inline(always)]
fn invocation_of(operation: Operation, raw: &RawCommand) -> Option<Command>
    ensures { result ≡ invocation_of operation raw.now }
{
    let register = Register::new(raw.register)?;
    let sent = registers_of(raw.sent)?;
    Some(Command::Invoke(Invocation {
        operation,
        process: raw.number,
        register,
        words: raw.words,
        sent,
    }))
}

impl RawCommand {
    /// Returns the command that these numbers encode, or `None` if the kind or a register is out of range.
    #[inline(always)]
    pub fn command(&self) -> Option<Command>
        ensures { result ≡ command_of self.now }
    {
        let number = self.number;
        let address = self.words[0];
        match self.kind {
            0 => invocation_of(Operation::Call, self),
            1 => invocation_of(Operation::Return, self),
            2 => invocation_of(Operation::Send, self),
            3 => Some(Command::Load {
                process: number,
                address,
            }),
            4 => Some(Command::Store {
                process: number,
                address,
                value: self.words[1],
            }),
            5 => Some(Command::Evict { number }),
            6 => Some(Command::Checkpoint),
            7 => Some(Command::Stabilize { count: number }),
            8 => Some(Command::Commit),
            9 => Some(Command::Migrate { count: number }),
            10 => Some(Command::Journal { number }),
            11 => Some(Command::Restart),
            12 => Some(Command::Cut),
            _ => None,
        }
    }

    /// Returns the numbers of the command that loads the word at an address of a process.
    #[inline(always)]
    pub fn load(process: u64, address: u64) -> RawCommand
        ensures { result ≡ load_of process address }
    {
        numbered(3, process, address, 0)
    }

    /// Returns the numbers of the command that stores a word at an address of a process.
    #[inline(always)]
    pub fn store(process: u64, address: u64, value: u64) -> RawCommand
        ensures { result ≡ store_of process address value }
    {
        numbered(4, process, address, value)
    }
}

// Returns the numbers of a command without registers.
#[inline(always)]
fn numbered(kind: u32, number: u64, first: u64, second: u64) -> RawCommand
    ensures { result ≡ numbered kind number first second }
{
    RawCommand {
        kind,
        register: 0,
        sent: [0; 4],
        number,
        words: [first, second, 0, 0],
    }
}

// Returns the command of a stage of a save, for all objects.
fn stage(kind: u32) -> RawCommand
    ensures { result ≡ stage_of kind }
{
    numbered(kind, u64::MAX, 0, 0)
}

/// Returns the stages of a save: migrate, checkpoint, stabilize, commit, migrate, each for all objects.
pub fn save_stages() -> [RawCommand; 5]
    ensures { map command_of result ≡ save_stages }
{
    [stage(9), stage(6), stage(7), stage(8), stage(9)]
}
