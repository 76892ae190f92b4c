// The status that each call of the library returns.
ghost use Rattle.std.specs.Prelude.{◌≡◌};

use crate::session::CallsFault;
use checkpoint::OpenFault;
use layout::BadImage;

/// The result of a call of the library. A C caller gets its number.
#[derive(Clone, Copy)]
pub enum Status {
    /// The call succeeded.
    Done,
    /// The bytes are not an image, for this reason.
    Bad(BadImage),
    /// Memory ran out.
    NoMemory,
    /// The image is not a whole number of sectors, or is longer than 64 MiB.
    BadSize,
    /// The capacity of the cache isn't 0 or from 8 to 8192.
    BadCache,
    /// The handle is already open.
    AlreadyOpen,
    /// The handle is not open.
    NotOpen,
    /// The buffer is too small.
    SmallBuffer,
    /// The device no longer keeps the calls that it made.
    CallsLost,
    /// Memory ran out for recording the sync that opening begins with.
    Failed,
    /// The numbers are no valid command: the kind or a register is out of range.
    BadCommand,
}

impl Status {
    ghost use Rattle.vezhnake.specs.Statuses.{number_of};

    /// Returns the number that a C caller gets.
    pub fn number(self) -> u32
        ensures { result ≡ number_of self }
    {
        match self {
            Status::Done => 0,
            Status::Bad(reason) => reason.number() as u32,
            Status::NoMemory => 11,
            Status::BadSize => 12,
            Status::BadCache => 13,
            Status::AlreadyOpen => 14,
            Status::NotOpen => 15,
            Status::SmallBuffer => 16,
            Status::CallsLost => 17,
            Status::Failed => 18,
            Status::BadCommand => 19,
        }
    }
}

impl From<OpenFault> for Status {
    ghost use Rattle.vezhnake.specs.Statuses.{status_by};

    ghost from_gives = { λ fault s. s ≡ status_by fault };

    fn from(fault: OpenFault) -> Status {
        match fault {
            OpenFault::Failed => Status::Failed,
            OpenFault::NoMemory => Status::NoMemory,
            OpenFault::Bad(reason) => Status::Bad(reason),
        }
    }
}

impl From<CallsFault> for Status {
    ghost use Rattle.vezhnake.specs.Statuses.{status_for};

    ghost from_gives = { λ fault s. s ≡ status_for fault };

    fn from(fault: CallsFault) -> Status {
        match fault {
            CallsFault::NoMemory => Status::NoMemory,
            CallsFault::CallsLost => Status::CallsLost,
        }
    }
}
