// Why a file can't be opened as a device.
ghost use Rattle.std.specs.Prelude.{◌≡◌};
ghost use Rattle.devices.specs.declared.fault.FileFault.TheVariants.{Io, NoMemory};

use std::alloc::AllocError;
use std::io;
use thiserror::Error;

/// Why a file can't be opened or made as a device.
#[derive(Clone, Copy, PartialEq, Eq, Debug, Error)]
pub enum FileFault {
    /// The system refused a call on the file.
    #[error("the file can't be opened, read or written")]
    Io,
    /// Another device is open in the file.
    #[error("another program uses the image")]
    Held,
    /// Memory ran out.
    #[error("memory ran out")]
    NoMemory,
}

impl From<io::Error> for FileFault {
    ghost from_gives = { λ _ e. e ≡ Io };

    fn from(_error: io::Error) -> FileFault {
        FileFault::Io
    }
}

impl From<AllocError> for FileFault {
    ghost from_gives = { λ _ e. e ≡ NoMemory };

    fn from(_error: AllocError) -> FileFault {
        FileFault::NoMemory
    }
}
