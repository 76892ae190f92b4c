// Why no image is built.
ghost use Rattle.std.specs.Prelude.{◌≡◌};
ghost use Rattle.description.specs.Faults.{fault_number};

use crate::flaw::WorldFault;
use crate::place::Misread;
use device::Failed;
use std::alloc::{AllocError, AllocFailed};
use thiserror::Error;

/// Why no image is built from a table. If several faults apply, the least is returned. A function that does part of
/// the work returns only that part's faults.
#[derive(Clone, Copy, Debug, Error)]
pub enum BuildFault {
    #[error("the table hasn't the shape of a description")]
    Shape = 1,
    #[error("no image has so many objects or slots, ranges like these, or such an age or layout")]
    Limits = 2,
    #[error("a number isn't one of its kind, or is named twice")]
    Number = 3,
    #[error("a field of a process, a node or a page is bad")]
    Field = 4,
    #[error("a capability names an object that it can't name")]
    Target = 5,
    #[error("an object hasn't an owner within its limit")]
    Owner = 6,
    #[error("the device is smaller than the image")]
    Small = 7,
    #[error("the device failed")]
    Failed = 8,
    #[error("memory ran out")]
    NoMemory = 9,
}

impl BuildFault {
    /// Returns the fault's number: the place of its variant, from 1.
    pub fn number(self) -> u64
        ensures { result ≡ fault_number self }
    {
        self as u64
    }
}

impl From<Failed> for BuildFault {
    ghost use Rattle.description.specs.declared.fault.BuildFault.TheVariants as fault;

    ghost from_gives = { λ _ why. why ≡ fault.Failed };

    fn from(_failed: Failed) -> BuildFault {
        BuildFault::Failed
    }
}

impl From<AllocError> for BuildFault {
    ghost use Rattle.description.specs.declared.fault.BuildFault.TheVariants as fault;

    ghost from_gives = { λ _ why. why ≡ fault.NoMemory };

    fn from(_error: AllocError) -> BuildFault {
        BuildFault::NoMemory
    }
}

impl<T: Drop> From<AllocFailed<T>> for BuildFault {
    ghost use Rattle.description.specs.declared.fault.BuildFault.TheVariants as fault;

    ghost from_gives = { λ _ why. why ≡ fault.NoMemory };

    fn from(_failed: AllocFailed<T>) -> BuildFault {
        BuildFault::NoMemory
    }
}

impl From<Misread<'_>> for BuildFault {
    ghost use Rattle.description.specs.Outcomes.{misread_fault};

    ghost from_gives = { λ why fault. fault ≡ misread_fault why };

    fn from(why: Misread<'_>) -> BuildFault {
        match why {
            Misread::Misshapen(_) => BuildFault::Shape,
            Misread::NoMemory => BuildFault::NoMemory,
        }
    }
}

impl From<WorldFault> for BuildFault {
    ghost use Rattle.description.specs.Outcomes.{world_fault};

    ghost from_gives = { λ why fault. fault ≡ world_fault why };

    fn from(why: WorldFault) -> BuildFault {
        match why {
            WorldFault::Number(_) => BuildFault::Number,
            WorldFault::Field(_) => BuildFault::Field,
            WorldFault::Target(_) => BuildFault::Target,
            WorldFault::NoMemory => BuildFault::NoMemory,
        }
    }
}
