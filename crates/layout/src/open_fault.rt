// Why opening a device or reading from it failed.
use crate::BadImage;
use device::Failed;
use model::Refusal;
use std::alloc::AllocError;
use thiserror::Error;

/// Why opening a device, or reading an object from it, failed.
#[derive(Clone, Copy, Debug, Error)]
pub enum OpenFault {
    /// The device failed.
    #[error("the device failed")]
    Failed,
    /// Memory ran out.
    #[error("no memory")]
    NoMemory,
    /// The device holds no valid image, for this reason.
    #[error("{0}")]
    Bad(BadImage),
}

impl From<Failed> for OpenFault {
    ghost use Rattle.std.specs.Prelude.{◌≡◌};
    ghost use Rattle.layout.specs.declared.open_fault.OpenFault.TheVariants.{Failed};

    ghost from_gives = { λ _ e. e ≡ Failed };

    fn from(_failed: Failed) -> OpenFault {
        OpenFault::Failed
    }
}

impl From<BadImage> for OpenFault {
    ghost use Rattle.std.specs.Prelude.{◌≡◌};
    ghost use Rattle.layout.specs.declared.open_fault.OpenFault.TheVariants.{Bad};

    ghost from_gives = { λ reason e. e ≡ Bad reason };

    fn from(reason: BadImage) -> OpenFault {
        OpenFault::Bad(reason)
    }
}

impl From<AllocError> for OpenFault {
    ghost use Rattle.std.specs.Prelude.{◌≡◌};
    ghost use Rattle.layout.specs.declared.open_fault.OpenFault.TheVariants.{NoMemory};

    ghost from_gives = { λ _ e. e ≡ NoMemory };

    fn from(_error: AllocError) -> OpenFault {
        OpenFault::NoMemory
    }
}

/// Returns `Failed` for `Fault`, and `NoMemory` for any other refusal.
///
/// Use it only for refusals of functions that only read objects. These return a refusal only by `?`, from `Failed`
/// (as `Fault`) or `AllocError` (as `NoMemory`), so no other refusal comes here. The users are `check`, `recover` and
/// `recover_in` of `recovery`, which read all objects of a store.
impl From<Refusal> for OpenFault {
    ghost use Rattle.std.specs.Prelude.{◌≡◌, ◌↔◌};
    ghost use Rattle.layout.specs.declared.bad_image.BadImage.{BadImage};
    ghost use Rattle.layout.specs.declared.open_fault.OpenFault.TheVariants.{Failed, Bad};
    ghost use Rattle.model.specs.declared.answer.Refusal.TheVariants as refusal;

    ghost from_gives = { λ why e. ((e ≡ Failed) ↔ (why ≡ refusal.Fault))
        × ((reason : BadImage) → e ≡ Bad reason → ⊥) };

    fn from(why: Refusal) -> OpenFault {
        match why {
            Refusal::Fault => OpenFault::Failed,
            _ => OpenFault::NoMemory,
        }
    }
}
