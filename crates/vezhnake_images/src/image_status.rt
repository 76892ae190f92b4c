// The status that each call returns.
ghost use Rattle.std.specs.Prelude.{◌≡◌};
ghost use Rattle.vezhnake_images.specs.ImageStatuses.{image_number, status_by};

use checkpoint::OpenFault;
use description::BuildFault;
use layout::BadImage;

/// The result of a call over images. A C caller gets its number.
#[derive(Clone, Copy)]
pub enum ImageStatus {
    /// The call succeeded.
    Done,
    /// The bytes are not an image, for this reason.
    Bad(BadImage),
    /// Memory ran out.
    NoMemory,
    /// The image is not a whole number of sectors, or is longer than 64 MiB.
    BadSize,
    /// The buffer is too small.
    SmallBuffer,
    /// The device failed. No call returns this.
    Failed,
    /// The text isn't UTF-8, or isn't TOML.
    NotToml,
    /// The description breaks a rule.
    BadDescription(BuildFault),
}

impl ImageStatus {
    /// Returns the number that a C caller gets.
    pub fn number(self) -> u32
        ensures { result ≡ image_number self }
    {
        match self {
            ImageStatus::Done => 0,
            ImageStatus::Bad(reason) => reason.number() as u32,
            ImageStatus::NoMemory => 11,
            ImageStatus::BadSize => 12,
            ImageStatus::SmallBuffer => 16,
            ImageStatus::Failed => 18,
            ImageStatus::NotToml => 20,
            ImageStatus::BadDescription(fault) => 20 + fault.number() as u32,
        }
    }

    /// Returns the status for a device that could not be opened.
    pub(crate) fn of_opening(fault: OpenFault) -> ImageStatus
        ensures { result ≡ status_by fault }
    {
        match fault {
            OpenFault::Failed => ImageStatus::Failed,
            OpenFault::NoMemory => ImageStatus::NoMemory,
            OpenFault::Bad(reason) => ImageStatus::Bad(reason),
        }
    }
}
