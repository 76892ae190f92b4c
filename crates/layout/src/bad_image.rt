// The reasons to refuse an image.
ghost use Rattle.std.specs.Prelude.{◌≡◌, ◌≤◌};
ghost use Rattle.layout.specs.Reason.{reason_number};

use thiserror::Error;

/// A reason to refuse an image. If several hold, it is the least.
#[derive(Clone, Copy, Debug, Error)]
pub enum BadImage {
    #[error("the device is smaller than the image")]
    Small = 1,
    #[error("the superblock has another magic or version")]
    NotASuperblock = 2,
    #[error("the superblock has a number outside its limits")]
    BadGeometry = 3,
    #[error("no checkpoint is committed")]
    NoHeader = 4,
    #[error("the header of the checkpoint is damaged")]
    BadHeader = 5,
    #[error("the directory of the checkpoint is damaged")]
    BadDirectory = 6,
    #[error("a frame is damaged")]
    BadFrame = 7,
    #[error("a capability names an object that it can't name")]
    BadCapability = 8,
    #[error("a process hasn't one root and one annex")]
    BadProcess = 9,
    #[error("an object hasn't an owner within its limit")]
    BadBank = 10,
}

impl BadImage {
    /// Returns the number of the reason: 1 to 10, in the order of the variants.
    pub fn number(self) -> u64
        ensures value { result ≡ reason_number self }
        ensures most { result ≤ 10 }
    {
        self as u64
    }
}
