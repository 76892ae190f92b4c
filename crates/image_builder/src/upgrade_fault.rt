// Why an image can't be upgraded.
use checkpoint::OpenFault;
use thiserror::Error;

/// Why the saved state of a device can't be written to another. After `Failed` the new device may hold any bytes;
/// after any other fault it is unchanged.
#[derive(Clone, Copy, Debug, Error)]
pub enum UpgradeFault {
    /// The old device can't be opened, for this reason. If memory ran out, the fault is `NoMemory`
    /// instead.
    #[error("the old device isn't opened: {0}")]
    Old(OpenFault),
    /// The new device is smaller than the image.
    #[error("the device is smaller than the image")]
    Small,
    /// The new device failed.
    #[error("the device failed")]
    Failed,
    /// Memory ran out.
    #[error("memory ran out")]
    NoMemory,
}
