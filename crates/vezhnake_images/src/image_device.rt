// Devices in memory.
ghost use Rattle.std.specs.Prelude.{◌≡◌, ◌≤◌, ◌*◌, ◌%◌, length, IfErr, IfOk};
ghost use Rattle.vezhnake_images.specs.ImageBytes.{IsOver, RefusesBytes, image_disk};

use crate::image_status::ImageStatus;
use crate::no_file::NoFile;
use device::{MAX_SECTORS, SECTOR_SIZE};
use devices::{CopiedFile, SectorCopy};
use std::alloc::{AllocError, Global};

/// A device in memory. None of its calls fails.
pub type ImageDevice = CopiedFile<NoFile>;

// Returns a device with a copy of these bytes. Fails only if memory runs out.
#[tactic(auto, using(crate::proofs::Devices::over))]
fn device_of(alloc: Global, bytes: &[u8]) -> Result<ImageDevice, AllocError>
    requires whole { length bytes.now % 512 ≡ 0 }
    requires few { length bytes.now ≤ 67108864 }
    ensures { IfOk result (IsOver bytes.now) }
{
    let copy = SectorCopy::of(alloc, bytes)?;
    let file = NoFile::new(bytes);
    Ok(CopiedFile::new(copy, file))
}

/// Returns a device with a copy of an image. Returns `BadSize` if the bytes aren't a whole number of sectors, or are
/// too many.
pub(crate) fn device_over(alloc: Global, image: &[u8]) -> Result<ImageDevice, ImageStatus>
    ensures ok { IfOk result (IsOver image.now) }
    ensures err { IfErr result (RefusesBytes image.now) }
{
    if image.len() % SECTOR_SIZE != 0 || image.len() > MAX_SECTORS as usize * SECTOR_SIZE {
        return Err(ImageStatus::BadSize);
    }
    match device_of(alloc, image) {
        Ok(device) => Ok(device),
        Err(_) => Err(ImageStatus::NoMemory),
    }
}

/// Returns a device whose sectors are zeros. Fails only if memory runs out.
#[tactic(auto, using(crate::proofs::Devices::blank))]
pub(crate) fn blank_device(alloc: Global, sectors: u64) -> Result<ImageDevice, AllocError>
    requires { sectors ≤ 131072 }
    ensures { IfOk result (λ d. (image_disk d).sectors ≡ sectors) }
{
    let zeros = vec![in alloc; 0; sectors as usize * SECTOR_SIZE]?;
    device_of(alloc, &zeros)
}
