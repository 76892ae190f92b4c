// Checking images.
ghost use Rattle.std.specs.Prelude.{IfErr, IfOk};
ghost use Rattle.vezhnake_images.specs.ImageBytes.{RefusesBytes};
ghost use Rattle.vezhnake_images.specs.ReadBytes.{ChecksBytes, IsInfoOf};

use crate::image_device::{ImageDevice, device_over};
use crate::image_status::ImageStatus;
use crate::raw_info::RawInfo;
use object_cache::PlainStore;
use queries::read_saved;
use std::alloc::Global;

// Opens the image in these bytes, and returns its sizes and counts.
#[tactic(auto, using(crate::proofs::Devices::refused_by))]
fn info_in(alloc: Global, image: &[u8]) -> Result<RawInfo, ImageStatus>
    ensures ok { IfOk result (IsInfoOf image.now) }
    ensures err { IfErr result (RefusesBytes image.now) }
{
    let device = match device_over(alloc, image) {
        Ok(device) => device,
        Err(status) => return Err(status),
    };
    match read_saved::<RawInfo, ImageDevice, PlainStore<ImageDevice>>(alloc, device, ()) {
        Ok((info, _device)) => Ok(info),
        Err(refused) => Err(ImageStatus::of_opening(refused.fault)),
    }
}

/// Opens the image in these bytes as a run does, and writes its sizes and counts to `info`.
///
/// Returns `BadSize`, or `Bad` with the least of the ten reasons to refuse an image. After an error `info` is
/// unchanged.
#[tactic(auto, using(crate::proofs::Statuses::unchecked))]
pub fn check_bytes(alloc: Global, image: &[u8], info: &mut RawInfo) -> ImageStatus
    ensures { ChecksBytes image.now info.old info.new result }
{
    match info_in(alloc, image) {
        Ok(found) => {
            *info = found;
            ImageStatus::Done
        }
        Err(status) => status,
    }
}
