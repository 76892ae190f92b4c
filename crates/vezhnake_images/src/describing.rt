// Describing images.
ghost use Rattle.std.specs.Prelude.{◌≡◌, IfErr, IfOk, string_bytes};
ghost use Rattle.vezhnake_images.specs.ImageBytes.{RefusesBytes};
ghost use Rattle.vezhnake_images.specs.ReadBytes.{DescribesBytes, IsTextFor};

use crate::image_device::{ImageDevice, device_over};
use crate::image_status::ImageStatus;
use description::Description;
use image_describer::text_of;
use object_cache::PlainStore;
use queries::read_saved;
use std::alloc::Global;
use vezhnake::copy_out;

// Returns the text of a description of all objects of an image.
#[tactic(auto, using(crate::proofs::Devices::refused_by, crate::proofs::Texts::text_for))]
fn text_for(alloc: Global, image: &[u8]) -> Result<String, ImageStatus>
    ensures ok { IfOk result (λ text. IsTextFor image.now (string_bytes text)) }
    ensures err { IfErr result (RefusesBytes image.now) }
{
    let device = match device_over(alloc, image) {
        Ok(device) => device,
        Err(status) => return Err(status),
    };
    let description = match read_saved::<Description, ImageDevice, PlainStore<ImageDevice>>(
        alloc,
        device,
        (),
    ) {
        Ok((description, _device)) => description,
        Err(refused) => return Err(ImageStatus::of_opening(refused.fault)),
    };
    match text_of(alloc, &description) {
        Ok(text) => Ok(text),
        Err(_) => Err(ImageStatus::NoMemory),
    }
}

/// Copies a description of the saved state of an image to the buffer, as text, and sets `size` to its length.
///
/// Returns `SmallBuffer` if the text doesn't fit; `BadSize` or `Bad` as `check_bytes` does. After an error the buffer
/// is unchanged.
#[tactic(auto, using(crate::proofs::Statuses::undescribed))]
pub fn describe_bytes(alloc: Global, image: &[u8], text: &mut [u8], size: &mut usize) -> ImageStatus
    ensures { DescribesBytes image.now text.old text.new size.old size.new result }
{
    match text_for(alloc, image) {
        Ok(found) => {
            if copy_out(found.as_bytes(), text, size) {
                ImageStatus::Done
            } else {
                ImageStatus::SmallBuffer
            }
        }
        Err(status) => status,
    }
}
