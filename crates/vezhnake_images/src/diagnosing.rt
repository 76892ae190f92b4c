// Explaining why images and descriptions are refused.
ghost use Rattle.std.specs.Prelude.{◌≡◌, Bool, Option, IfErr, IfOk, string_bytes};
ghost use Rattle.image_explainer.specs.declared.fault.ImageFault.{ImageFault};
ghost use Rattle.queries.specs.Explained.{TellsOf};
ghost use Rattle.vezhnake_images.specs.ImageBytes.{RefusesBytes};
ghost use Rattle.vezhnake.specs.Sessions.{CopiesOut};
ghost use Rattle.vezhnake_images.specs.ImageStatuses.{Answered};
ghost use Rattle.vezhnake_images.specs.ReadBytes.{ExplainsBytes, ExplainsText, IsFound};

use crate::image_device::{ImageDevice, device_over};
use crate::image_status::ImageStatus;
use image_explainer::{ImageFault, explain};
use object_cache::PlainStore;
use queries::{explained, explanation_line};
use std::alloc::Global;
use vezhnake::copy_out;

// Returns why an image is refused, or `None` if it isn't.
#[tactic(auto, using(crate::proofs::Devices::refused_by, crate::proofs::Texts::found_in))]
fn find_in(alloc: Global, image: &[u8]) -> Result<Option<ImageFault>, ImageStatus>
    ensures ok { IfOk result (IsFound image.now) }
    ensures err { IfErr result (RefusesBytes image.now) }
{
    let device = match device_over(alloc, image) {
        Ok(device) => device,
        Err(status) => return Err(status),
    };
    let (found, _device) = explain::<ImageDevice, PlainStore<ImageDevice>>(alloc, device, ());
    match found {
        Ok(found) => Ok(found),
        Err(fault) => Err(ImageStatus::of_opening(fault)),
    }
}

// Copies a line to the buffer, and sets `size` to its length. Returns `SmallBuffer` if it doesn't fit.
fn copy_line(line: &[u8], buffer: &mut [u8], size: &mut usize) -> ImageStatus
    ensures { Answered (λ fits. CopiesOut line.now buffer.old buffer.new size.new fits) (λ _. ⊥) result }
{
    if copy_out(line, buffer, size) {
        ImageStatus::Done
    } else {
        ImageStatus::SmallBuffer
    }
}

/// Copies the line that `eros explain` prints about an image to the buffer, without its newline, and sets `size` to
/// its length. The line is `ok`, or names the place that breaks a rule, what is wrong there, and the reason that
/// `check_bytes` returns.
///
/// Returns `SmallBuffer` if the line doesn't fit; `BadSize` as `check_bytes` does. After an error the buffer is
/// unchanged.
#[tactic(auto, using(crate::proofs::Statuses::unexplained, crate::proofs::Statuses::explained_by))]
pub fn explain_bytes(
    alloc: Global,
    image: &[u8],
    buffer: &mut [u8],
    size: &mut usize,
) -> ImageStatus
    ensures { ExplainsBytes image.now buffer.old buffer.new size.old size.new result }
{
    match find_in(alloc, image) {
        Ok(found) => copy_line(explanation_line(found).as_bytes(), buffer, size),
        Err(status) => status,
    }
}

/// Copies the line that `eros explain` prints about a description to the buffer, without its newline, and sets `size`
/// to its length. The line is `ok`, or names the place of the first mistake, what is wrong there, and the fault that
/// `build_bytes` returns.
///
/// Returns `NotToml` if the text isn't UTF-8; `SmallBuffer` if the line doesn't fit. After an error the buffer is
/// unchanged.
pub fn explain_text(alloc: Global, text: &[u8], buffer: &mut [u8], size: &mut usize) -> ImageStatus
    ensures { ExplainsText text.now buffer.old buffer.new size.old size.new result }
{
    let Ok(text) = str::from_utf8(text) else {
        return ImageStatus::NotToml;
    };
    match explained(alloc, text) {
        Ok((line, _is_accepted)) => copy_line(line.as_bytes(), buffer, size),
        Err(_) => ImageStatus::NoMemory,
    }
}
