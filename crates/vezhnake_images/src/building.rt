// Building images from the text of their descriptions.
ghost use Rattle.std.specs.Prelude.{◌≡◌, ◌*◌, ◌%◌, ◌≤◌, length, IfErr, IfOk, Some};
ghost use Rattle.toml.specs.Data.{Members};
ghost use Rattle.toml.specs.Parse.{parse_document};
ghost use Rattle.toml.specs.View.{table_view};
ghost use Rattle.description.specs.Reading.{IsDescription};
ghost use Rattle.description.specs.Rules.{IsWithinLimits, plan_for};
ghost use Rattle.device.specs.Calls.{AreSectors};
ghost use Rattle.image_builder.specs.Built.{Builds};
ghost use Rattle.vezhnake_images.specs.BuiltBytes.{BuildsBytes, IsBuiltOn, IsRead, RefusesText, RefusesTable};
ghost use Rattle.vezhnake_images.specs.ImageBytes.{image_disk};
ghost use Rattle.vezhnake_images.specs.ImageStatuses.{built_by};

use crate::image_device::{ImageDevice, blank_device};
use crate::image_status::ImageStatus;
use description::BuildFault;
use device::{Device, SECTOR_SIZE};
use image_builder::Blueprint;
use std::alloc::Global;
use toml::Table;

// Returns the TOML table in a text.
fn table_of(alloc: Global, text: &[u8]) -> Result<Table, ImageStatus>
    ensures ok { IfOk result (λ table. parse_document text.now ≡ Some (table_view table)) }
    ensures err { IfErr result (RefusesText text.now) }
{
    let Ok(text) = str::from_utf8(text) else {
        return Err(ImageStatus::NotToml);
    };
    match toml::table_from_str(alloc, text) {
        Ok(table) => Ok(table),
        Err(error) => {
            if error.is_memory() {
                Err(ImageStatus::NoMemory)
            } else {
                Err(ImageStatus::NotToml)
            }
        }
    }
}

// Returns the status for an image that was not built.
fn status_of(fault: BuildFault) -> ImageStatus
    ensures { result ≡ built_by fault }
{
    match fault {
        BuildFault::NoMemory => ImageStatus::NoMemory,
        BuildFault::Failed => ImageStatus::Failed,
        BuildFault::Shape
        | BuildFault::Limits
        | BuildFault::Number
        | BuildFault::Field
        | BuildFault::Target
        | BuildFault::Owner
        | BuildFault::Small => ImageStatus::BadDescription(fault),
    }
}

// Returns the blueprint of the description in a text.
#[tactic(auto, using(crate::proofs::Built::unread))]
fn blueprint_of(alloc: Global, text: &[u8]) -> Result<Blueprint, ImageStatus>
    ensures ok { IfOk result (IsRead text.now) }
    ensures err { IfErr result (RefusesText text.now) }
{
    let table = match table_of(alloc, text) {
        Ok(table) => table,
        Err(status) => return Err(status),
    };
    match Blueprint::read(alloc, &table) {
        Ok(blueprint) => Ok(blueprint),
        Err(fault) => Err(status_of(fault)),
    }
}

// Returns a device that holds exactly the image of a description.
#[tactic(auto, using(crate::proofs::Built::unbuilt))]
fn build_device(alloc: Global, blueprint: &Blueprint) -> Result<ImageDevice, ImageStatus>
    ensures ok { (table : Members) → IsDescription table blueprint.now
        → IfOk result (IsBuiltOn table ((plan_for blueprint.now).total)) }
    ensures err { (table : Members) → IsDescription table blueprint.now → IfErr result (RefusesTable table) }
{
    let Ok(mut device) = blank_device(alloc, blueprint.sectors()) else {
        return Err(ImageStatus::NoMemory);
    };
    match blueprint.build(alloc, &mut device) {
        Ok(()) => Ok(device),
        Err(fault) => Err(status_of(fault)),
    }
}

// Copies all sectors of a device into `bytes`.
fn read_all(device: &mut ImageDevice, bytes: &mut [u8])
    requires { length bytes.old ≡ 512 * (image_disk device.old).sectors }
    ensures bytes { AreSectors (image_disk device.old).seen 0 bytes.new }
    ensures length { length bytes.new ≡ length bytes.old }
{
    match device.read(0, bytes) {
        Ok(()) => {}
        Err(_) => unreachable!(),
    }
}

/// Builds the image of the description in a text, and copies it to the buffer. Sets `size` to its length.
///
/// Returns:
/// - `NotToml`: the text isn't UTF-8, or isn't TOML;
/// - `BadDescription`: with the first rule that the description breaks;
/// - `NoMemory`: memory ran out;
/// - `SmallBuffer`: the image doesn't fit.
///
/// After an error the buffer is unchanged.
#[tactic(auto, using(crate::proofs::Statuses::unbuilt_text))]
pub fn build_bytes(alloc: Global, text: &[u8], image: &mut [u8], size: &mut usize) -> ImageStatus
    ensures { BuildsBytes text.now image.old image.new size.old size.new result }
{
    let blueprint = match blueprint_of(alloc, text) {
        Ok(blueprint) => blueprint,
        Err(status) => return status,
    };
    let length = blueprint.sectors() as usize * SECTOR_SIZE;
    if image.len() < length {
        *size = length;
        return ImageStatus::SmallBuffer;
    }
    match build_device(alloc, &blueprint) {
        Ok(device) => {
            let mut device = device;
            read_all(&mut device, &mut image[..length]);
            *size = length;
            ImageStatus::Done
        }
        Err(status) => status,
    }
}
