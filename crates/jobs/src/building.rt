// The command that builds an image.
ghost use Rattle.toml.specs.Data.{Members};
ghost use Rattle.device.specs.Moments.{LeavesOnly};
ghost use Rattle.description.specs.Reading.{IsDescription};
ghost use Rattle.image_builder.specs.Built.{IsLeftOf};
ghost use Rattle.jobs.specs.Faults.{IsReported};
ghost use Rattle.jobs.specs.Images.{BuildsImage};

use crate::fault::{Fault, of_write, status};
use device::Device;
use image_builder::Blueprint;
use script::{LineText, Output};
use std::alloc::Global;

// Builds an image, and writes how many sectors it has.
fn build_and_tell<D: Device, W: Output>(
    alloc: Global,
    blueprint: &Blueprint,
    device: &mut D,
    writer: &mut W,
) -> Result<(), Fault>
    ensures built { (table : Members) → IsDescription table blueprint.now
        → BuildsImage D.disk table device.old device.new
        (W.written writer.old) (W.written writer.new) result }
    ensures any_moment { (table : Members) → IsDescription table blueprint.now
        → LeavesOnly (D.disk device.old) (D.disk device.new)
        (λ c. IsLeftOf table (D.disk device.old) c) }
{
    match blueprint.build(alloc, device) {
        Ok(()) => {}
        Err(fault) => return Err(Fault::Build(fault)),
    }
    let mut line = LineText::numbered(b"built", blueprint.sectors());
    line.word(b"sectors");
    of_write(line.write_to(writer))
}

/// Builds the image of a description on a device, and writes `built T sectors`.
///
/// Before it returns a fault it writes one line to `errors`: `bad description` with a number from 1 to 6; `cannot
/// write image` if the device is too small; `device failed`; `no memory`; or, if the writer fails, `cannot write
/// output`, and then the image is built.
///
/// A crash at any moment leaves the old image unchanged, an image that doesn't open, or the whole new image.
pub fn build_image<D: Device, W: Output, V: Output>(
    alloc: Global,
    blueprint: &Blueprint,
    device: &mut D,
    writer: &mut W,
    errors: &mut V,
) -> Result<(), Fault>
    ensures reported { IsReported result (V.written errors.old) (V.written errors.new) }
    ensures built { (table : Members) → IsDescription table blueprint.now
        → BuildsImage D.disk table device.old device.new
        (W.written writer.old) (W.written writer.new) result }
    ensures any_moment { (table : Members) → IsDescription table blueprint.now
        → LeavesOnly (D.disk device.old) (D.disk device.new)
        (λ c. IsLeftOf table (D.disk device.old) c) }
{
    let outcome = build_and_tell(alloc, blueprint, device, writer);
    let _status = status(outcome, errors);
    outcome
}
