// The command that describes an image.
ghost use Rattle.std.specs.Prelude.{◌≡◌, Result};
ghost use Rattle.home_ranges.specs.Laid.{MayBeLaid};
ghost use Rattle.description.specs.Described.{HasFields};
ghost use Rattle.image_describer.specs.Spelled.{CanBeSpelled};
ghost use Rattle.jobs.specs.Faults.{IsEnd, IsReported};
ghost use Rattle.queries.specs.Growing.{GrowsDescription, TellsDescription, TellsGrown};
ghost use Rattle.queries.specs.Images.{DescribesImage};

use crate::saved::read_saved;
use description::{Description, GrowthFault, Sizes};
use device::Device;
use image_describer::{grow, text_of};
use jobs::{Done, Fault, of_write};
use migrator::WholeStore;
use script::Output;
use std::alloc::Global;

// Writes the text of a description.
fn tell_description<W: Output>(
    alloc: Global,
    description: &Description,
    writer: &mut W,
) -> Result<(), Fault>
    requires fields { HasFields description.now }
    requires spelled { CanBeSpelled description.now }
    ensures { TellsDescription description.now (W.written writer.old) (W.written writer.new) result }
{
    match text_of(alloc, description) {
        Ok(text) => of_write(writer.write_fully(text.as_bytes())),
        Err(_) => Err(Fault::NoMemory),
    }
}

// Renumbers a description for an image of other sizes.
fn grow_description(alloc: Global, description: &mut Description, sizes: Sizes) -> Result<(), Fault>
    requires { MayBeLaid description.old.geometry description.old.ranges.items }
    ensures { GrowsDescription sizes description.old description.new result }
{
    match grow(alloc, description, sizes.over(description.geometry)) {
        Ok(()) => Ok(()),
        Err(GrowthFault::NoMemory) => Err(Fault::NoMemory),
        Err(fault) => Err(Fault::Sizes(fault)),
    }
}

/// Writes the text of a description, renumbered for an image of other sizes, and drops the description.
pub(crate) fn tell_grown<W: Output>(
    alloc: Global,
    description: Description,
    sizes: Sizes,
    writer: &mut W,
) -> Result<(), Fault>
    requires laid { MayBeLaid description.geometry description.ranges.items }
    requires fields { HasFields description }
    requires spelled { CanBeSpelled description }
    ensures { TellsGrown description sizes (W.written writer.old) (W.written writer.new) result }
{
    let mut description = description;
    match grow_description(alloc, &mut description, sizes) {
        Ok(()) => tell_description(alloc, &description, writer),
        Err(fault) => Err(fault),
    }
}

/// Opens a device as a run does, and writes a description of its saved state, renumbered for an image of these sizes.
/// An image built from this text holds the same objects at their new numbers. If no sizes are given, all numbers
/// stay. The status is 0.
///
/// After a fault the status is 1, and one line is written to `errors`:
/// - `bad image` with a number from 1 to 10, `device failed` or `no memory`;
/// - `no image has these sizes`, or `too few nodes` or `too few pages` for the saved objects;
/// - `cannot write output` if the writer fails.
///
/// Returns the device, and writes nothing to it.
pub fn describe_image<D: Device, S: WholeStore<D>, W: Output, V: Output>(
    alloc: Global,
    device: D,
    setting: S::Setting,
    sizes: Sizes,
    writer: &mut W,
    errors: &mut V,
) -> Done<D>
    ensures { (outcome : Result (Unit {0}) Fault) × IsEnd outcome result.status result.fault
        × IsReported outcome (V.written errors.old) (V.written errors.new)
        × DescribesImage D.disk sizes device result.device (W.written writer.old) (W.written writer.new) outcome }
{
    match read_saved::<Description, D, S>(alloc, device, setting) {
        Ok((description, device)) => {
            let outcome = tell_grown(alloc, description, sizes, writer);
            Done::report(outcome, device, errors)
        }
        Err(refused) => Done::unopened(refused, errors),
    }
}
