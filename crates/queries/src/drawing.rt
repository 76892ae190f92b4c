// The command that draws an image.
ghost use Rattle.std.specs.Prelude.{◌≡◌, ◌<◌, ◌^◌, Result};
ghost use Rattle.model.specs.Sound.{object_count};
ghost use Rattle.description.specs.Described.{HasNumbers};
ghost use Rattle.reach.specs.Reached.{AreSoundObjects};
ghost use Rattle.queries.specs.Drawing.{DrawsImage, DrawsPart, KeepsHolders, KeepsPart, KeepsReached};
ghost use Rattle.jobs.specs.Faults.{IsEnd, IsReported};

use crate::saved::read_saved;
use collections::NumberSet;
use description::Description;
use device::Device;
use image_drawer::{draw, has_box, holders, restrict};
use jobs::{Done, Fault, of_write};
use migrator::WholeStore;
use model::Object;
use reach::{Purpose, missing_process, reach};
use script::Output;
use std::alloc::Global;

/// Which part of the saved state to draw: all of it if `from` and `to` are `None`, what is in both parts if both are
/// set.
#[derive(Clone, Copy)]
pub struct Focus {
    /// If set, draw only the least closed set that contains this process.
    pub from: Option<u64>,
    /// Whether that set is what the process can change, or what it can read.
    pub purpose: Purpose,
    /// If set, draw only this object, and the processes and nodes that hold a capability to it.
    pub to: Option<u64>,
}

// Restricts a description to an object and its holders, if `to` is set.
fn keep_holders(alloc: Global, to: Option<u64>, description: &mut Description) -> Result<(), Fault>
    requires few { object_count description.old.geometry < 2 ^ 64 }
    requires numbers { HasNumbers description.old }
    ensures { KeepsHolders to description.old description.new result }
{
    let Some(object) = to else {
        return Ok(());
    };
    if !has_box(description, object) {
        return Err(Fault::NoObject(object));
    }
    match holders(alloc, description, object) {
        Ok(inside) => {
            restrict(description, &inside);
            Ok(())
        }
        Err(_) => Err(Fault::NoMemory),
    }
}

// Restricts a description to what a process reaches, if `from` is set.
fn keep_reached(
    alloc: Global,
    objects: &[Object],
    from: Option<u64>,
    purpose: Purpose,
    description: &mut Description,
) -> Result<(), Fault>
    requires { AreSoundObjects objects.now }
    ensures { KeepsReached objects.now from purpose description.old description.new result }
{
    let Some(process) = from else {
        return Ok(());
    };
    if missing_process(objects, &[process]).is_some() {
        return Err(Fault::NoProcess(process));
    }
    match reach(alloc, objects, purpose, &[process], &[]) {
        Ok(inside) => {
            restrict(description, &inside);
            Ok(())
        }
        Err(_) => Err(Fault::NoMemory),
    }
}

// Restricts a description to the part that the focus selects.
fn keep_part(
    alloc: Global,
    objects: &[Object],
    focus: Focus,
    description: &mut Description,
) -> Result<(), Fault>
    requires few { object_count description.old.geometry < 2 ^ 64 }
    requires numbers { HasNumbers description.old }
    requires sound { AreSoundObjects objects.now }
    ensures { KeepsPart objects.now focus description.old description.new result }
{
    match keep_holders(alloc, focus.to, description) {
        Ok(()) => keep_reached(alloc, objects, focus.from, focus.purpose, description),
        Err(fault) => Err(fault),
    }
}

// Draws a part of the saved state, and drops it.
fn draw_part<W: Output>(
    alloc: Global,
    whole: (Description, Vec<Object>),
    focus: Focus,
    writer: &mut W,
) -> Result<(), Fault>
    requires few { object_count whole.0.geometry < 2 ^ 64 }
    requires numbers { HasNumbers whole.0 }
    requires sound { AreSoundObjects whole.1.items }
    ensures { DrawsPart whole.1.items focus whole.0 (W.written writer.old) (W.written writer.new) result }
{
    let (description, objects) = whole;
    let mut description = description;
    match keep_part(alloc, &objects, focus, &mut description) {
        Ok(()) => of_write(draw(&objects, &description, writer)),
        Err(fault) => Err(fault),
    }
}

/// Opens a device as a run does, and writes a graph of its saved state, in DOT: each object, its owner, and each
/// capability that names an object. A focus leaves out all other objects, and all capabilities that name them. The
/// status is 0.
///
/// After a fault the status is 1, and one line is written to `errors`:
/// - `bad image` with a number from 1 to 10, `device failed` or `no memory`;
/// - `no object` or `no process` with the number in the focus, if there is no such object or process;
/// - `cannot write output` if the writer fails.
///
/// Returns the device, and writes nothing to it.
pub fn draw_image<D: Device, S: WholeStore<D>, W: Output, V: Output>(
    alloc: Global,
    device: D,
    setting: S::Setting,
    focus: Focus,
    writer: &mut W,
    errors: &mut V,
) -> Done<D>
    ensures { (outcome : Result (Unit {0}) Fault) × IsEnd outcome result.status result.fault
        × IsReported outcome (V.written errors.old) (V.written errors.new)
        × DrawsImage D.disk focus device result.device (W.written writer.old) (W.written writer.new) outcome }
{
    match read_saved::<(Description, Vec<Object>), D, S>(alloc, device, setting) {
        Ok((whole, device)) => {
            let outcome = draw_part(alloc, whole, focus, writer);
            Done::report(outcome, device, errors)
        }
        Err(refused) => Done::unopened(refused, errors),
    }
}
