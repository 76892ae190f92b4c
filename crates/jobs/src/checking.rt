// The command that checks an image.
ghost use Rattle.std.specs.Prelude.{◌≡◌, ◌≤◌, Result, length};
ghost use Rattle.json_lines.specs.declared.format.Format.TheVariants.{Text};
ghost use Rattle.jobs.specs.Faults.{IsEnd, IsReported};
ghost use Rattle.jobs.specs.Images.{ChecksImage, checked_text};

use crate::done::Done;
use crate::fault::{Fault, of_write};
use checkpoint::{Checkpoint, ObjectStore};
use device::Device;
use json_lines::{Format, Key, Member, number_object};
use recovery::recover;
use script::{LineText, Output};
use std::alloc::Global;

// Returns the line for an image that can be opened.
fn checked_line(saved: Checkpoint) -> LineText
    ensures text { result ≡ checked_text Text saved.generation saved.age saved.entries }
    ensures short { length result ≤ 120 }
{
    let mut line = LineText::numbered(b"ok generation", saved.generation);
    line.named(b"age", saved.age);
    line.named(b"entries", saved.entries);
    line
}

// Returns the line for an image that can be opened, in a format.
fn line_of_saved(format: Format, saved: Checkpoint) -> LineText
    ensures text { result ≡ checked_text format saved.generation saved.age saved.entries }
    ensures short { length result ≤ 300 }
{
    match format {
        Format::Text => checked_line(saved),
        Format::Json => {
            let members = [
                Member::Number(Key::Age, saved.age),
                Member::Number(Key::Entries, saved.entries),
            ];
            number_object(b"generation", saved.generation, &members)
        }
    }
}

/// Opens a device as a run does, and writes `ok generation G age A entries E` of its checkpoint, or these values as a
/// JSON object. The status is 0.
///
/// After a fault the status is 1, and one line is written to `errors`: `bad image` with a number from 1 to 10,
/// `device failed` or `no memory` if the device isn't opened, `cannot write output` if the writer fails.
///
/// Returns the device, and writes nothing to it.
pub fn check_image<D: Device, S: ObjectStore<D>, W: Output, V: Output>(
    alloc: Global,
    device: D,
    setting: S::Setting,
    format: Format,
    writer: &mut W,
    errors: &mut V,
) -> Done<D>
    ensures { (outcome : Result (Unit {0}) Fault) × IsEnd outcome result.status result.fault
        × IsReported outcome (V.written errors.old) (V.written errors.new)
        × ChecksImage format D.disk device result.device (W.written writer.old) (W.written writer.new) outcome }
{
    let live = match recover::<D, S>(alloc, device, setting) {
        Ok(live) => live,
        Err(refused) => return Done::unopened(refused, errors),
    };
    let store = live.store;
    let line = line_of_saved(format, store.saved());
    let device = store.into_device();
    let outcome = of_write(line.write_to(writer));
    Done::report(outcome, device, errors)
}
