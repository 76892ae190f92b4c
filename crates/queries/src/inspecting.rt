// The command that prints the sizes of an image, and counts of its objects.
ghost use Rattle.std.specs.Prelude.{◌≡◌, Result};
ghost use Rattle.jobs.specs.Faults.{IsEnd, IsReported};
ghost use Rattle.queries.specs.Info.{InspectsImage};

use crate::info::{InfoLine, print_lines};
use crate::saved::read_saved;
use device::Device;
use jobs::{Done, Fault, of_write};
use json_lines::Format;
use migrator::WholeStore;
use script::Output;
use std::alloc::Global;

/// Opens a device as a run does, and writes lines about its image, in a format: the layout version; the numbers of
/// nodes, pages and log slots; its home ranges and sectors; the generation, age and entries of its checkpoint; and
/// how many saved objects of each kind there are. The status is 0.
///
/// After a fault the status is 1, and one line is written to `errors`: `bad image` with a number from 1 to 10,
/// `device failed` or `no memory`; `cannot write output` if the writer fails.
///
/// Returns the device, and writes nothing to it.
pub fn info_image<D: Device, S: WholeStore<D>, W: Output, V: Output>(
    alloc: Global,
    device: D,
    setting: S::Setting,
    format: Format,
    writer: &mut W,
    errors: &mut V,
) -> Done<D>
    ensures { (outcome : Result (Unit {0}) Fault) × IsEnd outcome result.status result.fault
        × IsReported outcome (V.written errors.old) (V.written errors.new)
        × InspectsImage format D.disk device result.device (W.written writer.old) (W.written writer.new) outcome }
{
    match read_saved::<Vec<InfoLine>, D, S>(alloc, device, setting) {
        Ok((lines, device)) => {
            let outcome = of_write(print_lines(format, &lines, writer));
            Done::report(outcome, device, errors)
        }
        Err(refused) => Done::unopened(refused, errors),
    }
}
