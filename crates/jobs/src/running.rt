// The commands that run a script over an image.
ghost use Rattle.std.specs.Prelude.{◌≡◌, Result};
ghost use Rattle.jobs.specs.Faults.{IsEnd, IsReported};
ghost use Rattle.jobs.specs.Images.{EndsAs, RunsImage, SeesImage};
ghost use Rattle.runs.specs.Tracing.{Sees, stop_of};

use crate::done::Done;
use crate::fault::{Fault, of_run};
use checkpoint::{ObjectStore, OpenFault};
use device::Device;
use kernel::Kernel;
use runs::{Observer, Script, Silent, Tracer, run_observed};
use script::{Output, RunFault};
use std::alloc::Global;

// Opens a device, runs a script over it, and returns it.
fn open_and_run<D: Device, S: ObjectStore<D>, R: Script, W: Output, O: Observer>(
    alloc: Global,
    device: D,
    setting: S::Setting,
    reader: &mut R,
    writer: &mut W,
    observer: &mut O,
) -> (Result<Result<(), RunFault>, OpenFault>, D)
    ensures { SeesImage D.disk S.view S.parts O.sees device result.1 observer.old observer.new (R.unread reader.old)
        (R.unread reader.new) (W.written writer.old) (W.written writer.new) result.0 }
{
    let mut kernel = match Kernel::<D, S>::open(alloc, device, setting) {
        Ok(kernel) => kernel,
        Err(refused) => return (Err(refused.fault), refused.device),
    };
    let outcome = run_observed(&mut kernel, reader, writer, observer);
    (Ok(outcome), kernel.into_device())
}

/// Opens a device that holds an image, runs a script over it, and writes the answers. The status is 0, whatever the
/// answers are.
///
/// After a fault the status is 1, and one line is written to `errors`: `bad image` with a number from 1 to 10,
/// `device failed` or `no memory` if the device isn't opened (then nothing was read or written); `cannot read
/// script` or `cannot write output` if the reader or the writer fails.
///
/// Returns the device as the last answer left it; if it can't be opened, unchanged.
pub fn run_image<D: Device, S: ObjectStore<D>, R: Script, W: Output, V: Output>(
    alloc: Global,
    device: D,
    setting: S::Setting,
    reader: &mut R,
    writer: &mut W,
    errors: &mut V,
) -> Done<D>
    ensures { (outcome : Result (Unit {0}) Fault) × IsEnd outcome result.status result.fault
        × IsReported outcome (V.written errors.old) (V.written errors.new)
        × RunsImage D.disk S.view S.parts device result.device (R.unread reader.old)
        (R.unread reader.new) (W.written writer.old) (W.written writer.new) outcome }
{
    let mut observer = Silent;
    let (outcome, device) = open_and_run::<D, S, R, W, Silent>(
        alloc,
        device,
        setting,
        reader,
        writer,
        &mut observer,
    );
    Done::report(of_run(outcome, None), device, errors)
}

/// Runs a script as `run_image` does, and traces it. A strict run ends at the first line that is bad or refused, or
/// whose order has a result code other than 0. Then all answers up to that line's are written. `stopped at line`
/// with its number and the reason is written to `errors`, and the status is 1.
///
/// The text written to `writer` and the changes of the device are those of `run_image` for the lines taken.
pub fn run_traced<D: Device, S: ObjectStore<D>, R: Script, W: Output, T: Output, V: Output>(
    alloc: Global,
    device: D,
    setting: S::Setting,
    reader: &mut R,
    writer: &mut W,
    tracer: &mut Tracer<T>,
    errors: &mut V,
) -> Done<D>
    ensures { (outcome : Result (Unit {0}) Fault) × IsEnd outcome result.status result.fault
        × IsReported outcome (V.written errors.old) (V.written errors.new)
        × EndsAs D.disk S.view S.parts (Sees T.written) stop_of device result.device tracer.old tracer.new
        (R.unread reader.old) (R.unread reader.new) (W.written writer.old) (W.written writer.new) outcome }
{
    let (outcome, device) = open_and_run::<D, S, R, W, Tracer<T>>(
        alloc, device, setting, reader, writer, tracer,
    );
    Done::report(of_run(outcome, tracer.stop()), device, errors)
}
