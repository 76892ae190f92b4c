// The command that runs a script and then saves.
ghost use Rattle.std.specs.Prelude.{◌≡◌, Result};
ghost use Rattle.jobs.specs.Faults.{IsEnd, IsReported};
ghost use Rattle.jobs.specs.Saving.{EndsSaved, SavesAndTells, SavesImage, first_fault, saved_end, saved_text};
ghost use Rattle.runs.specs.Tracing.{Sees, stop_of};

use crate::done::Done;
use crate::fault::{Fault, of_run, of_write};
use checkpoint::{ObjectStore, OpenFault};
use device::Device;
use kernel::Kernel;
use model::Refusal;
use runs::{Script, Tracer, run_observed, save};
use script::{Output, RunFault, print_answer, refusal_line};
use std::alloc::Global;

// Returns the fault of a command if saving was refused. `wrote` says whether the refusal was written.
fn of_refusal(refusal: Refusal, wrote: Result<(), RunFault>) -> Result<(), Fault>
    ensures { result ≡ saved_end (Err refusal) wrote }
{
    match wrote {
        Ok(()) => Err(Fault::NotSaved(refusal)),
        Err(_) => Err(Fault::CannotWriteOutput),
    }
}

// Saves the present state, and writes the answer.
fn save_and_tell<D: Device, S: ObjectStore<D>, W: Output>(
    kernel: &mut Kernel<D, S>,
    writer: &mut W,
) -> Result<(), Fault>
    ensures { SavesAndTells D.disk S.view S.parts kernel.old kernel.new (W.written writer.old) (W.written writer.new) result }
{
    match save(kernel) {
        Ok(answer) => of_write(print_answer(&answer, writer)),
        Err(refusal) => of_refusal(refusal, refusal_line(refusal).write_to(writer)),
    }
}

// Opens a device, runs a script over it, and returns it. If the script was read to its end, saves the
// present state.
fn open_run_and_save<D: Device, S: ObjectStore<D>, R: Script, W: Output, T: Output>(
    alloc: Global,
    device: D,
    setting: S::Setting,
    reader: &mut R,
    writer: &mut W,
    tracer: &mut Tracer<T>,
) -> (
    Result<Result<(), RunFault>, OpenFault>,
    Result<(), Fault>,
    D,
)
    ensures { SavesImage D.disk S.view S.parts (Sees T.written) device result.2 tracer.old tracer.new (R.unread reader.old)
        (R.unread reader.new) (W.written writer.old) (W.written writer.new) result.0 result.1 }
{
    let mut kernel = match Kernel::<D, S>::open(alloc, device, setting) {
        Ok(kernel) => kernel,
        Err(refused) => return (Err(refused.fault), Ok(()), refused.device),
    };
    match run_observed(&mut kernel, reader, writer, tracer) {
        Ok(()) => {
            let saved = save_and_tell(&mut kernel, writer);
            (Ok(Ok(())), saved, kernel.into_device())
        }
        Err(fault) => (Ok(Err(fault)), Ok(()), kernel.into_device()),
    }
}

// Returns the fault of the run if it has one, else the outcome of saving.
fn end_of(ran: Result<(), Fault>, saved: Result<(), Fault>) -> Result<(), Fault>
    ensures { result ≡ first_fault ran saved }
{
    match ran {
        Ok(()) => saved,
        Err(fault) => Err(fault),
    }
}

/// Runs a script as `run_traced` does. If the script was read to its end, saves the present state: a checkpoint, its
/// commit and its migration. The last line written is the answer to the commit. If a stage is refused, the last line
/// is the refusal, `not saved` with it is written to `errors`, and the status is 1.
///
/// If the run ends before the script does, only what the script committed is saved.
pub fn run_and_save<D: Device, S: ObjectStore<D>, R: Script, W: Output, T: Output, V: Output>(
    alloc: Global,
    device: D,
    setting: S::Setting,
    reader: &mut R,
    writer: &mut W,
    tracer: &mut Tracer<T>,
    errors: &mut V,
) -> Done<D>
    ensures { (outcome : Result (Unit {0}) Fault) × IsEnd outcome result.status result.fault
        × IsReported outcome (V.written errors.old) (V.written errors.new)
        × EndsSaved D.disk S.view S.parts (Sees T.written) stop_of device result.device tracer.old tracer.new
        (R.unread reader.old) (R.unread reader.new) (W.written writer.old) (W.written writer.new) outcome }
{
    let (outcome, saved, device) = open_run_and_save::<D, S, R, W, T>(
        alloc, device, setting, reader, writer, tracer,
    );
    let ran = of_run(outcome, tracer.stop());
    Done::report(end_of(ran, saved), device, errors)
}
