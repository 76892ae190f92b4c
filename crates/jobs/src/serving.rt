// The command that runs a shell.
ghost use Rattle.std.specs.Prelude.{◌≡◌, None, Result};
ghost use Rattle.layout.specs.declared.open_fault.OpenFault.{OpenFault};
ghost use Rattle.jobs.specs.Faults.{HasStop, IsEnd, IsReported, IsRunEnd};
ghost use Rattle.jobs.specs.Shell.{ServesImage, TellsUnsaved};
ghost use Rattle.script.specs.Writing.{Written};
ghost use Rattle.script.specs.declared.fault.RunFault.{RunFault};
ghost use Rattle.shell.specs.Lines.{ahead_of};

use crate::done::Done;
use crate::fault::{Fault, of_run};
use checkpoint::{ObjectStore, OpenFault};
use device::Device;
use kernel::Kernel;
use runs::{RawReader, Unsaved};
use script::{Output, RunFault};
use shell::{Inspector, Shell, TypedLines};
use std::alloc::Global;

// Opens a device, serves a shell's lines over it, and returns it.
fn open_and_serve<
    D: Device,
    S: ObjectStore<D>,
    Q: Inspector<D, W>,
    R: RawReader,
    N: Output,
    W: Output,
>(
    alloc: Global,
    device: D,
    setting: S::Setting,
    lines: &mut TypedLines<R>,
    shell: &mut Shell<N>,
    inspector: &Q,
    writer: &mut W,
) -> (Result<Result<(), RunFault>, OpenFault>, D)
    ensures serves { ServesImage D.disk S.view S.parts (Q.inspects inspector.now) N.written device result.1 shell.old shell.new (ahead_of R.rest lines.old)
        (ahead_of R.rest lines.new) (W.written writer.old) (W.written writer.new) result.0 }
    ensures stop { HasStop result.0 None }
{
    let mut kernel = match Kernel::<D, S>::open(alloc, device, setting) {
        Ok(kernel) => kernel,
        Err(refused) => return (Err(refused.fault), refused.device),
    };
    let outcome = shell.serve_all(lines, &mut kernel, inspector, writer);
    (Ok(outcome), kernel.into_device())
}

// If there are uncommitted invocations or stores, writes a line that says so. Ignores failures to
// write.
fn tell_unsaved<V: Output>(unsaved: Unsaved, errors: &mut V)
    ensures { TellsUnsaved unsaved (V.written errors.old) (V.written errors.new) }
{
    if unsaved.is_some() {
        let _reported = errors.write_fully(b"eros: some invocations or stores are not committed\n");
    }
}

/// Opens a device that holds an image, and serves a shell's lines over it. The inspector answers questions about what
/// is saved. The status is 0, whatever the answers are.
///
/// After a fault the status is 1, and one line is written to `errors`: `bad image` with a number from 1 to 10,
/// `device failed` or `no memory` if the device isn't opened (then nothing was read or written); `cannot read
/// script` or `cannot write output` if the reader or the writer fails. If there are uncommitted invocations or
/// stores at the end, one line says so.
///
/// Returns the device as the last line left it; if it can't be opened, unchanged.
pub fn run_shell<
    D: Device,
    S: ObjectStore<D>,
    Q: Inspector<D, W>,
    R: RawReader,
    N: Output,
    W: Output,
    V: Output,
>(
    alloc: Global,
    device: D,
    setting: S::Setting,
    lines: &mut TypedLines<R>,
    shell: &mut Shell<N>,
    inspector: &Q,
    writer: &mut W,
    errors: &mut V,
) -> Done<D>
    ensures { (outcome : Result (Result (Unit {0}) RunFault) OpenFault) × (end : Result (Unit {0}) Fault) × (reported : Written)
        × ServesImage D.disk S.view S.parts (Q.inspects inspector.now) N.written device result.device shell.old shell.new (ahead_of R.rest lines.old)
        (ahead_of R.rest lines.new) (W.written writer.old) (W.written writer.new) outcome
        × IsRunEnd outcome None end × IsEnd end result.status result.fault
        × TellsUnsaved shell.new.unsaved (V.written errors.old) reported × IsReported end reported (V.written errors.new) }
{
    let (outcome, device) = open_and_serve::<D, S, Q, R, N, W>(
        alloc, device, setting, lines, shell, inspector, writer,
    );
    tell_unsaved(shell.unsaved(), errors);
    Done::report(of_run(outcome, None), device, errors)
}
