// The end of a command's output.
ghost use Rattle.std.specs.Prelude.{Result, []};
ghost use Rattle.script.specs.Writing.{Writes};
ghost use Rattle.script.specs.declared.fault.RunFault.{RunFault};
ghost use Rattle.jobs.specs.Faults.{IsReported, PassesOn};

use crate::fault::{Fault, status};
use script::Output;

/// Passes on the buffered output of a command with status `before`, and returns its final status.
///
/// If passing on fails after status 0, writes `cannot write output` to `errors` and returns 1.
/// Otherwise returns `before`.
pub fn finish<W: Output, V: Output>(writer: &mut W, before: u8, errors: &mut V) -> u8
    ensures { (passed : Result (Unit {0}) RunFault) × (outcome : Result (Unit {0}) Fault)
        × Writes (W.written writer.old) (W.written writer.new) passed []
        × PassesOn passed before result (W.waiting writer.new) outcome
        × IsReported outcome (V.written errors.old) (V.written errors.new) }
{
    match writer.pass_on() {
        Ok(()) => before,
        Err(_) => {
            if before == 0 {
                status(Err(Fault::CannotWriteOutput), errors)
            } else {
                before
            }
        }
    }
}
