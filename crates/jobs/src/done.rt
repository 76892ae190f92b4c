// The result of a command.
ghost use Rattle.std.specs.Prelude.{◌≡◌, Err};
ghost use Rattle.jobs.specs.Faults.{IsReported, fault_in, status_of};

use crate::fault::{Fault, status};
use checkpoint::OpenRefused;
use script::Output;

/// The status of a command that opened a device, and the device.
#[derive(Drop)]
pub struct Done<D> {
    /// 0 for success, and 1 for a fault.
    pub status: u8,
    /// The fault, if there was one. Its message is written already.
    pub fault: Option<Fault>,
    /// The device, as the command left it.
    pub device: D,
}

impl<D> Done<D> {
    /// Returns the result of a command with this outcome. Before that, writes the message of a fault.
    pub fn report<V: Output>(outcome: Result<(), Fault>, device: D, errors: &mut V) -> Done<D>
        ensures status { result.status ≡ status_of outcome }
        ensures fault { result.fault ≡ fault_in outcome }
        ensures reported { IsReported outcome (V.written errors.old) (V.written errors.new) }
        ensures device { result.device ≡ device }
    {
        Done {
            status: status(outcome, errors),
            fault: outcome.err(),
            device,
        }
    }

    /// Returns the result of a command whose device can't be opened. Before that, writes the
    /// message.
    pub fn unopened<V: Output>(refused: OpenRefused<D>, errors: &mut V) -> Done<D>
        ensures status { result.status ≡ status_of (Err (Fault.Open refused.fault)) }
        ensures fault { result.fault ≡ fault_in (Err (Fault.Open refused.fault)) }
        ensures reported { IsReported (Err (Fault.Open refused.fault)) (V.written errors.old) (V.written errors.new) }
        ensures device { result.device ≡ refused.device }
    {
        Done::report(Err(Fault::Open(refused.fault)), refused.device, errors)
    }
}
