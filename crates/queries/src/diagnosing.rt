// The command that says why an image is refused.
ghost use Rattle.std.specs.Prelude.{◌≡◌, ◌≤◌, Option, Result, length};
ghost use Rattle.image_explainer.specs.declared.fault.ImageFault.{ImageFault};
ghost use Rattle.queries.specs.Diagnosed.{ExplainsImage, explained_status, explanation_text, without_fault};
ghost use Rattle.jobs.specs.Faults.{IsReported, fault_in};

use device::Device;
use image_explainer::{ImageFault, explain};
use jobs::{Done, Fault, status};
use migrator::WholeStore;
use script::{LineText, Output};
use std::alloc::Global;

/// Returns the line about an image: `ok`, or the place that breaks a rule, and the reason that `check`
/// gives.
pub fn explanation_line(found: Option<ImageFault>) -> LineText
    ensures text { result ≡ explanation_text found }
    ensures short { length result ≤ 260 }
{
    match found {
        None => LineText::new(b"ok"),
        Some(fault) => fault.line(),
    }
}

// Opens a device, writes the line about its image, and returns the device.
fn explain_and_tell<D: Device, S: WholeStore<D>, W: Output>(
    alloc: Global,
    device: D,
    setting: S::Setting,
    writer: &mut W,
) -> (Result<Option<ImageFault>, Fault>, D)
    ensures { ExplainsImage D.disk device result.1 (W.written writer.old) (W.written writer.new) result.0 }
{
    let (explained, device) = explain::<D, S>(alloc, device, setting);
    match explained {
        Ok(found) => match explanation_line(found).write_to(writer) {
            Ok(()) => (Ok(found), device),
            Err(_) => (Err(Fault::CannotWriteOutput), device),
        },
        Err(fault) => (Err(Fault::Open(fault)), device),
    }
}

/// Opens a device as a run does.
///
/// If a run opens the image, writes `ok`, and the status is 0. If a run refuses it, writes one line, and the status
/// is 1. The line names the object, slot, field or sector that breaks a rule, says what is wrong there, and ends with
/// `(bad image K)`. K is the reason that `check` gives.
///
/// After a fault the status is 1, and one line is written to `errors`: `device failed`, `no memory`, or `cannot write
/// output` if the writer fails.
///
/// Returns the device, and writes nothing to it.
pub fn explain_image<D: Device, S: WholeStore<D>, W: Output, V: Output>(
    alloc: Global,
    device: D,
    setting: S::Setting,
    writer: &mut W,
    errors: &mut V,
) -> Done<D>
    ensures { (outcome : Result (Option ImageFault) Fault) × (result.status ≡ explained_status outcome)
        × (result.fault ≡ fault_in (without_fault outcome))
        × IsReported (without_fault outcome) (V.written errors.old) (V.written errors.new)
        × ExplainsImage D.disk device result.device (W.written writer.old) (W.written writer.new) outcome }
{
    let (outcome, device) = explain_and_tell::<D, S, W>(alloc, device, setting, writer);
    let status = match outcome {
        Ok(None) => 0,
        Ok(Some(_)) => 1,
        Err(fault) => status(Err(fault), errors),
    };
    let fault = outcome.err();
    Done {
        status,
        fault,
        device,
    }
}
