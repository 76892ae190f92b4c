// The commands that write the saved state of an image to a new image.
ghost use Rattle.std.specs.Prelude.{◌≡◌, ◌≤◌, length, IfErr, IsErrOf, OnErr, OnOk};
ghost use Rattle.model.specs.Text.{line_of};
ghost use Rattle.device.specs.Moments.{LeavesOnly};
ghost use Rattle.image_builder.specs.Upgraded.{IsLeftUpgrading, IsOpenedFrom, ReadsAndCloses};
ghost use Rattle.script.specs.Writing.{Wrote, WroteFront};
ghost use Rattle.jobs.specs.Faults.{IsReported};
ghost use Rattle.jobs.specs.Images.{UpgradesImage, old_failed, upgraded_text};

use crate::fault::{Fault, of_write, status};
use device::Device;
use image_builder::{ClosableDevice, NewLayout, OldImage};
use migrator::WholeStore;
use script::{LineText, Output};
use std::alloc::Global;

// Returns the line that says how many sectors the new image has.
fn total_line(layout: NewLayout, total: u64) -> LineText
    ensures text { result ≡ upgraded_text layout total }
    ensures short { length result ≤ 60 }
{
    let mut line = match layout {
        NewLayout::Newest => LineText::numbered(b"upgraded", total),
        NewLayout::Kept => LineText::numbered(b"copied", total),
    };
    line.word(b"sectors");
    line
}

// Writes the line that says how many sectors the new image has.
fn tell_total<W: Output>(layout: NewLayout, total: u64, writer: &mut W) -> Result<(), Fault>
    ensures reported { OnOk result (Wrote (W.written writer.old) (W.written writer.new)
        (line_of (upgraded_text layout total))) }
    ensures front { OnErr result (WroteFront (W.written writer.old) (W.written writer.new)
        (line_of (upgraded_text layout total))) }
    ensures fault { IfErr result (λ fault. fault ≡ Fault.CannotWriteOutput) }
{
    of_write(total_line(layout, total).write_to(writer))
}

// Writes the saved state of an old image to a new device in a new layout, and then how many sectors the new image
// has.
fn write_and_tell<D: ClosableDevice, S: WholeStore<D>, E: Device, W: Output>(
    alloc: Global,
    image: OldImage<D, S>,
    layout: NewLayout,
    new: &mut E,
    writer: &mut W,
) -> Result<(), Fault>
    ensures upgraded { (old : D) → IsOpenedFrom D.disk old image
        → UpgradesImage layout D.disk E.disk old new.old new.new
        (W.written writer.old) (W.written writer.new) result }
    ensures any_moment { (old : D) → IsOpenedFrom D.disk old image
        → LeavesOnly (E.disk new.old) (E.disk new.new)
        (λ c. IsLeftUpgrading (D.disk old) (E.disk new.old) c) }
    ensures reads { (old : D) → IsOpenedFrom D.disk old image
        → ReadsAndCloses D.disk D.was_closed old (IsErrOf result old_failed) }
{
    match image.write_to(alloc, layout, new) {
        Ok(total) => tell_total(layout, total, writer),
        Err(fault) => Err(Fault::Upgrade(fault)),
    }
}

/// Writes the saved state of an opened image to a new device in a new layout, over any content, and closes the old
/// device. Then writes `upgraded T sectors`, or `copied T sectors` if the layout version stays. T is the size of
/// the new image.
///
/// Before it returns a fault it writes one line to `errors`:
/// - `cannot write image`: the new device is too small;
/// - `device failed` or `no memory`;
/// - `cannot write output`: the writer failed; the new image is written.
///
/// A crash of the new device at any moment leaves its old image unchanged, an image that doesn't open, or the
/// whole new image. The old device is only read.
pub fn upgrade_opened<D: ClosableDevice, S: WholeStore<D>, E: Device, W: Output, V: Output>(
    alloc: Global,
    image: OldImage<D, S>,
    layout: NewLayout,
    new: &mut E,
    writer: &mut W,
    errors: &mut V,
) -> Result<(), Fault>
    ensures reported { IsReported result (V.written errors.old) (V.written errors.new) }
    ensures upgraded { (old : D) → IsOpenedFrom D.disk old image
        → UpgradesImage layout D.disk E.disk old new.old new.new
        (W.written writer.old) (W.written writer.new) result }
    ensures reads { (old : D) → IsOpenedFrom D.disk old image
        → ReadsAndCloses D.disk D.was_closed old (IsErrOf result old_failed) }
    ensures any_moment { (old : D) → IsOpenedFrom D.disk old image
        → LeavesOnly (E.disk new.old) (E.disk new.new)
        (λ c. IsLeftUpgrading (D.disk old) (E.disk new.old) c) }
{
    let outcome = write_and_tell(alloc, image, layout, new, writer);
    let _status = status(outcome, errors);
    outcome
}
