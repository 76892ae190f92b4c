// Closes the gates of both headers, before a new image overwrites the old one.
ghost use Rattle.std.specs.Prelude.{◌≡◌, ◌≤◌, IfOk, OnOk};
ghost use Rattle.device.specs.Calls.{Counts, Only};
ghost use Rattle.device.specs.Moments.{LeavesOnly};
ghost use Rattle.layout.specs.Calls.{ReadsOnly};
ghost use Rattle.ckpt_log.specs.Closing.{AreClosed, IsLesser, KeepsOrHasNone, WasKeptOrHasNone};

use crate::header_slot::HeaderSlot;
use crate::publish::close_gate;
use crate::sector::read_sector;
use device::{Device, Failed, SECTOR_SIZE};
use layout::sequence_in;

// Returns the slot of the header with the lesser sequence number, whose gate `close_gates` closes first.
fn lesser_slot<D: Device>(device: &mut D) -> Result<HeaderSlot, Failed>
    requires inside { 5 ≤ (D.disk device.old).sectors }
    ensures lesser { IfOk result (λ slot. IsLesser (D.disk device.old).seen slot) }
    ensures reads { ReadsOnly (D.disk device.old) (D.disk device.new) }
    ensures cause { Counts (D.disk device.old) (D.disk device.new) result }
{
    let mut first = [0; SECTOR_SIZE];
    let mut second = [0; SECTOR_SIZE];
    read_sector(device, HeaderSlot::First.header(), &mut first)?;
    read_sector(device, HeaderSlot::Second.header(), &mut second)?;
    if sequence_in(&first) < sequence_in(&second) {
        return Ok(HeaderSlot::First);
    }
    Ok(HeaderSlot::Second)
}

// Closes the gate of a slot, then that of the other slot. All earlier writes must be durable already.
#[tactic(auto, using(crate::proofs::Sectors::seen_has))]
fn close_in_turn<D: Device>(device: &mut D, slot: HeaderSlot) -> Result<(), Failed>
    requires inside { 5 ≤ (D.disk device.old).sectors }
    requires lesser { IsLesser (D.disk device.old).seen slot }
    requires durable { Only (D.disk device.old).seen (D.disk device.old) }

    ensures closed { OnOk result (AreClosed (D.disk device.new).seen) }
    ensures durable { OnOk result (Only (D.disk device.new).seen (D.disk device.new)) }
    ensures size { (D.disk device.new).sectors ≡ (D.disk device.old).sectors }
    ensures seen { KeepsOrHasNone (D.disk device.old).seen (D.disk device.new).seen }
    ensures any_moment { LeavesOnly (D.disk device.old) (D.disk device.new)
        (λ c. KeepsOrHasNone (D.disk device.old).seen c) }
    ensures cause { Counts (D.disk device.old) (D.disk device.new) result }
{
    close_gate(device, slot.gate())?;
    close_gate(device, slot.other().gate())
}

/// Closes the gates of both headers, so that no header is committed. Then this and all earlier writes
/// are durable.
///
/// A crash at any moment leaves an image that differs only in the gates from one that it could have left
/// before; the same header is committed, or none. To ensure this, the gate of the committed header is closed
/// last, and a closed gate isn't written.
///
/// It allocates nothing. Returns `Failed` exactly if the device failed.
pub(crate) fn close_gates<D: Device>(device: &mut D) -> Result<(), Failed>
    requires inside { 5 ≤ (D.disk device.old).sectors }

    ensures closed { OnOk result (AreClosed (D.disk device.new).seen) }
    ensures durable { OnOk result (Only (D.disk device.new).seen (D.disk device.new)) }
    ensures size { (D.disk device.new).sectors ≡ (D.disk device.old).sectors }
    ensures seen { KeepsOrHasNone (D.disk device.old).seen (D.disk device.new).seen }
    ensures any_moment { LeavesOnly (D.disk device.old) (D.disk device.new)
        (λ c. WasKeptOrHasNone (D.disk device.old) c) }
    ensures cause { Counts (D.disk device.old) (D.disk device.new) result }
{
    device.sync()?;
    let slot = lesser_slot(device)?;
    close_in_turn(device, slot)
}
