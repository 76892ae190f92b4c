// The committed header of versions 1 and 2.
ghost use Rattle.std.specs.Prelude.{◌≡◌, ◌≤◌, length, option_map, IfOk, IfErr, OnOk};
ghost use Rattle.layout.specs.Committed.{does_count, committed_of, committed_slot};
ghost use Rattle.device.specs.Calls.{Counts};
ghost use Rattle.layout.specs.Calls.{ReadsOnly};
ghost use Rattle.layout.specs.Fault.{CountsOpen};
ghost use Rattle.ckpt_log.specs.HeaderSlot.{slot_number, header_at, gate_at};
ghost use Rattle.ckpt_log.specs.Log.{chosen, HasNoPlainHeader, HasPlainHeader, IsHeaderIn, IsRefusedBy};

use crate::header_slot::HeaderSlot;
use crate::log::Log;
use crate::sector::read_sector;
use device::{Device, Failed, SECTOR_SIZE};
use layout::{
    BadImage, CheckpointHeader, Gate, OpenFault, decode_gate, decode_header, sequence_in,
};

// Reads the header of a slot into `into`. Returns whether the header counts: its gate is open, and its sequence
// number belongs in this slot.
fn read_header<D: Device>(device: &mut D, slot: HeaderSlot, into: &mut [u8]) -> Result<bool, Failed>
    requires inside { 5 ≤ (D.disk device.old).sectors }
    requires one { length into.old ≡ 512 }
    ensures counts { IfOk result (λ counts. counts
        ≡ does_count ((D.disk device.old).seen (header_at slot))
        ((D.disk device.old).seen (gate_at slot)) (slot_number slot)) }
    ensures bytes { OnOk result (into.new ≡ (D.disk device.old).seen (header_at slot)) }
    ensures reads { ReadsOnly (D.disk device.old) (D.disk device.new) }
    ensures cause { Counts (D.disk device.old) (D.disk device.new) result }
{
    let mut gate = [0; SECTOR_SIZE];
    read_sector(device, slot.header(), into)?;
    read_sector(device, slot.gate(), &mut gate)?;
    Ok(decode_gate(&gate) == Gate::Open && sequence_in(into) % 2 == slot.number())
}

// Returns the slot of the committed header: if both headers count, that with the greater sequence number.
fn committed_of(first: bool, m: u64, second: bool, n: u64) -> Option<HeaderSlot>
    ensures { option_map slot_number result ≡ committed_of first m second n }
{
    match (first, second) {
        (true, true) if m < n => Some(HeaderSlot::Second),
        (true, _) => Some(HeaderSlot::First),
        (false, true) => Some(HeaderSlot::Second),
        (false, false) => None,
    }
}

/// Reads the headers of versions 1 and 2 into `first` and `second`, and returns the slot of the committed one, or `None`
/// if no header counts. Returns `Failed` exactly if the device failed.
pub fn committed_slot<D: Device>(
    device: &mut D,
    first: &mut [u8],
    second: &mut [u8],
) -> Result<Option<HeaderSlot>, Failed>
    requires inside { 5 ≤ (D.disk device.old).sectors }
    requires first { length first.old ≡ 512 }
    requires second { length second.old ≡ 512 }
    ensures slot { IfOk result (λ slot. option_map slot_number slot ≡ committed_slot (D.disk device.old).seen) }
    ensures first { OnOk result (first.new ≡ (D.disk device.old).seen 1) }
    ensures second { OnOk result (second.new ≡ (D.disk device.old).seen 3) }
    ensures reads { ReadsOnly (D.disk device.old) (D.disk device.new) }
    ensures cause { Counts (D.disk device.old) (D.disk device.new) result }
{
    let first_counts = read_header(device, HeaderSlot::First, first)?;
    let second_counts = read_header(device, HeaderSlot::Second, second)?;
    Ok(committed_of(
        first_counts,
        sequence_in(first),
        second_counts,
        sequence_in(second),
    ))
}

// Returns the header of a slot, from the bytes of both headers. If it is malformed, returns `BadHeader`, and doesn't
// fall back to the other header. Returns `NoHeader` if there is no slot.
fn choose(
    slot: Option<HeaderSlot>,
    first: &[u8],
    second: &[u8],
    room: u64,
) -> Result<CheckpointHeader, BadImage>
    requires first { length first.now ≡ 512 }
    requires second { length second.now ≡ 512 }
    ensures found { IfOk result (λ h. IsHeaderIn room (chosen slot first.now second.now) h) }
    ensures refused { IfErr result (λ e. IsRefusedBy room (chosen slot first.now second.now) e) }
{
    match slot {
        None => Err(BadImage::NoHeader),
        Some(HeaderSlot::First) => decode_header(first, room),
        Some(HeaderSlot::Second) => decode_header(second, room),
    }
}

impl<'a> Log<'a> {
    // Returns the committed header of versions 1 and 2. Returns `Failed` exactly if the device failed, `NoHeader` if no
    // header counts, and `BadHeader` if the committed header is malformed, even if the other counts too.
    pub(crate) fn find_header<D: Device>(
        &self,
        device: &mut D,
    ) -> Result<CheckpointHeader, OpenFault>
        requires inside { self.now.total ≤ (D.disk device.old).sectors }
        ensures found { IfOk result (λ h. HasPlainHeader (D.disk device.old).seen self.now.geometry.log h) }
        ensures refused { IfErr result (λ e. HasNoPlainHeader (D.disk device.old).seen self.now.geometry.log e) }
        ensures reads { ReadsOnly (D.disk device.old) (D.disk device.new) }
        ensures cause { CountsOpen (D.disk device.old) (D.disk device.new) result }
    {
        let room = self.geometry().log;
        let mut first = [0; SECTOR_SIZE];
        let mut second = [0; SECTOR_SIZE];
        let slot = committed_slot(device, &mut first, &mut second)?;
        Ok(choose(slot, &first, &second, room)?)
    }
}
