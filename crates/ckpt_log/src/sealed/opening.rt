// The three header slots and their gates.
ghost use Rattle.std.specs.Prelude.{◌≡◌, ◌<◌, ◌≤◌, ◌+◌, ◌*◌, IfOk};
ghost use Rattle.device.specs.Calls.{Counts};
ghost use Rattle.layout.specs.Calls.{ReadsOnly};
ghost use Rattle.ckpt_log.specs.sealed.Reading.{AreRead, IsSlotIn};
ghost use Rattle.layout.specs.sealed.Opening.{gate_sector, header_sector};

use crate::sector::read_sector;
use device::{Device, Failed, SECTOR_SIZE};
use layout::{SealedHeader, decode_numbered_gate, decode_sealed_header};

/// The content of a header slot.
#[derive(Clone, Copy)]
pub struct HeaderSlot {
    /// The header, if it is sound.
    pub header: Option<SealedHeader>,
    /// The number of the gate, if it has one.
    pub gate: Option<u64>,
}

/// Returns the sector of the header in a slot.
pub(crate) fn header_sector(slot: u64) -> u64
    requires { slot < 3 }
    ensures value { result ≡ header_sector slot }
    ensures inside { result < 56 }
{
    8 + 16 * slot
}

/// Returns the sector of the gate of a slot.
pub(crate) fn gate_sector(slot: u64) -> u64
    requires { slot < 3 }
    ensures value { result ≡ gate_sector slot }
    ensures inside { result < 56 }
{
    16 + 16 * slot
}

// Reads a header slot and its gate.
fn read_slot<D: Device>(device: &mut D, slot: u64) -> Result<HeaderSlot, Failed>
    requires slot { slot < 3 }
    requires inside { 56 ≤ (D.disk device.old).sectors }
    ensures found { IfOk result (λ it. IsSlotIn (D.disk device.old).seen slot it) }
    ensures reads { ReadsOnly (D.disk device.old) (D.disk device.new) }
    ensures cause { Counts (D.disk device.old) (D.disk device.new) result }
{
    let mut header = [0; SECTOR_SIZE];
    let mut gate = [0; SECTOR_SIZE];
    read_sector(device, header_sector(slot), &mut header)?;
    read_sector(device, gate_sector(slot), &mut gate)?;
    Ok(HeaderSlot {
        header: decode_sealed_header(&header),
        gate: decode_numbered_gate(&gate),
    })
}

/// Reads the three header slots and their gates.
pub fn read_slots<D: Device>(device: &mut D) -> Result<[HeaderSlot; 3], Failed>
    requires inside { 56 ≤ (D.disk device.old).sectors }
    ensures found { IfOk result (λ slots. AreRead (D.disk device.old).seen slots) }
    ensures reads { ReadsOnly (D.disk device.old) (D.disk device.new) }
    ensures cause { Counts (D.disk device.old) (D.disk device.new) result }
{
    let first = read_slot(device, 0)?;
    let second = read_slot(device, 1)?;
    let third = read_slot(device, 2)?;
    Ok([first, second, third])
}
