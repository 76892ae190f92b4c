// Finding why no header of version 3 is committed, or what is wrong with the committed one.
ghost use Rattle.std.specs.Prelude.{◌≡◌, ◌%◌, ◌<◌, length, true, IfErr, IfOk};
ghost use Rattle.device.specs.Disk.{Image};
ghost use Rattle.ckpt_log.specs.sealed.Reading.{IsChosen, IsSlotIn, numbered};
ghost use Rattle.header_slots.specs.Committed.{IsRefused};
ghost use Rattle.header_slots.specs.declared.deciding.NotCommitted.TheVariants.{NextGate, NoPair};
ghost use Rattle.image_explainer.specs.SectorFinding.{IsNoReason};
ghost use Rattle.layout.specs.Calls.{ReadsOnly};
ghost use Rattle.layout.specs.Denoted.{HasBadHeader, HasNoHeader, HasPlan};
ghost use Rattle.layout.specs.Fault.{CountsOpen};
ghost use Rattle.layout.specs.Header.{IsHeader};
ghost use Rattle.layout.specs.Version.{row};
ghost use Rattle.layout.specs.declared.sealed.header.SealedHeader.{SealedHeader};
ghost use Rattle.layout.specs.sealed.Opening.{header_sector};
ghost use Rattle.image_explainer.specs.SectorBreaking.{IsFault, IsNotPaired};
ghost use Rattle.image_explainer.specs.SectorFinding.{IsLostIn, IsSlotsFault, gate_or_none};

use crate::sectors::fault::{HeaderPart, NotPaired, SectorFault};
use crate::sectors::header::limit_part;
use ckpt_log::sealed::{HeaderSlot, decide, header_of, read_slots};
use device::Device;
use layout::{OpenFault, Superblock};

// Returns why the header of slot `k` is in no pair. If it counts, no neighbour does.
fn why_not(slot: HeaderSlot, k: u64) -> NotPaired
    requires { k < 3 }
    ensures { (image : Image) → IsSlotIn image k slot → IsNotPaired image k result }
{
    let Some(gate) = slot.gate else {
        return NotPaired::Unnumbered;
    };
    let Some(header) = slot.header else {
        return NotPaired::Unsound;
    };
    let sequence = header.header.sequence;
    if sequence % 3 != k {
        NotPaired::Misplaced(sequence)
    } else if gate != sequence {
        NotPaired::Renumbered { sequence, gate }
    } else {
        NotPaired::Alone(sequence)
    }
}

/// Returns why no two headers of version 3 are a pair.
pub(crate) fn find_unpaired<D: Device>(
    device: &mut D,
    plan: &Superblock,
) -> Result<SectorFault, OpenFault>
    requires plan { HasPlan (D.disk device.old).seen (D.disk device.old).sectors plan.now }
    requires sealed { (row plan.now.version).sealed ≡ true }
    requires bad { HasNoHeader (D.disk device.old).seen plan.now }
    ensures found { IfOk result (IsFault (D.disk device.old).sectors (D.disk device.old).seen) }
    ensures refused { IfErr result IsNoReason }
    ensures reads { ReadsOnly (D.disk device.old) (D.disk device.new) }
    ensures cause { CountsOpen (D.disk device.old) (D.disk device.new) result }
{
    let slots = read_slots(device)?;
    Ok(SectorFault::NoPair(
        why_not(slots[0], 0),
        why_not(slots[1], 1),
        why_not(slots[2], 2),
    ))
}

// Returns the number of a slot's gate, or 0 if it has none.
fn gate_of(slot: HeaderSlot) -> u64
    ensures { result ≡ gate_or_none slot.gate }
{
    match slot.gate {
        Some(number) => number,
        None => 0,
    }
}

// Returns the number of the lost header, which is the greatest of the three gates.
fn lost_number(slots: &[HeaderSlot]) -> u64
    requires slots { length slots.now ≡ 3 }
    requires lost { IsRefused (numbered slots.now) NextGate }
    ensures { IsLostIn slots.now result }
{
    let first = gate_of(slots[0]);
    let second = gate_of(slots[1]);
    let third = gate_of(slots[2]);
    let greater = if first < second { second } else { first };
    if greater < third { third } else { greater }
}

// Returns the sector of the header with a sequence number.
fn sector_of(sequence: u64) -> u64
    ensures { result ≡ header_sector (sequence % 3) }
{
    8 + 16 * (sequence % 3)
}

// Returns what is wrong with the committed header, if two of the three slots are a pair.
fn slots_fault(slots: &[HeaderSlot], log: u64) -> SectorFault
    requires slots { length slots.now ≡ 3 }
    requires some { IsRefused (numbered slots.now) NoPair → ⊥ }
    requires bad { (h : SealedHeader) → IsChosen slots.now h → IsHeader 2 log h.header → ⊥ }
    ensures { IsSlotsFault slots.now log result }
{
    match decide(slots) {
        Ok(sequence) => {
            let header = header_of(slots, sequence);
            match limit_part(2, log, header.header) {
                Some(part) => SectorFault::Header {
                    sector: sector_of(sequence),
                    part,
                },
                None => unreachable!(),
            }
        }
        Err(_) => {
            let number = lost_number(slots);
            SectorFault::Header {
                sector: sector_of(number),
                part: HeaderPart::Lost(number),
            }
        }
    }
}

/// Returns what is wrong with the committed header of version 3.
pub(crate) fn find_sealed_header<D: Device>(
    device: &mut D,
    plan: &Superblock,
) -> Result<SectorFault, OpenFault>
    requires plan { HasPlan (D.disk device.old).seen (D.disk device.old).sectors plan.now }
    requires sealed { (row plan.now.version).sealed ≡ true }
    requires some { HasNoHeader (D.disk device.old).seen plan.now → ⊥ }
    requires bad { HasBadHeader (D.disk device.old).seen plan.now }
    ensures found { IfOk result (IsFault (D.disk device.old).sectors (D.disk device.old).seen) }
    ensures refused { IfErr result IsNoReason }
    ensures reads { ReadsOnly (D.disk device.old) (D.disk device.new) }
    ensures cause { CountsOpen (D.disk device.old) (D.disk device.new) result }
{
    let log = plan.geometry().log;
    let slots = read_slots(device)?;
    Ok(slots_fault(&slots, log))
}
