// Finding why no header of versions 1 and 2 is committed, or what is wrong with the committed one.
ghost use Rattle.std.specs.Prelude.{◌≡◌, ◌+◌, ◌*◌, ◌≤◌, false, length, IfErr, IfNone, IfOk, IfSome};
ghost use Rattle.image_explainer.specs.SectorFinding.{IsNoReason};
ghost use Rattle.layout.specs.Calls.{ReadsOnly};
ghost use Rattle.layout.specs.Committed.{does_count};
ghost use Rattle.layout.specs.Denoted.{HasBadHeader, HasNoHeader, HasPlan};
ghost use Rattle.layout.specs.Fault.{CountsOpen};
ghost use Rattle.layout.specs.Header.{IsHeader, header_bytes};
ghost use Rattle.layout.specs.Version.{row};
ghost use Rattle.layout.specs.declared.header.CheckpointHeader.{CheckpointHeader};
ghost use Rattle.image_explainer.specs.SectorBreaking.{BreaksHeader, BreaksLimits, IsFault, IsNotCounted};

use crate::sectors::fault::{HeaderPart, NotCounted, SectorFault};
use crate::sectors::reading::number_at;
use ckpt_log::{HeaderSlot, committed_slot, read_sector};
use device::{Device, SECTOR_SIZE};
use layout::{CheckpointHeader, Gate, OpenFault, Superblock, decode_gate, sequence_in};
use model::MAX_AGE;

// Returns why the header in a slot doesn't count.
fn why_not(header: &[u8], gate: &[u8], slot: u64) -> NotCounted
    requires header { length header.now ≡ 512 }
    requires gate { length gate.now ≡ 512 }
    requires refused { does_count header.now gate.now slot ≡ false }
    ensures { IsNotCounted header.now gate.now slot result }
{
    if decode_gate(gate) == Gate::Closed {
        NotCounted::Closed
    } else {
        NotCounted::Misplaced(sequence_in(header))
    }
}

/// Returns the first field of a header that is above its limit, or `None`. The first header of an image has the number
/// `first`, and a half of the log has `log` slots.
pub(crate) fn limit_part(first: u64, log: u64, header: CheckpointHeader) -> Option<HeaderPart>
    requires { first ≤ 2 }
    ensures some { IfSome result (BreaksLimits first log header) }
    ensures none { IfNone result (IsHeader first log header) }
{
    let CheckpointHeader {
        sequence,
        generation,
        entries,
        age,
    } = header;
    if entries > log {
        return Some(HeaderPart::Entries {
            entries,
            slots: log,
        });
    }
    if age > MAX_AGE {
        return Some(HeaderPart::Age(age));
    }
    let twice = 2 * age;
    let more = if entries == 0 { first + 1 } else { first };
    if generation > twice {
        Some(HeaderPart::Generation { generation, age })
    } else if sequence > twice + more {
        Some(HeaderPart::Sequence { sequence, age })
    } else {
        None
    }
}

// Returns what is wrong with the sector of a header.
fn header_part(bytes: &[u8], log: u64) -> HeaderPart
    requires size { length bytes.now ≡ 512 }
    requires refused { (h : CheckpointHeader) → IsHeader 0 log h → bytes.now ≡ header_bytes h → ⊥ }
    ensures { BreaksHeader log bytes.now result }
{
    let header = CheckpointHeader {
        sequence: number_at(bytes, 8),
        generation: number_at(bytes, 16),
        entries: number_at(bytes, 24),
        age: number_at(bytes, 32),
    };
    match limit_part(0, log, header) {
        Some(part) => part,
        None => HeaderPart::Bytes,
    }
}

// Reads the header and the gate in a slot, and returns why the header doesn't count.
fn read_why_not<D: Device>(device: &mut D, slot: u64) -> Result<NotCounted, OpenFault>
    requires slot { slot ≤ 1 }
    requires inside { 5 ≤ (D.disk device.old).sectors }
    requires refused { does_count ((D.disk device.old).seen (1 + 2 * slot)) ((D.disk device.old).seen (2 + 2 * slot))
        slot ≡ false }
    ensures found { IfOk result (IsNotCounted ((D.disk device.old).seen (1 + 2 * slot))
        ((D.disk device.old).seen (2 + 2 * slot)) slot) }
    ensures refused { IfErr result IsNoReason }
    ensures reads { ReadsOnly (D.disk device.old) (D.disk device.new) }
    ensures cause { CountsOpen (D.disk device.old) (D.disk device.new) result }
{
    let mut header = [0; SECTOR_SIZE];
    let mut gate = [0; SECTOR_SIZE];
    read_sector(device, 1 + 2 * slot, &mut header)?;
    read_sector(device, 2 + 2 * slot, &mut gate)?;
    Ok(why_not(&header, &gate, slot))
}

/// Returns why no header of versions 1 and 2 counts.
pub(crate) fn find_uncounted<D: Device>(
    device: &mut D,
    plan: &Superblock,
) -> Result<SectorFault, OpenFault>
    requires plan { HasPlan (D.disk device.old).seen (D.disk device.old).sectors plan.now }
    requires plain { (row plan.now.version).sealed ≡ false }
    requires bad { HasNoHeader (D.disk device.old).seen plan.now }
    ensures found { IfOk result (IsFault (D.disk device.old).sectors (D.disk device.old).seen) }
    ensures refused { IfErr result IsNoReason }
    ensures reads { ReadsOnly (D.disk device.old) (D.disk device.new) }
    ensures cause { CountsOpen (D.disk device.old) (D.disk device.new) result }
{
    let first = read_why_not(device, 0)?;
    let second = read_why_not(device, 1)?;
    Ok(SectorFault::NoHeader(first, second))
}

/// Returns what is wrong with the committed header of versions 1 and 2.
pub(crate) fn find_header<D: Device>(
    device: &mut D,
    plan: &Superblock,
) -> Result<SectorFault, OpenFault>
    requires plan { HasPlan (D.disk device.old).seen (D.disk device.old).sectors plan.now }
    requires plain { (row plan.now.version).sealed ≡ false }
    requires some { HasNoHeader (D.disk device.old).seen plan.now → ⊥ }
    requires bad { HasBadHeader (D.disk device.old).seen plan.now }
    ensures found { IfOk result (IsFault (D.disk device.old).sectors (D.disk device.old).seen) }
    ensures refused { IfErr result IsNoReason }
    ensures reads { ReadsOnly (D.disk device.old) (D.disk device.new) }
    ensures cause { CountsOpen (D.disk device.old) (D.disk device.new) result }
{
    let log = plan.geometry().log;
    let mut first = [0; SECTOR_SIZE];
    let mut second = [0; SECTOR_SIZE];
    match committed_slot(device, &mut first, &mut second)? {
        Some(HeaderSlot::First) => Ok(SectorFault::Header {
            sector: 1,
            part: header_part(&first, log),
        }),
        Some(HeaderSlot::Second) => Ok(SectorFault::Header {
            sector: 3,
            part: header_part(&second, log),
        }),
        None => unreachable!(),
    }
}
