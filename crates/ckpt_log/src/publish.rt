// The commit of a header.
ghost use Rattle.std.specs.Prelude.{◌≡◌, ◌⊎◌, ◌≤◌, ◌<◌, false, OnOk};
ghost use Rattle.layout.specs.Gate.{gate_bytes, is_open};
ghost use Rattle.layout.specs.Header.{header_bytes, IsHeader};
ghost use Rattle.layout.specs.declared.gate.Gate.TheVariants.{Open};
ghost use Rattle.device.specs.Calls.{Agrees, Elsewhere, Only, Counts};
ghost use Rattle.device.specs.Moments.{LeavesOnly};
ghost use Rattle.ckpt_log.specs.Commit.{header_sector, gate_sector, closed_gate, IsInOrder, IsInOrderAfter, CommitsOne};
ghost use Rattle.ckpt_log.specs.Commit.{Precedes, KeepsHeader, HasNew, IsOldOrNew, IsOld};

use crate::header_slot::HeaderSlot;
use crate::log::Log;
use crate::sector::{put_sector, read_sector};
use device::{Device, Failed, SECTOR_SIZE};
use layout::{CheckpointHeader, Gate, decode_gate, encode_gate, encode_header};

// Closes the gate in a sector if it is open. It doesn't write a closed gate: a torn write could open
// it.
pub(crate) fn close_gate<D: Device>(device: &mut D, at: u64) -> Result<(), Failed>
    requires inside { at < (D.disk device.old).sectors }
    requires durable { Only (D.disk device.old).seen (D.disk device.old) }

    ensures closed { OnOk result
        ((D.disk device.new).seen at ≡ closed_gate ((D.disk device.old).seen at)) }
    ensures durable { OnOk result (Only (D.disk device.new).seen (D.disk device.new)) }
    ensures size { (D.disk device.new).sectors ≡ (D.disk device.old).sectors }
    ensures elsewhere { Elsewhere at 1 (D.disk device.old).seen (D.disk device.new).seen }
    ensures closed_before { is_open ((D.disk device.old).seen at) ≡ false
        → Agrees (D.disk device.new).seen (D.disk device.old).seen }

    // A crash at any moment leaves every other sector unchanged, and this one too if its gate was closed.
    ensures any_moment { LeavesOnly (D.disk device.old) (D.disk device.new)
        (λ c. Elsewhere at 1 (D.disk device.old).seen c
        × (is_open ((D.disk device.old).seen at) ≡ false → Agrees c (D.disk device.old).seen)) }
    ensures cause { Counts (D.disk device.old) (D.disk device.new) result }
{
    let mut sector = [0; SECTOR_SIZE];
    read_sector(device, at, &mut sector)?;
    if decode_gate(&sector) == Gate::Closed {
        return Ok(());
    }
    encode_gate(Gate::Closed, &mut sector);
    put_sector(device, at, &sector)
}

// Closes the gate of a header if it is open, then writes the header. A crash at any moment leaves the
// same committed header.
fn prepare<D: Device>(device: &mut D, header: CheckpointHeader) -> Result<(), Failed>
    requires inside { 5 ≤ (D.disk device.old).sectors }
    requires durable { Only (D.disk device.old).seen (D.disk device.old) }
    requires next { Precedes (D.disk device.old).seen header }

    ensures written { OnOk result
        ((D.disk device.new).seen (header_sector header) ≡ header_bytes header) }
    ensures keeps { KeepsHeader header (D.disk device.old).seen (D.disk device.new).seen }
    ensures durable { OnOk result (Only (D.disk device.new).seen (D.disk device.new)) }
    ensures size { (D.disk device.new).sectors ≡ (D.disk device.old).sectors }
    ensures any_moment { LeavesOnly (D.disk device.old) (D.disk device.new)
        (λ c. KeepsHeader header (D.disk device.old).seen c) }
    ensures in_order { LeavesOnly (D.disk device.old) (D.disk device.new)
        (λ c. IsInOrder header (D.disk device.old).seen c) }
    ensures cause { Counts (D.disk device.old) (D.disk device.new) result }
{
    let slot = HeaderSlot::of(header);
    close_gate(device, slot.gate())?;
    let mut bytes = [0; SECTOR_SIZE];
    encode_header(header, &mut bytes);
    put_sector(device, slot.header(), &bytes)
}

// Opens the gate of a header that is written and durable. A crash at any moment leaves the old or the new
// header committed.
#[tactic(auto, using(crate::proofs::Commits::gate_is, crate::proofs::Commits::opened_new))]
fn open_gate<D: Device>(device: &mut D, header: CheckpointHeader) -> Result<(), Failed>
    requires inside { 5 ≤ (D.disk device.old).sectors }
    requires durable { Only (D.disk device.old).seen (D.disk device.old) }
    requires next { Precedes (D.disk device.old).seen header }
    requires written { (D.disk device.old).seen (header_sector header) ≡ header_bytes header }

    ensures committed { OnOk result
        (HasNew header (D.disk device.old).seen (D.disk device.new).seen) }
    ensures opened { OnOk result
        ((D.disk device.new).seen (gate_sector header) ≡ gate_bytes Open) }
    ensures seen { IsOldOrNew header (D.disk device.old).seen (D.disk device.new).seen }
    ensures durable { OnOk result (Only (D.disk device.new).seen (D.disk device.new)) }
    ensures size { (D.disk device.new).sectors ≡ (D.disk device.old).sectors }
    ensures any_moment { LeavesOnly (D.disk device.old) (D.disk device.new)
        (λ c. IsOldOrNew header (D.disk device.old).seen c) }
    ensures in_order { LeavesOnly (D.disk device.old) (D.disk device.new)
        (λ c. c (header_sector header) ≡ header_bytes header) }
    ensures cause { Counts (D.disk device.old) (D.disk device.new) result }
{
    let at = HeaderSlot::of(header).gate();
    let mut gate = [0; SECTOR_SIZE];
    encode_gate(Gate::Open, &mut gate);
    put_sector(device, at, &gate)
}

impl<'a> Log<'a> {
    /// Commits a header. After `Ok` each crash leaves it committed, and all earlier writes are durable. Returns
    /// `Failed` exactly if the device failed; then the old header is committed, or the new one.
    ///
    /// The header must be within its limits:
    ///
    /// - at most as many entries as a half of the log has slots
    /// - an age of at most `MAX_AGE`
    /// - a generation of at most twice the age
    /// - a sequence number of at most twice the age, or one more for a header without entries
    ///
    /// The new sequence number must follow that of the committed header, and each crash before the call must leave
    /// the old header committed.
    ///
    /// It writes only the slot of the new header: first the gate with 0 and zeros, if it is open; then the header;
    /// then the gate with 1 and zeros. Each write is durable before the next.
    pub(crate) fn publish<D: Device>(
        &self,
        device: &mut D,
        header: CheckpointHeader,
    ) -> Result<(), Failed>
        requires spelt { IsHeader 0 self.now.geometry.log header }
        requires inside { 5 ≤ (D.disk device.old).sectors }
        requires one { CommitsOne (D.disk device.old) }
        requires next { Precedes (D.disk device.old).seen header }

        ensures committed { OnOk result
            (HasNew header (D.disk device.old).seen (D.disk device.new).seen) }
        ensures opened { OnOk result
            ((D.disk device.new).seen (gate_sector header) ≡ gate_bytes Open) }
        ensures durable { OnOk result (Only (D.disk device.new).seen (D.disk device.new)) }
        ensures size { (D.disk device.new).sectors ≡ (D.disk device.old).sectors }
        ensures elsewhere { Elsewhere (header_sector header) 2
            (D.disk device.old).seen (D.disk device.new).seen }

        // A crash at any moment leaves the old header committed, or this one. If this one, it also leaves all
        // that was written before the call.
        ensures any_moment { LeavesOnly (D.disk device.old) (D.disk device.new)
            (λ c. IsOld header (D.disk device.old) c ⊎ HasNew header (D.disk device.old).seen c) }

        // At each moment the slot has the old header, or a gate that was closed first, or the new header.
        ensures in_order { LeavesOnly (D.disk device.old) (D.disk device.new)
            (λ c. IsInOrderAfter header (D.disk device.old) c) }
        ensures cause { Counts (D.disk device.old) (D.disk device.new) result }
    {
        device.sync()?;
        prepare(device, header)?;
        open_gate(device, header)
    }
}
