// The commit of a header.
ghost use Rattle.std.specs.Prelude.{◌≡◌, ◌≤◌, ◌<◌, ◌%◌, OnOk};
ghost use Rattle.device.specs.Calls.{Counts, Only};
ghost use Rattle.device.specs.Moments.{LeavesOnly};
ghost use Rattle.layout.specs.sealed.Gate.{numbered_gate_bytes};
ghost use Rattle.layout.specs.sealed.Header.{header_numbers};
ghost use Rattle.layout.specs.sealed.Sector.{AreWords};
ghost use Rattle.ckpt_log.specs.sealed.Publish.{CommitsOne, HasNew, IsInOrder, IsOldOrNew, Precedes, SparesRest, gate_at};

use crate::sealed::opening::{gate_sector, header_sector};
use crate::sealed::sector::put_sector;
use device::{Device, Failed, SECTOR_SIZE};
use layout::{SealedHeader, encode_numbered_gate, encode_sealed_header};

/// Returns the slot that a header belongs in.
pub(crate) fn slot_of(header: SealedHeader) -> u64
    ensures value { result ≡ header.header.sequence % 3 }
    ensures low { result < 3 }
    ensures fits { AreWords (header_numbers header) }
{
    header.header.sequence % 3
}

/// Commits a header, with two syncs. After `Ok` each crash leaves it committed, and all earlier writes are durable.
/// Returns `Failed` exactly if the device failed; then a crash leaves the old header committed, or the new one.
///
/// The new sequence number must follow that of the committed header, and each crash before the call must leave the
/// old header committed. Frames and directories that the new header names need no sync of their own: they are durable
/// before the gate is written.
///
/// It writes only the slot of the new header: the header, then its gate.
pub(crate) fn publish<D: Device>(device: &mut D, header: SealedHeader) -> Result<(), Failed>
    requires inside { 56 ≤ (D.disk device.old).sectors }
    requires one { CommitsOne (D.disk device.old) }
    requires next { Precedes (D.disk device.old).seen header }

    ensures committed { OnOk result
        (HasNew header (D.disk device.old).seen (D.disk device.new).seen) }
    ensures opened { OnOk result
        ((D.disk device.new).seen (gate_at header) ≡ numbered_gate_bytes header.header.sequence) }
    ensures durable { OnOk result (Only (D.disk device.new).seen (D.disk device.new)) }
    ensures one { OnOk result (CommitsOne (D.disk device.new)) }
    ensures size { (D.disk device.new).sectors ≡ (D.disk device.old).sectors }
    ensures elsewhere { SparesRest header (D.disk device.old).seen (D.disk device.new).seen }

    // A crash at any moment leaves the old header committed, or this one. If this one, it also leaves all
    // that was written before the call.
    ensures any_moment { LeavesOnly (D.disk device.old) (D.disk device.new)
        (λ c. IsOldOrNew header (D.disk device.old) c) }

    // The gate is written after the header and all earlier writes are durable.
    ensures in_order { LeavesOnly (D.disk device.old) (D.disk device.new)
        (λ c. IsInOrder header (D.disk device.old) c) }
    ensures cause { Counts (D.disk device.old) (D.disk device.new) result }
{
    let slot = slot_of(header);
    let mut sector = [0; SECTOR_SIZE];
    encode_sealed_header(header, &mut sector);
    put_sector(device, header_sector(slot), &sector)?;
    encode_numbered_gate(header.header.sequence, &mut sector);
    put_sector(device, gate_sector(slot), &sector)
}
