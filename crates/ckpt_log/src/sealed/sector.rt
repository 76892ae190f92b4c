// The write of one sector.
ghost use Rattle.std.specs.Prelude.{◌≡◌, ◌<◌, length, OnOk};
ghost use Rattle.device.specs.Calls.{Counts, Elsewhere, IsTorn, Only};
ghost use Rattle.device.specs.Moments.{LeavesOnly};

use device::{Device, Failed};
use layout::write_sectors;

/// Writes a sector, and makes it and all earlier writes durable. Returns `Failed` exactly if the device failed; then
/// the sector may hold any bytes.
#[tactic(auto, using(crate::proofs::SealedSectors::written_is))]
pub(crate) fn put_sector<D: Device>(device: &mut D, at: u64, bytes: &[u8]) -> Result<(), Failed>
    requires one { length bytes.now ≡ 512 }
    requires inside { at < (D.disk device.old).sectors }
    ensures written { OnOk result ((D.disk device.new).seen at ≡ bytes.now) }
    ensures durable { OnOk result (Only (D.disk device.new).seen (D.disk device.new)) }
    ensures size { (D.disk device.new).sectors ≡ (D.disk device.old).sectors }
    ensures elsewhere { Elsewhere at 1 (D.disk device.old).seen (D.disk device.new).seen }

    // A crash at any moment may leave anything in this sector. In the others it leaves what it could before
    // the call.
    ensures any_moment { LeavesOnly (D.disk device.old) (D.disk device.new)
        (λ c. IsTorn at 1 (D.disk device.old) c) }
    ensures cause { Counts (D.disk device.old) (D.disk device.new) result }
{
    write_sectors(device, at, 1, bytes)?;
    device.sync()
}
