// One sector of a device.
ghost use Rattle.std.specs.Prelude.{◌≡◌, ◌<◌, length, OnOk};
ghost use Rattle.device.specs.Calls.{Elsewhere, Only, Counts};
ghost use Rattle.device.specs.Moments.{LeavesOnly};
ghost use Rattle.layout.specs.Calls.{ReadsOnly};

use device::{Device, Failed, write_durably};
use layout::read_sectors;

/// Fills `into` with the 512 bytes of a sector. Returns `Failed` exactly if the device failed.
#[tactic(auto, using(crate::proofs::Sectors::read_is))]
pub fn read_sector<D: Device>(device: &mut D, at: u64, into: &mut [u8]) -> Result<(), Failed>
    requires one { length into.old ≡ 512 }
    requires inside { at < (D.disk device.old).sectors }
    ensures bytes { OnOk result (into.new ≡ (D.disk device.old).seen at) }
    ensures length { length into.new ≡ 512 }
    ensures reads { ReadsOnly (D.disk device.old) (D.disk device.new) }
    ensures cause { Counts (D.disk device.old) (D.disk device.new) result }
{
    read_sectors(device, at, 1, into)
}

/// Writes a sector and makes it durable. No other sector changes. Returns `Failed` exactly if the
/// device failed; then the sector may hold any bytes.
#[tactic(auto, using(crate::proofs::Sectors::one_sector, crate::proofs::Sectors::seen_has))]
pub(crate) fn put_sector<D: Device>(device: &mut D, at: u64, bytes: &[u8]) -> Result<(), Failed>
    requires one { length bytes.now ≡ 512 }
    requires inside { at < (D.disk device.old).sectors }
    requires durable { Only (D.disk device.old).seen (D.disk device.old) }

    ensures written { OnOk result ((D.disk device.new).seen at ≡ bytes.now) }
    ensures durable { OnOk result (Only (D.disk device.new).seen (D.disk device.new)) }
    ensures size { (D.disk device.new).sectors ≡ (D.disk device.old).sectors }
    ensures elsewhere { Elsewhere at 1 (D.disk device.old).seen (D.disk device.new).seen }

    // A crash at any moment leaves every other sector unchanged.
    ensures any_moment { LeavesOnly (D.disk device.old) (D.disk device.new)
        (λ c. Elsewhere at 1 (D.disk device.old).seen c) }
    ensures cause { Counts (D.disk device.old) (D.disk device.new) result }
{
    write_durably(device, at, bytes)
}
