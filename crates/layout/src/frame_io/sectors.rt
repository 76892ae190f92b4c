// One read or one write of several sectors, with a contract that treats their bytes as one list.
ghost use Rattle.std.specs.Prelude.{◌≡◌, ◌+◌, ◌*◌, ◌≤◌, length, OnOk};
ghost use Rattle.device.specs.Calls.{Counts};
ghost use Rattle.layout.specs.Image.{sectors_from};
ghost use Rattle.layout.specs.Calls.{ReadsOnly, WritesAt};

use device::{Device, Failed};

/// Fills `into` with `sectors` sectors from `at` on. Returns `Failed` exactly if the device failed;
/// then `into` may hold any bytes.
#[tactic(auto, using(crate::proofs::Runs::run_is))]
pub fn read_sectors<D: Device>(
    device: &mut D,
    at: u64,
    sectors: usize,
    into: &mut [u8],
) -> Result<(), Failed>
    requires whole { length into.old ≡ 512 * sectors }
    requires inside { at + sectors ≤ (D.disk device.old).sectors }
    ensures bytes { OnOk result (sectors_from (D.disk device.new).seen at sectors ≡ into.new) }
    ensures length { length into.new ≡ length into.old }
    ensures reads { ReadsOnly (D.disk device.old) (D.disk device.new) }
    ensures cause { Counts (D.disk device.old) (D.disk device.new) result }
{
    device.read(at, into)
}

/// Writes `from` into `sectors` sectors from `at` on. Until a sync a crash may leave any bytes in these sectors.
/// Returns `Failed` exactly if the device failed; then they may hold any bytes.
#[tactic(auto, using(crate::proofs::Runs::run_is))]
pub fn write_sectors<D: Device>(
    device: &mut D,
    at: u64,
    sectors: usize,
    from: &[u8],
) -> Result<(), Failed>
    requires whole { length from.now ≡ 512 * sectors }
    requires inside { at + sectors ≤ (D.disk device.old).sectors }
    ensures written { OnOk result (sectors_from (D.disk device.new).seen at sectors ≡ from.now) }
    ensures writes { WritesAt at sectors (D.disk device.old) (D.disk device.new) }
    ensures cause { Counts (D.disk device.old) (D.disk device.new) result }
{
    device.write(at, from)
}
