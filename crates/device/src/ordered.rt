// Writes that are durable before the next begins, over any device.
ghost use Rattle.std.specs.Prelude.{◌≡◌, ◌≤◌, ◌+◌, ◌%◌, length, OnOk};
ghost use Rattle.device.specs.Disk.{Image};
ghost use Rattle.device.specs.Calls.{Elsewhere, sectors_of, AreSectors, Only, Counts};
ghost use Rattle.device.specs.Moments.{LeavesOnly};
ghost use Rattle.device.specs.Ordered.{IsWrittenAt, IsInOrder};

use crate::device::{Device, Failed};

/// Writes `bytes` into the sectors from `at` on, and makes them durable. At `Failed` these sectors
/// may hold any bytes, and no other is touched.
pub fn write_durably<D: Device>(device: &mut D, at: u64, bytes: &[u8]) -> Result<(), Failed>
    requires whole { length bytes.now % 512 ≡ 0 }
    requires inside { at + sectors_of bytes.now ≤ (D.disk device.old).sectors }
    requires durable { Only (D.disk device.old).seen (D.disk device.old) }

    ensures written { OnOk result (IsWrittenAt at bytes.now (D.disk device.old).seen
        (D.disk device.new).seen) }
    ensures durable { OnOk result (Only (D.disk device.new).seen (D.disk device.new)) }
    ensures size { (D.disk device.new).sectors ≡ (D.disk device.old).sectors }

    // A crash at any moment leaves every other sector unchanged.
    ensures any_moment { LeavesOnly (D.disk device.old) (D.disk device.new)
        (λ c. Elsewhere at (sectors_of bytes.now) (D.disk device.old).seen c) }
    ensures cause { Counts (D.disk device.old) (D.disk device.new) result }
{
    device.write(at, bytes)?;
    device.sync()
}

/// Writes `first` into the sectors from `at` on and, once they are durable, `second` into those
/// from `next` on, which lie after them. After `Ok` the second run isn't durable yet.
pub fn write_in_order<D: Device>(
    device: &mut D,
    at: u64,
    first: &[u8],
    next: u64,
    second: &[u8],
) -> Result<(), Failed>
    requires first_whole { length first.now % 512 ≡ 0 }
    requires second_whole { length second.now % 512 ≡ 0 }
    requires behind { at + sectors_of first.now ≤ next }
    requires inside { next + sectors_of second.now ≤ (D.disk device.old).sectors }
    requires durable { Only (D.disk device.old).seen (D.disk device.old) }

    ensures first_written { OnOk result (AreSectors (D.disk device.new).seen at first.now) }
    ensures second_written { OnOk result (AreSectors (D.disk device.new).seen next second.now) }
    ensures size { (D.disk device.new).sectors ≡ (D.disk device.old).sectors }

    // A later crash leaves the first run whole.
    ensures first_durable { OnOk result
        ((c : Image) → (D.disk device.new).may_leave c → AreSectors c at first.now) }

    // A crash at any moment leaves the first run old or torn and all else unchanged, or it leaves the first
    // run whole.
    ensures any_moment { LeavesOnly (D.disk device.old) (D.disk device.new)
        (λ c. IsInOrder at first.now next second.now (D.disk device.old).seen c) }
    ensures cause { Counts (D.disk device.old) (D.disk device.new) result }
{
    write_durably(device, at, first)?;
    device.write(next, second)
}
