// Devices in memory that stop, and what a power cut leaves on them.
ghost use Rattle.std.specs.Prelude.{◌≡◌, ◌≤◌};

use device::{Device, Failed};
use devices::{Fuse, Memory, Outcome};
use std::process::Abort;
use std::test::Fail;

// The number of calls after which a device stops, and the bytes of its four sectors after a power cut: if unsynced
// writes are kept, if they are dropped, and if their sectors are filled with 9.
struct Stop {
    calls: u64,
    kept: [u8; 4],
    dropped: [u8; 4],
    filled: [u8; 4],
}

const STOPS: &[Stop] = &[
    Stop {
        calls: 0,
        kept: [0, 0, 0, 0],
        dropped: [0, 0, 0, 0],
        filled: [0, 0, 0, 0],
    },
    Stop {
        calls: 1,
        kept: [1, 2, 0, 0],
        dropped: [0, 0, 0, 0],
        filled: [9, 9, 0, 0],
    },
    Stop {
        calls: 2,
        kept: [1, 2, 0, 0],
        dropped: [1, 2, 0, 0],
        filled: [1, 2, 0, 0],
    },
    Stop {
        calls: 3,
        kept: [1, 3, 4, 0],
        dropped: [1, 2, 0, 0],
        filled: [1, 9, 9, 0],
    },
    Stop {
        calls: 4,
        kept: [1, 3, 4, 0],
        dropped: [1, 3, 4, 0],
        filled: [1, 3, 4, 0],
    },
    Stop {
        calls: 5,
        kept: [1, 3, 4, 0],
        dropped: [1, 3, 4, 0],
        filled: [1, 3, 4, 0],
    },
];

// Returns two sectors, each filled with one byte.
fn two(first: u8, second: u8) -> [u8; 1024] {
    let mut bytes = [first; 1024];
    bytes[512..].copy_from_slice(&[second; 512]);
    bytes
}

// Writes 1 and 2 into the first two sectors and syncs, writes 3 and 4 into the middle two and syncs, then reads a
// sector. Returns which of these calls succeeded.
fn called<D: Device>(device: &mut D) -> [bool; 5]
    requires { 4 ≤ (D.disk device.old).sectors }
    ensures { (D.disk device.new).sectors ≡ (D.disk device.old).sectors }
{
    let first = device.write(0, &two(1, 2)).is_ok();
    let first_sync = device.sync().is_ok();
    let second = device.write(1, &two(3, 4)).is_ok();
    let second_sync = device.sync().is_ok();
    let read = device.read(3, &mut [0; 512]).is_ok();
    [first, first_sync, second, second_sync, read]
}

// Returns four sectors, each filled with one byte.
fn four(bytes: [u8; 4]) -> [u8; 2048] {
    let [first, second, third, fourth] = bytes;
    let mut all = [0; 2048];
    all[..1024].copy_from_slice(&two(first, second));
    all[1024..].copy_from_slice(&two(third, fourth));
    all
}

// Asserts that after a power cut the four sectors have these bytes.
fn holds<D: Device>(rt: &impl Abort, device: &mut D, left: [u8; 4]) -> Result<(), Failed>
    requires { 4 ≤ (D.disk device.old).sectors }
    ensures { (D.disk device.new).sectors ≡ (D.disk device.old).sectors }
{
    let mut all = [7; 2048];
    device.power_cut();
    device.read(0, &mut all)?;
    assert!(rt; all == four(left), "{left:?}");
    Ok(())
}

// Asserts that a device that stops after `calls` calls has these bytes after a power cut, and then works again.
fn is_left<D: Device>(rt: &impl Abort, device: D, calls: u64, left: [u8; 4]) -> Result<(), Failed>
    requires { 4 ≤ (D.disk device).sectors }
{
    let mut fuse = Fuse::new(device, calls);
    let passed = [calls > 0, calls > 1, calls > 2, calls > 3, calls > 4];
    assert!(rt; called(&mut fuse) == passed, "after {calls} calls");
    holds(rt, &mut fuse, left)?;
    fuse.sync()?;
    holds(rt, &mut fuse, left)
}

#[test]
fn a_stop_leaves_its_outcome(rt: HostRuntime) -> Result<(), Fail> {
    for row in STOPS {
        for (outcome, left) in [
            (Outcome::Keep, row.kept),
            (Outcome::Drop, row.dropped),
            (Outcome::Fill(9), row.filled),
        ] {
            let memory = Memory::new(rt.alloc(), 4, 8, outcome)?;
            is_left(&rt, memory, row.calls, left)?;
        }
    }
    Ok(())
}
