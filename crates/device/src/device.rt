// The trait of devices.
ghost use Rattle.std.specs.Prelude.{◌≡◌, ◌<◌, ◌≤◌, ◌+◌, ◌/◌, ◌%◌, ℕ, length, OnOk, OnErr};
ghost use Rattle.device.specs.Disk.{Image, Disk, IsWhole};
ghost use Rattle.device.specs.Calls.{Agrees, Elsewhere, sectors_of, AreSectors, Narrows, Tears, Only, Counts};
ghost use Rattle.device.specs.Moments.{Elapses};

use thiserror::Error;

/// The bytes of a sector.
pub const SECTOR_SIZE: usize = 512;

/// The most sectors that a device has: 64 MiB.
pub const MAX_SECTORS: u64 = 131072;

/// The device failed to do what was called for.
#[derive(Clone, Copy, Debug, Error)]
#[error("the device failed")]
pub struct Failed;

/// A device of sectors of 512 bytes, numbered from 0.
///
/// A `read`, a `write` or a `sync` may fail; the count of failures rises only then. Between two syncs a crash
/// may leave any bytes in each sector that was written, independently of the other sectors. The clauses hold
/// at `Err` as well as at `Ok`.
///
/// A call may take several sectors. They must be whole and lie on the device; `sectors` says how many there
/// are.
pub trait Device: Drop {
    ghost disk: { Self → Disk };

    /// The number of sectors, at most `MAX_SECTORS`. No call changes it.
    fn sectors(&self) -> u64
        ensures count { result ≡ (disk self.now).sectors }
        ensures few { result ≤ MAX_SECTORS };

    /// Fills `into` with the sectors from `at` on. After `Failed`, `into` may hold any bytes.
    fn read(&mut self, at: u64, into: &mut [u8]) -> Result<(), Failed>
        requires whole { length into.old % 512 ≡ 0 }
        requires inside { at + sectors_of into.old ≤ (disk self.old).sectors }
        ensures bytes { OnOk result (AreSectors (disk self.new).seen at into.new) }
        ensures size { (disk self.new).sectors ≡ (disk self.old).sectors }
        ensures seen { Agrees (disk self.new).seen (disk self.old).seen }
        ensures crash { Narrows (disk self.old) (disk self.new) }
        ensures nothing_durable { Narrows (disk self.new) (disk self.old) }
        ensures time { Elapses (disk self.old) (disk self.new) }
        ensures cause { Counts (disk self.old) (disk self.new) result };

    /// Writes `from` into the sectors from `at` on. Until a `sync` a crash may leave any bytes in them. After
    /// `Failed` a read, too, may return any bytes for these sectors.
    fn write(&mut self, at: u64, from: &[u8]) -> Result<(), Failed>
        requires whole { length from.now % 512 ≡ 0 }
        requires inside { at + sectors_of from.now ≤ (disk self.old).sectors }
        ensures written { OnOk result (AreSectors (disk self.new).seen at from.now) }
        ensures size { (disk self.new).sectors ≡ (disk self.old).sectors }
        ensures elsewhere { Elsewhere at (sectors_of from.now) (disk self.old).seen
            (disk self.new).seen }
        ensures crash { Tears at (sectors_of from.now) (disk self.old) (disk self.new) }
        ensures time { Elapses (disk self.old) (disk self.new) }
        ensures cause { Counts (disk self.old) (disk self.new) result };

    /// Makes durable what was written: after `Ok` a crash leaves what a read gives. After `Failed`
    /// nothing more is durable than before.
    fn sync(&mut self) -> Result<(), Failed>
        ensures durable { OnOk result (Only (disk self.new).seen (disk self.new)) }
        ensures size { (disk self.new).sectors ≡ (disk self.old).sectors }
        ensures seen { Agrees (disk self.new).seen (disk self.old).seen }
        ensures crash { Narrows (disk self.old) (disk self.new) }
        ensures nothing_durable { OnErr result (Narrows (disk self.new) (disk self.old)) }
        ensures time { Elapses (disk self.old) (disk self.new) }
        ensures cause { Counts (disk self.old) (disk self.new) result };

    /// The power goes and comes back. Afterwards a read gives an image that a crash might have left just
    /// before, and this image is durable.
    fn power_cut(&mut self)
        ensures left { (disk self.old).may_leave (disk self.new).seen }
        ensures durable { Only (disk self.new).seen (disk self.new) }
        ensures size { (disk self.new).sectors ≡ (disk self.old).sectors }
        ensures time { Elapses (disk self.old) (disk self.new) }
        ensures no_failure { (disk self.new).failures ≡ (disk self.old).failures };

    /// A crash now may leave what a read gives.
    ghost seen_left: { (device : Self) → (disk device).may_leave (disk device).seen };

    /// An image that a crash may leave now is also one that a crash since an earlier moment may have left.
    ghost counts_now: { (device : Self) (t : ℕ) (c : Image) → t ≤ (disk device).moment → (disk device).may_leave c
        → (disk device).left_since t c };

    /// A crash since now may leave only what a crash now may leave.
    ghost only_now: { (device : Self) (c : Image) → (disk device).left_since (disk device).moment c
        → (disk device).may_leave c };

    /// A crash leaves whole sectors, as many as the device has.
    ghost left_whole: { (device : Self) (t : ℕ) (c : Image) → (disk device).left_since t c
        → IsWhole (disk device).sectors c };

    /// There are at most `MAX_SECTORS` sectors.
    ghost few_sectors: { (device : Self) → (disk device).sectors ≤ 131072 };
}
