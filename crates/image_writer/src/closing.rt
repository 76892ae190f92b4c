// Closes the gates of the old image, whatever its version.
ghost use Rattle.std.specs.Prelude.{◌≡◌, ◌<◌, ◌≤◌, length, true, false, IfOk, OnOk};
ghost use Rattle.device.specs.Calls.{Counts, Elsewhere, Only};
ghost use Rattle.device.specs.Moments.{LeavesOnly};
ghost use Rattle.layout.specs.Calls.{ReadsOnly, WritesAt};
ghost use Rattle.layout.specs.Superblock.{IsPlan, Plan, superblock_bytes};
ghost use Rattle.layout.specs.Version.{row};
ghost use Rattle.layout.specs.declared.version.Version.{Version};
ghost use Rattle.layout.specs.sealed.Gate.{numbered_gate_bytes};
ghost use Rattle.image_writer.specs.Written.{HasNoHeader, IsBeforeOrNone};
ghost use Rattle.image_writer.specs.Parts.{AreZeros, GatesAreClosed, IsNamed, SparesAll};

use ckpt_log::close_gates_of;
use device::{Device, Failed, SECTOR_SIZE};
use layout::{Version, decode_superblock, encode_numbered_gate, read_sectors, write_sectors};

// Returns the version of a superblock. If the bytes are no superblock, returns the first version.
fn version_of(bytes: &[u8]) -> Version
    requires { length bytes.now ≡ 512 }
    ensures { (p : Plan) → IsPlan p → bytes.now ≡ superblock_bytes p → p.version ≡ result }
{
    match decode_superblock(bytes) {
        Ok(superblock) => superblock.version(),
        Err(_) => Version::One,
    }
}

// Returns the version that the superblock of a device names. If it has none, returns the first version.
fn old_version<D: Device>(device: &mut D) -> Result<Version, Failed>
    requires inside { 56 ≤ (D.disk device.old).sectors }
    ensures named { IfOk result (λ version. IsNamed (D.disk device.old).seen version) }
    ensures reads { ReadsOnly (D.disk device.old) (D.disk device.new) }
    ensures cause { Counts (D.disk device.old) (D.disk device.new) result }
{
    let mut sector = [0; SECTOR_SIZE];
    read_sectors(device, 0, 1, &mut sector)?;
    Ok(version_of(&sector))
}

// Closes the gates of one version, and makes this durable. A crash leaves the image with the same committed header, or
// none.
fn close_named<D: Device>(device: &mut D, version: Version) -> Result<(), Failed>
    requires inside { 56 ≤ (D.disk device.old).sectors }
    requires named { IsNamed (D.disk device.old).seen version }
    requires durable { Only (D.disk device.old).seen (D.disk device.old) }
    ensures closed { OnOk result (GatesAreClosed version (D.disk device.new).seen) }
    ensures durable { OnOk result (Only (D.disk device.new).seen (D.disk device.new)) }
    ensures size { (D.disk device.new).sectors ≡ (D.disk device.old).sectors }
    ensures elsewhere { Elsewhere 1 55 (D.disk device.old).seen (D.disk device.new).seen }
    ensures any_moment { LeavesOnly (D.disk device.old) (D.disk device.new)
        (λ c. IsBeforeOrNone (D.disk device.old) c) }
    ensures cause { Counts (D.disk device.old) (D.disk device.new) result }
{
    close_gates_of(version, device)
}

// Writes a sector of zeros: the closed gate of any version. No other sector changes.
#[tactic(auto, using(layout::proofs::Sectors::one_from))]
fn write_closed_gate<D: Device>(device: &mut D, at: u64) -> Result<(), Failed>
    requires at { at < 56 }
    requires inside { 56 ≤ (D.disk device.old).sectors }
    ensures written { OnOk result ((D.disk device.new).seen at ≡ numbered_gate_bytes 0) }
    ensures writes { WritesAt at 1 (D.disk device.old) (D.disk device.new) }
    ensures cause { Counts (D.disk device.old) (D.disk device.new) result }
{
    let mut sector = [0; SECTOR_SIZE];
    encode_numbered_gate(0, &mut sector);
    write_sectors(device, at, 1, &sector)
}

// Closes the gates of the versions without seals, and makes this durable, with one sync.
fn clear_plain<D: Device>(device: &mut D) -> Result<(), Failed>
    requires inside { 56 ≤ (D.disk device.old).sectors }
    requires durable { Only (D.disk device.old).seen (D.disk device.old) }
    ensures closed { OnOk result (AreZeros false (D.disk device.new).seen) }
    ensures durable { OnOk result (Only (D.disk device.new).seen (D.disk device.new)) }
    ensures size { (D.disk device.new).sectors ≡ (D.disk device.old).sectors }
    ensures spares { SparesAll false (D.disk device.old).seen (D.disk device.new).seen }
    ensures any_moment { LeavesOnly (D.disk device.old) (D.disk device.new)
        (λ c. SparesAll false (D.disk device.old).seen c) }
    ensures cause { Counts (D.disk device.old) (D.disk device.new) result }
{
    write_closed_gate(device, 2)?;
    write_closed_gate(device, 4)?;
    device.sync()
}

// Closes the gates of the version with seals, and makes this durable, with one sync.
fn clear_sealed<D: Device>(device: &mut D) -> Result<(), Failed>
    requires inside { 56 ≤ (D.disk device.old).sectors }
    requires durable { Only (D.disk device.old).seen (D.disk device.old) }
    ensures closed { OnOk result (AreZeros true (D.disk device.new).seen) }
    ensures durable { OnOk result (Only (D.disk device.new).seen (D.disk device.new)) }
    ensures size { (D.disk device.new).sectors ≡ (D.disk device.old).sectors }
    ensures spares { SparesAll true (D.disk device.old).seen (D.disk device.new).seen }
    ensures any_moment { LeavesOnly (D.disk device.old) (D.disk device.new)
        (λ c. SparesAll true (D.disk device.old).seen c) }
    ensures cause { Counts (D.disk device.old) (D.disk device.new) result }
{
    write_closed_gate(device, 16)?;
    write_closed_gate(device, 32)?;
    write_closed_gate(device, 48)?;
    device.sync()
}

// Closes the gates that a version doesn't have. Its own are closed. Then the gates of all versions are closed, which is
// durable. No header is committed at any moment, so one sync is enough.
fn close_others<D: Device>(device: &mut D, version: Version) -> Result<(), Failed>
    requires inside { 56 ≤ (D.disk device.old).sectors }
    requires named { IsNamed (D.disk device.old).seen version }
    requires closed { GatesAreClosed version (D.disk device.old).seen }
    requires durable { Only (D.disk device.old).seen (D.disk device.old) }
    ensures closed { OnOk result ((v : Version) → GatesAreClosed v (D.disk device.new).seen) }
    ensures durable { OnOk result (Only (D.disk device.new).seen (D.disk device.new)) }
    ensures size { (D.disk device.new).sectors ≡ (D.disk device.old).sectors }
    ensures elsewhere { Elsewhere 1 55 (D.disk device.old).seen (D.disk device.new).seen }
    ensures any_moment { LeavesOnly (D.disk device.old) (D.disk device.new) (λ c. HasNoHeader c) }
    ensures cause { Counts (D.disk device.old) (D.disk device.new) result }
{
    if version.row().sealed {
        clear_plain(device)
    } else {
        clear_sealed(device)
    }
}

/// Closes the gates of all versions, and makes this durable. First it closes those of the version that the superblock
/// names: a crash leaves an image that it could have left before, with the same committed header, or none. The others
/// follow, because a torn superblock may name any version. Returns `Failed` exactly if the device failed.
pub(crate) fn close_all_gates<D: Device>(device: &mut D) -> Result<(), Failed>
    requires inside { 56 ≤ (D.disk device.old).sectors }
    ensures closed { OnOk result ((v : Version) → GatesAreClosed v (D.disk device.new).seen) }
    ensures durable { OnOk result (Only (D.disk device.new).seen (D.disk device.new)) }
    ensures size { (D.disk device.new).sectors ≡ (D.disk device.old).sectors }
    ensures elsewhere { Elsewhere 1 55 (D.disk device.old).seen (D.disk device.new).seen }
    ensures any_moment { LeavesOnly (D.disk device.old) (D.disk device.new)
        (λ c. IsBeforeOrNone (D.disk device.old) c) }
    ensures cause { Counts (D.disk device.old) (D.disk device.new) result }
{
    device.sync()?;
    let version = old_version(device)?;
    close_named(device, version)?;
    close_others(device, version)
}
