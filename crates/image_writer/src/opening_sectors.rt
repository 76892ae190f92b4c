// The sectors before the home ranges: the superblock, the headers and their gates.
ghost use Rattle.std.specs.Prelude.{◌≡◌, ◌-◌, ◌<◌, ◌≤◌, length, true, false, OnOk};
ghost use Rattle.device.specs.Calls.{Counts, Elsewhere, IsTorn, Only};
ghost use Rattle.device.specs.Moments.{LeavesOnly};
ghost use Rattle.layout.specs.Calls.{WritesAt};
ghost use Rattle.layout.specs.Committed.{HasNoSums};
ghost use Rattle.layout.specs.Header.{header_bytes};
ghost use Rattle.layout.specs.Superblock.{superblock_bytes};
ghost use Rattle.layout.specs.Version.{row};
ghost use Rattle.layout.specs.declared.version.Version.{Version};
ghost use Rattle.layout.specs.sealed.Gate.{numbered_gate_bytes};
ghost use Rattle.layout.specs.sealed.Header.{header_numbers, sealed_header_bytes};
ghost use Rattle.layout.specs.sealed.Sector.{AreWords};
ghost use Rattle.ckpt_log.specs.AnyVersion.{header_place};
ghost use Rattle.image_writer.specs.Written.{HasNoHeader};
ghost use Rattle.image_writer.specs.Parts.{AreOpenBy, GatesAreClosed, HaveHeaders, IsShut, LeavesShut, SparesBy};
ghost use Rattle.image_writer.specs.Parts.{header_before};

use device::{Device, Failed, SECTOR_SIZE};
use layout::{
    CheckpointHeader, Gate, SealedHeader, Superblock, encode_gate, encode_header,
    encode_numbered_gate, encode_sealed_header, encode_superblock, write_sectors,
};
use seal::Sums;

/// Writes the superblock, and makes it durable. The gates of all versions must be closed durably, so a crash at any moment
/// leaves an image that can't be opened. Returns `Failed` exactly if the device failed.
#[tactic(auto, using(ckpt_log::proofs::SealedSectors::written_is))]
pub(crate) fn write_superblock<D: Device>(
    device: &mut D,
    superblock: &Superblock,
) -> Result<(), Failed>
    requires inside { 56 ≤ (D.disk device.old).sectors }
    requires closed { (v : Version) → GatesAreClosed v (D.disk device.old).seen }
    requires durable { Only (D.disk device.old).seen (D.disk device.old) }
    ensures written { OnOk result ((D.disk device.new).seen 0 ≡ superblock_bytes superblock.now) }
    ensures durable { OnOk result (Only (D.disk device.new).seen (D.disk device.new)) }
    ensures elsewhere { Elsewhere 0 1 (D.disk device.old).seen (D.disk device.new).seen }
    ensures size { (D.disk device.new).sectors ≡ (D.disk device.old).sectors }
    ensures any_moment { LeavesOnly (D.disk device.old) (D.disk device.new) (λ c. HasNoHeader c) }
    ensures cause { Counts (D.disk device.old) (D.disk device.new) result }
{
    let mut sector = [0; SECTOR_SIZE];
    encode_superblock(superblock, &mut sector);
    write_sectors(device, 0, 1, &sector)?;
    device.sync()
}

// Writes the header sector of a slot, while all gates are closed. No other sector changes.
#[tactic(auto, using(layout::proofs::Sectors::one_from))]
fn write_header<D: Device>(
    device: &mut D,
    superblock: &Superblock,
    slot: u64,
    bytes: &[u8],
) -> Result<(), Failed>
    requires one { length bytes.now ≡ 512 }
    requires slot { slot < (row superblock.now.version).header_slots }
    requires inside { 56 ≤ (D.disk device.old).sectors }
    requires shut { LeavesShut superblock.now (D.disk device.old) }
    ensures written { OnOk result ((D.disk device.new).seen (header_place superblock.now.version slot) ≡ bytes.now) }
    ensures shut { LeavesShut superblock.now (D.disk device.new) }
    ensures elsewhere { Elsewhere (header_place superblock.now.version slot) 1
        (D.disk device.old).seen (D.disk device.new).seen }
    ensures size { (D.disk device.new).sectors ≡ (D.disk device.old).sectors }
    ensures any_moment { LeavesOnly (D.disk device.old) (D.disk device.new) (λ c. IsShut superblock.now c) }
    ensures cause { Counts (D.disk device.old) (D.disk device.new) result }
{
    let at = superblock.version().row().opening_step * (1 + 2 * slot);
    write_sectors(device, at, 1, bytes)
}

// Writes the first header, in a version without seals, while all gates are closed.
fn write_plain_header<D: Device>(
    device: &mut D,
    superblock: &Superblock,
    header: CheckpointHeader,
) -> Result<(), Failed>
    requires plain { (row superblock.now.version).sealed ≡ false }
    requires inside { 56 ≤ (D.disk device.old).sectors }
    requires shut { LeavesShut superblock.now (D.disk device.old) }
    ensures written { OnOk result ((D.disk device.new).seen 1 ≡ header_bytes header) }
    ensures shut { LeavesShut superblock.now (D.disk device.new) }
    ensures elsewhere { Elsewhere 1 ((row superblock.now.version).first_home - 1)
        (D.disk device.old).seen (D.disk device.new).seen }
    ensures size { (D.disk device.new).sectors ≡ (D.disk device.old).sectors }
    ensures any_moment { LeavesOnly (D.disk device.old) (D.disk device.new) (λ c. IsShut superblock.now c) }
    ensures cause { Counts (D.disk device.old) (D.disk device.new) result }
{
    let mut sector = [0; SECTOR_SIZE];
    encode_header(header, &mut sector);
    write_header(device, superblock, 0, &sector)
}

// Writes a sealed header with this sequence number to its slot, while all gates are closed.
fn write_sealed_header<D: Device>(
    device: &mut D,
    superblock: &Superblock,
    header: SealedHeader,
    slot: u64,
) -> Result<(), Failed>
    requires slot { slot < (row superblock.now.version).header_slots }
    requires inside { 56 ≤ (D.disk device.old).sectors }
    requires shut { LeavesShut superblock.now (D.disk device.old) }
    ensures written { OnOk result ((D.disk device.new).seen (header_place superblock.now.version slot)
        ≡ sealed_header_bytes header) }
    ensures shut { LeavesShut superblock.now (D.disk device.new) }
    ensures elsewhere { Elsewhere (header_place superblock.now.version slot) 1
        (D.disk device.old).seen (D.disk device.new).seen }
    ensures size { (D.disk device.new).sectors ≡ (D.disk device.old).sectors }
    ensures any_moment { LeavesOnly (D.disk device.old) (D.disk device.new) (λ c. IsShut superblock.now c) }
    ensures cause { Counts (D.disk device.old) (D.disk device.new) result }
{
    let mut sector = [0; SECTOR_SIZE];
    encode_sealed_header(header, &mut sector);
    write_header(device, superblock, slot, &sector)
}

// Returns the header with sequence number 1 that stands before a new image's committed header.
fn header_before(header: SealedHeader) -> SealedHeader
    ensures { result ≡ header_before header }
{
    let CheckpointHeader {
        generation,
        entries,
        age,
        ..
    } = header.header;
    SealedHeader {
        header: CheckpointHeader {
            sequence: 1,
            generation,
            entries,
            age,
        },
        root: header.root,
        directory: header.directory,
    }
}

// Writes headers 1 and 2 with the same state, and zeros in the first header slot, while all gates are closed.
fn write_sealed_headers<D: Device>(
    device: &mut D,
    superblock: &Superblock,
    header: SealedHeader,
) -> Result<(), Failed>
    requires sealed { (row superblock.now.version).sealed ≡ true }
    requires inside { 56 ≤ (D.disk device.old).sectors }
    requires shut { LeavesShut superblock.now (D.disk device.old) }
    ensures written { OnOk result (HaveHeaders true header (D.disk device.new).seen) }
    ensures shut { LeavesShut superblock.now (D.disk device.new) }
    ensures elsewhere { Elsewhere 1 ((row superblock.now.version).first_home - 1)
        (D.disk device.old).seen (D.disk device.new).seen }
    ensures size { (D.disk device.new).sectors ≡ (D.disk device.old).sectors }
    ensures any_moment { LeavesOnly (D.disk device.old) (D.disk device.new) (λ c. IsShut superblock.now c) }
    ensures cause { Counts (D.disk device.old) (D.disk device.new) result }
{
    write_header(device, superblock, 0, &[0; SECTOR_SIZE])?;
    write_sealed_header(device, superblock, header_before(header), 1)?;
    write_sealed_header(device, superblock, header, 2)
}

/// Writes the headers of a new image, while all gates are closed: one header, or two in a version with seals. A crash at
/// any moment leaves the gates closed. Returns `Failed` exactly if the device failed.
pub(crate) fn write_headers<D: Device>(
    device: &mut D,
    superblock: &Superblock,
    header: SealedHeader,
) -> Result<(), Failed>
    requires inside { 56 ≤ (D.disk device.old).sectors }
    requires shut { LeavesShut superblock.now (D.disk device.old) }
    ensures written { OnOk result (HaveHeaders (row superblock.now.version).sealed header (D.disk device.new).seen) }
    ensures shut { LeavesShut superblock.now (D.disk device.new) }
    ensures elsewhere { Elsewhere 1 ((row superblock.now.version).first_home - 1)
        (D.disk device.old).seen (D.disk device.new).seen }
    ensures size { (D.disk device.new).sectors ≡ (D.disk device.old).sectors }
    ensures any_moment { LeavesOnly (D.disk device.old) (D.disk device.new) (λ c. IsShut superblock.now c) }
    ensures cause { Counts (D.disk device.old) (D.disk device.new) result }
{
    let sealed = superblock.version().row().sealed;
    if sealed {
        write_sealed_headers(device, superblock, header)
    } else {
        write_plain_header(device, superblock, header.header)
    }
}

/// Returns a header with these sums, or with zeros in a version without seals.
pub(crate) fn header_with(
    superblock: &Superblock,
    header: CheckpointHeader,
    root: Sums,
    directory: Sums,
) -> SealedHeader
    ensures header { result.header ≡ header }
    ensures root { (row superblock.now.version).sealed ≡ true → result.root ≡ root }
    ensures directory { (row superblock.now.version).sealed ≡ true → result.directory ≡ directory }
    ensures plain { (row superblock.now.version).sealed ≡ false → HasNoSums result }
    ensures words { AreWords (header_numbers result) }
{
    let none = Sums { a: 0, b: 0, c: 0 };
    if superblock.version().row().sealed {
        SealedHeader {
            header,
            root,
            directory,
        }
    } else {
        SealedHeader {
            header,
            root: none,
            directory: none,
        }
    }
}

// Opens the gate of the first header, in a version without seals, and makes that durable.
#[tactic(auto, using(layout::proofs::Sectors::one_from))]
fn open_gate<D: Device>(device: &mut D) -> Result<(), Failed>
    requires inside { 56 ≤ (D.disk device.old).sectors }
    requires durable { Only (D.disk device.old).seen (D.disk device.old) }
    ensures opened { OnOk result (AreOpenBy false (D.disk device.new).seen) }
    ensures durable { OnOk result (Only (D.disk device.new).seen (D.disk device.new)) }
    ensures spares { SparesBy false (D.disk device.old).seen (D.disk device.new).seen }
    ensures size { (D.disk device.new).sectors ≡ (D.disk device.old).sectors }
    ensures any_moment { LeavesOnly (D.disk device.old) (D.disk device.new)
        (λ c. SparesBy false (D.disk device.old).seen c) }
    ensures cause { Counts (D.disk device.old) (D.disk device.new) result }
{
    let mut sector = [0; SECTOR_SIZE];
    encode_gate(Gate::Open, &mut sector);
    write_sectors(device, 2, 1, &sector)?;
    device.sync()
}

// Writes the gate of the header with this sequence number, in a version with seals. No other sector changes.
#[tactic(auto, using(layout::proofs::Sectors::one_from))]
fn write_numbered_gate<D: Device>(device: &mut D, sequence: u64, at: u64) -> Result<(), Failed>
    requires at { at < 56 }
    requires inside { 56 ≤ (D.disk device.old).sectors }
    ensures written { OnOk result ((D.disk device.new).seen at ≡ numbered_gate_bytes sequence) }
    ensures writes { WritesAt at 1 (D.disk device.old) (D.disk device.new) }
    ensures cause { Counts (D.disk device.old) (D.disk device.new) result }
{
    let mut sector = [0; SECTOR_SIZE];
    encode_numbered_gate(sequence, &mut sector);
    write_sectors(device, at, 1, &sector)
}

// Opens the gates of headers 1 and 2, in a version with seals, and makes that durable. One sync is enough: neither header
// is committed without the other.
fn open_numbered_gates<D: Device>(device: &mut D) -> Result<(), Failed>
    requires inside { 56 ≤ (D.disk device.old).sectors }
    requires durable { Only (D.disk device.old).seen (D.disk device.old) }
    ensures opened { OnOk result (AreOpenBy true (D.disk device.new).seen) }
    ensures durable { OnOk result (Only (D.disk device.new).seen (D.disk device.new)) }
    ensures spares { SparesBy true (D.disk device.old).seen (D.disk device.new).seen }
    ensures size { (D.disk device.new).sectors ≡ (D.disk device.old).sectors }
    ensures any_moment { LeavesOnly (D.disk device.old) (D.disk device.new)
        (λ c. SparesBy true (D.disk device.old).seen c) }
    ensures cause { Counts (D.disk device.old) (D.disk device.new) result }
{
    write_numbered_gate(device, 1, 32)?;
    write_numbered_gate(device, 2, 48)?;
    device.sync()
}

/// Opens the gates of a new image's headers, and makes that durable. All earlier writes must be durable already. A crash at
/// any moment leaves all other sectors unchanged. Returns `Failed` exactly if the device failed.
pub(crate) fn open_gates<D: Device>(device: &mut D, superblock: &Superblock) -> Result<(), Failed>
    requires inside { 56 ≤ (D.disk device.old).sectors }
    requires durable { Only (D.disk device.old).seen (D.disk device.old) }
    ensures opened { OnOk result (AreOpenBy (row superblock.now.version).sealed (D.disk device.new).seen) }
    ensures durable { OnOk result (Only (D.disk device.new).seen (D.disk device.new)) }
    ensures spares { SparesBy (row superblock.now.version).sealed (D.disk device.old).seen (D.disk device.new).seen }
    ensures size { (D.disk device.new).sectors ≡ (D.disk device.old).sectors }
    ensures any_moment { LeavesOnly (D.disk device.old) (D.disk device.new)
        (λ c. SparesBy (row superblock.now.version).sealed (D.disk device.old).seen c) }
    ensures cause { Counts (D.disk device.old) (D.disk device.new) result }
{
    let sealed = superblock.version().row().sealed;
    if sealed {
        open_numbered_gates(device)
    } else {
        open_gate(device)
    }
}
