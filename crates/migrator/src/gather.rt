// Gathers the saved frames of all objects that share a home.
ghost use Rattle.std.specs.Prelude.{◌≡◌, ◌+◌, ◌*◌, ◌<◌, ◌≤◌, ℕ, length, drop, IsTrue, IfSome, OnOk};
ghost use Rattle.device.specs.Calls.{Counts};
ghost use Rattle.layout.specs.declared.shape.Shape.{Shape};
ghost use Rattle.layout.specs.Directory.{IsDirectory};
ghost use Rattle.layout.specs.Homes.{home_place, place_length, shape_of};
ghost use Rattle.layout.specs.Image.{bytes_at, frame_in, sector_or, shaped_at, slot_sector};
ghost use Rattle.layout.specs.Calls.{ReadsOnly};
ghost use Rattle.layout.specs.Frames.{IsObject};
ghost use Rattle.layout.specs.Shape.{AreBeside, shape_bytes, shape_end, shape_length};
ghost use Rattle.home_ranges.specs.Home.{EndsInZeros};
ghost use Rattle.migrator.specs.Gathered.{IsGathered};

use crate::find::find_frame_slot;
use crate::whole::is_whole;
use ckpt_log::Log;
use device::{Device, Failed, SECTOR_SIZE};
use home_ranges::Home;
use layout::{BLOCK_BYTES, Entry, Shape, Superblock, blank, copy_frame, read_sectors};

// Reads the frame that fills the sectors from `at` on into the front of a block.
fn read_place<D: Device>(
    device: &mut D,
    at: u64,
    shape: Shape,
    block: &mut [u8],
) -> Result<(), Failed>
    requires whole { shape.bytes ≡ 512 * shape.sectors }
    requires few { shape.sectors ≤ 9 }
    requires shape { shape_end shape ≤ 512 * shape.sectors }
    requires block { shape_end shape ≤ length block.old }
    requires inside { at + shape_length shape ≤ (D.disk device.old).sectors }
    ensures copied { OnOk result (shape_bytes shape block.new ≡ shaped_at (D.disk device.new).seen at shape) }
    ensures others { (other : Shape) → AreBeside shape other
        → shape_bytes other block.new ≡ shape_bytes other block.old }
    ensures behind { drop (shape_end shape) block.new ≡ drop (shape_end shape) block.old }
    ensures size { length block.new ≡ length block.old }
    ensures reads { ReadsOnly (D.disk device.old) (D.disk device.new) }
    ensures cause { Counts (D.disk device.old) (D.disk device.new) result }
{
    let sectors = shape.sectors as usize;
    read_sectors(device, at, sectors, &mut block[..SECTOR_SIZE * sectors])
}

// Copies a frame of this shape from the sectors at `at`, which it shares with other frames, into a block, at
// the same offset. No other byte of the block changes. The sectors are read into `scratch`.
fn copy_part<D: Device>(
    device: &mut D,
    at: u64,
    shape: Shape,
    block: &mut [u8],
    scratch: &mut [u8; BLOCK_BYTES],
) -> Result<(), Failed>
    requires few { shape.sectors ≤ 9 }
    requires shape { shape_end shape ≤ 512 * shape.sectors }
    requires block { shape_end shape ≤ length block.old }
    requires inside { at + shape_length shape ≤ (D.disk device.old).sectors }
    ensures copied { OnOk result (shape_bytes shape block.new ≡ shaped_at (D.disk device.new).seen at shape) }
    ensures others { (other : Shape) → AreBeside shape other
        → shape_bytes other block.new ≡ shape_bytes other block.old }
    ensures behind { drop (shape_end shape) block.new ≡ drop (shape_end shape) block.old }
    ensures size { length block.new ≡ length block.old }
    ensures reads { ReadsOnly (D.disk device.old) (D.disk device.new) }
    ensures cause { Counts (D.disk device.old) (D.disk device.new) result }
{
    let run = &mut scratch[..SECTOR_SIZE * shape.sectors as usize];
    read_sectors(device, at, shape.sectors as usize, run)?;
    copy_frame(run, shape, block);
    Ok(())
}

/// Copies a frame of this shape from the sectors at `at` into a block, at the same offset. No other byte of
/// the block changes. `scratch` may then hold any bytes; the caller lends it, so that a series of calls needs
/// only one.
pub(crate) fn copy_place<D: Device>(
    device: &mut D,
    at: u64,
    shape: Shape,
    block: &mut [u8],
    scratch: &mut [u8; BLOCK_BYTES],
) -> Result<(), Failed>
    requires few { shape.sectors ≤ 9 }
    requires shape { shape_end shape ≤ 512 * shape.sectors }
    requires block { shape_end shape ≤ length block.old }
    requires inside { at + shape_length shape ≤ (D.disk device.old).sectors }
    ensures copied { OnOk result (shape_bytes shape block.new ≡ shaped_at (D.disk device.new).seen at shape) }
    ensures others { (other : Shape) → AreBeside shape other
        → shape_bytes other block.new ≡ shape_bytes other block.old }
    ensures behind { drop (shape_end shape) block.new ≡ drop (shape_end shape) block.old }
    ensures size { length block.new ≡ length block.old }
    ensures reads { ReadsOnly (D.disk device.old) (D.disk device.new) }
    ensures cause { Counts (D.disk device.old) (D.disk device.new) result }
{
    if is_whole(shape) {
        return read_place(device, at, shape, block);
    }
    copy_part(device, at, shape, block, scratch)
}

/// Copies the frame of an object from a slot, or from home without one, into a block, at the offset of its shape. No
/// other byte of the block changes.
pub(crate) fn copy_from<D: Device>(
    device: &mut D,
    plan: &Superblock,
    generation: u64,
    slot: Option<u64>,
    number: u64,
    block: &mut [u8],
    scratch: &mut [u8; BLOCK_BYTES],
) -> Result<(), Failed>
    requires slot { IfSome slot (λ s. s < plan.now.geometry.log) }
    requires object { IsObject plan.now.geometry number }
    requires block { length block.old ≡ 512 * place_length plan.now number }
    requires inside { plan.now.total ≤ (D.disk device.old).sectors }
    ensures copied { OnOk result (shape_bytes (shape_of plan.now number) block.new
        ≡ bytes_at (D.disk device.old).seen (sector_or slot (slot_sector plan.now generation)
        (home_place plan.now number)) plan.now number) }
    ensures others { (other : Shape) → AreBeside (shape_of plan.now number) other
        → shape_bytes other block.new ≡ shape_bytes other block.old }
    ensures behind { drop (shape_end (shape_of plan.now number)) block.new
        ≡ drop (shape_end (shape_of plan.now number)) block.old }
    ensures size { length block.new ≡ length block.old }
    ensures reads { ReadsOnly (D.disk device.old) (D.disk device.new) }
    ensures cause { Counts (D.disk device.old) (D.disk device.new) result }
{
    let home = Home::new(plan);
    let log = Log::new(plan);
    let at = match slot {
        Some(slot) => log.slot_sector(generation, slot),
        None => home.place(number),
    };
    copy_place(device, at, plan.shape(number), block, scratch)
}

// Copies the saved frame of an object into a block, at the offset of its shape. No other byte of the block
// changes.
fn gather_one<D: Device>(
    device: &mut D,
    plan: &Superblock,
    generation: u64,
    directory: &[Entry],
    number: u64,
    block: &mut [u8],
    scratch: &mut [u8; BLOCK_BYTES],
) -> Result<(), Failed>
    requires directory { IsDirectory plan.now.geometry directory.now }
    requires object { IsObject plan.now.geometry number }
    requires block { length block.old ≡ 512 * place_length plan.now number }
    requires inside { plan.now.total ≤ (D.disk device.old).sectors }
    ensures gathered { OnOk result (shape_bytes (shape_of plan.now number) block.new
        ≡ frame_in (D.disk device.old).seen plan.now generation directory.now number) }
    ensures others { (other : Shape) → AreBeside (shape_of plan.now number) other
        → shape_bytes other block.new ≡ shape_bytes other block.old }
    ensures behind { drop (shape_end (shape_of plan.now number)) block.new
        ≡ drop (shape_end (shape_of plan.now number)) block.old }
    ensures size { length block.new ≡ length block.old }
    ensures reads { ReadsOnly (D.disk device.old) (D.disk device.new) }
    ensures cause { Counts (D.disk device.old) (D.disk device.new) result }
{
    let slot = find_frame_slot(plan, directory, number);
    copy_from(device, plan, generation, slot, number, block, scratch)
}

// Fills a block with the saved frames of all objects that share the home of an object, and zeros after them.
fn gather_all<D: Device>(
    device: &mut D,
    plan: &Superblock,
    generation: u64,
    directory: &[Entry],
    number: u64,
    block: &mut [u8],
    scratch: &mut [u8; BLOCK_BYTES],
) -> Result<(), Failed>
    requires directory { IsDirectory plan.now.geometry directory.now }
    requires object { IsObject plan.now.geometry number }
    requires block { length block.old ≡ 512 * place_length plan.now number }
    requires inside { plan.now.total ≤ (D.disk device.old).sectors }
    ensures gathered { OnOk result (IsGathered (D.disk device.old).seen plan.now generation
        directory.now number block.new) }
    ensures zeros { OnOk result (EndsInZeros plan.now number block.new) }
    ensures size { length block.new ≡ length block.old }
    ensures reads { ReadsOnly (D.disk device.old) (D.disk device.new) }
    ensures cause { Counts (D.disk device.old) (D.disk device.new) result }
{
    let home = Home::new(plan);
    let first = home.first(number);
    blank(block);
    for k in 0..home.sharers(first) {
        gather_one(
            device,
            plan,
            generation,
            directory,
            first + k,
            block,
            scratch,
        )?;
    }
    Ok(())
}

// Whether the frame of an object fills its home. Then no other object shares this home.
fn is_alone(plan: &Superblock, number: u64) -> bool
    requires { IsObject plan.now.geometry number }
    ensures alone { IsTrue result → (n : ℕ) → IsObject plan.now.geometry n
        → home_place plan.now n ≡ home_place plan.now number → n ≡ number }
    ensures whole { IsTrue result
        → (shape_of plan.now number).bytes ≡ 512 * (shape_of plan.now number).sectors }
{
    let home = Home::new(plan);
    let first = home.first(number);
    let count = home.sharers(number);
    if first != number || count != 1 {
        return false;
    }
    is_whole(plan.shape(number))
}

// Fills a block with the saved frame of an object that shares its home with no other.
fn gather_whole<D: Device>(
    device: &mut D,
    plan: &Superblock,
    generation: u64,
    directory: &[Entry],
    number: u64,
    block: &mut [u8],
    scratch: &mut [u8; BLOCK_BYTES],
) -> Result<(), Failed>
    requires directory { IsDirectory plan.now.geometry directory.now }
    requires object { IsObject plan.now.geometry number }
    requires block { length block.old ≡ 512 * place_length plan.now number }
    requires inside { plan.now.total ≤ (D.disk device.old).sectors }
    requires alone { (n : ℕ) → IsObject plan.now.geometry n
        → home_place plan.now n ≡ home_place plan.now number → n ≡ number }
    requires whole { (shape_of plan.now number).bytes ≡ 512 * (shape_of plan.now number).sectors }
    ensures gathered { OnOk result (IsGathered (D.disk device.old).seen plan.now generation
        directory.now number block.new) }
    ensures zeros { OnOk result (EndsInZeros plan.now number block.new) }
    ensures size { length block.new ≡ length block.old }
    ensures reads { ReadsOnly (D.disk device.old) (D.disk device.new) }
    ensures cause { Counts (D.disk device.old) (D.disk device.new) result }
{
    gather_one(device, plan, generation, directory, number, block, scratch)
}

/// Fills a block with the saved frames of all objects that share the home of an object, and zeros after them.
/// `scratch` may then hold any bytes; the caller lends it, so that a series of calls needs only one.
pub(crate) fn gather<D: Device>(
    device: &mut D,
    plan: &Superblock,
    generation: u64,
    directory: &[Entry],
    number: u64,
    block: &mut [u8],
    scratch: &mut [u8; BLOCK_BYTES],
) -> Result<(), Failed>
    requires directory { IsDirectory plan.now.geometry directory.now }
    requires object { IsObject plan.now.geometry number }
    requires block { length block.old ≡ 512 * place_length plan.now number }
    requires inside { plan.now.total ≤ (D.disk device.old).sectors }
    ensures gathered { OnOk result (IsGathered (D.disk device.old).seen plan.now generation
        directory.now number block.new) }
    ensures zeros { OnOk result (EndsInZeros plan.now number block.new) }
    ensures size { length block.new ≡ length block.old }
    ensures reads { ReadsOnly (D.disk device.old) (D.disk device.new) }
    ensures cause { Counts (D.disk device.old) (D.disk device.new) result }
{
    if is_alone(plan, number) {
        return gather_whole(device, plan, generation, directory, number, block, scratch);
    }
    gather_all(device, plan, generation, directory, number, block, scratch)
}
