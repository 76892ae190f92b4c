// Copying frames home.
ghost use Rattle.std.specs.Prelude.{◌≡◌, ◌*◌, ◌≤◌, true, false, length, OnOk};
ghost use Rattle.device.specs.Calls.{Counts};
ghost use Rattle.layout.specs.Directory.{IsDirectory};
ghost use Rattle.layout.specs.Homes.{home_place, place_length};
ghost use Rattle.layout.specs.Image.{sectors_from};
ghost use Rattle.layout.specs.Calls.{ReadsOnly};
ghost use Rattle.layout.specs.Frames.{IsObject};
ghost use Rattle.layout.specs.Version.{row};
ghost use Rattle.layout.specs.sealed.Units.{block_in};
ghost use Rattle.home_ranges.specs.Home.{EndsInZeros};
ghost use Rattle.migrator.specs.Gathered.{IsCopied, IsGathered};
ghost use Rattle.migrator.specs.Spared.{Touches};

use crate::gather::gather;
use crate::units::frame_sector;
use device::{Device, Failed, SECTOR_SIZE};
use home_ranges::Home;
use layout::{BLOCK_BYTES, Entry, Superblock, read_sectors};

// Fills a block with the saved frames of all objects that share the home of an object. In a version with seals it is
// the whole block that these are read from; else each frame is copied, and zeros follow.
fn take_block<D: Device>(
    device: &mut D,
    plan: &Superblock,
    generation: u64,
    directory: &[Entry],
    number: u64,
    block: &mut [u8],
    scratch: &mut [u8; BLOCK_BYTES],
) -> Result<(), Failed>
    requires directory { IsDirectory plan.now.geometry directory.now }
    requires object { IsObject plan.now.geometry number }
    requires block { length block.old ≡ 512 * place_length plan.now number }
    requires inside { plan.now.total ≤ (D.disk device.old).sectors }
    ensures gathered { OnOk result (IsGathered (D.disk device.old).seen plan.now generation
        directory.now number block.new) }
    ensures whole { OnOk result ((row plan.now.version).sealed ≡ true
        → block_in (D.disk device.old).seen plan.now generation directory.now number ≡ block.new) }
    ensures zeros { OnOk result ((row plan.now.version).sealed ≡ false → EndsInZeros plan.now number block.new) }
    ensures size { length block.new ≡ length block.old }
    ensures reads { ReadsOnly (D.disk device.old) (D.disk device.new) }
    ensures cause { Counts (D.disk device.old) (D.disk device.new) result }
{
    let sealed = plan.version().row().sealed;
    if sealed {
        let at = frame_sector(plan, generation, directory, number);
        let shape = plan.shape(number);
        read_sectors(device, at, shape.sectors as usize, block)
    } else {
        gather(device, plan, generation, directory, number, block, scratch)
    }
}

/// Writes the home of an object: the saved frames of all objects that share it, then zeros; in a version with seals,
/// the block that they are read from. After `Failed` its sectors may hold any bytes. The caller lends both buffers, so
/// that a series of calls needs only two.
pub(crate) fn copy_home<D: Device>(
    device: &mut D,
    plan: &Superblock,
    generation: u64,
    directory: &[Entry],
    number: u64,
    buffer: &mut [u8; BLOCK_BYTES],
    scratch: &mut [u8; BLOCK_BYTES],
) -> Result<(), Failed>
    requires directory { IsDirectory plan.now.geometry directory.now }
    requires object { IsObject plan.now.geometry number }
    requires inside { plan.now.total ≤ (D.disk device.old).sectors }
    ensures copied { OnOk result (IsCopied (D.disk device.old).seen (D.disk device.new).seen
        plan.now generation directory.now number) }
    ensures zeros { OnOk result ((row plan.now.version).sealed ≡ false
        → EndsInZeros plan.now number (sectors_from (D.disk device.new).seen
        (home_place plan.now number) (place_length plan.now number))) }
    ensures touches { Touches (home_place plan.now number) (place_length plan.now number)
        (D.disk device.old) (D.disk device.new) }
    ensures cause { Counts (D.disk device.old) (D.disk device.new) result }
{
    let block = &mut buffer[..SECTOR_SIZE * plan.shape(number).sectors as usize];
    take_block(device, plan, generation, directory, number, block, scratch)?;
    let home = Home::new(plan);
    home.write_frame(device, number, block)
}
