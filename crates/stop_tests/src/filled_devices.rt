// Making devices that hold an image.
use crate::task::Task;
use device::{Device, MAX_SECTORS, SECTOR_SIZE};
use devices::{Fuse, Memory, Outcome};

// How many sector writes and syncs a device in memory can record, including those of the image.
const ROOM: usize = 10_000;

// Writes these sectors to a device, and syncs. Returns whether that succeeded. The device must have exactly as
// many sectors.
fn is_filled<D: Device>(device: &mut D, image: &[u8]) -> bool {
    if image.len() % SECTOR_SIZE != 0 || (image.len() / SECTOR_SIZE) as u64 != device.sectors() {
        return false;
    }
    device.write(0, image).is_ok() && device.sync().is_ok()
}

// Writes these sectors to a device, and makes it stop after `calls` calls.
fn fused<D: Device>(device: D, image: &[u8], calls: u64) -> anyhow::Result<Fuse<D>> {
    let mut device = device;
    if !is_filled(&mut device, image) {
        anyhow::bail!("not written");
    }
    Ok(Fuse::new(device, calls))
}

impl Task<'_> {
    /// Returns a device in memory that holds these sectors, and stops after `calls` calls.
    pub(crate) fn device_with(
        &self,
        image: &[u8],
        outcome: Outcome,
        calls: u64,
    ) -> anyhow::Result<Fuse<Memory>> {
        let sectors = (image.len() / SECTOR_SIZE) as u64;
        if sectors > MAX_SECTORS {
            anyhow::bail!("too many sectors");
        }
        fused(
            Memory::new(self.alloc, sectors, ROOM, outcome)?,
            image,
            calls,
        )
    }
}
