// The directories of the log.
ghost use Rattle.std.specs.Prelude.{◌≡◌, ◌+◌, ◌-◌, ◌*◌, ◌<◌, ◌≤◌, List, length, replicate, take, drop, IfErr, OnOk};
ghost use Rattle.layout.specs.Directory.{directory_bytes, IsDirectory};
ghost use Rattle.layout.specs.Image.{directory_sector, directory_in, sectors_from};
ghost use Rattle.layout.specs.Version.{directory_length};
ghost use Rattle.device.specs.Calls.{Counts};
ghost use Rattle.layout.specs.Calls.{ReadsOnly, WritesAt};
ghost use Rattle.layout.specs.Fault.{CountsOpen};
ghost use Rattle.ckpt_log.specs.Slot.{IsBadDirectory};

use crate::log::Log;
use device::{Device, Failed, SECTOR_SIZE};
use layout::{
    BadImage, ENTRY_BYTES, Entry, OpenFault, decode_directory, encode_directory, read_sectors,
    write_sectors,
};
use model::Geometry;

// How many bytes the greatest directory takes.
const MAX_BYTES: usize = 70144;

// Writes the bytes of a directory, 16 for each entry. Later bytes don't change.
fn put_entries(entries: &[Entry], into: &mut [u8])
    requires room { 16 * length entries.now ≤ length into.old }
    ensures front { take (16 * length entries.now) into.new ≡ directory_bytes entries.now }
    ensures rest { drop (16 * length entries.now) into.new
        ≡ drop (16 * length entries.now) into.old }
    ensures size { length into.new ≡ length into.old }
{
    encode_directory(entries, &mut into[..ENTRY_BYTES * entries.len()]);
}

// Reads a directory of `into.len()` entries from the first of the bytes. Returns `BadDirectory` if they encode none.
fn entries_in(bytes: &[u8], geometry: Geometry, into: &mut [Entry]) -> Result<(), BadImage>
    requires room { 16 * length into.old ≤ length bytes.now }
    requires log { geometry.log ≤ 4096 }
    ensures found { OnOk result (IsDirectory geometry into.new
        × (take (16 * length into.old) bytes.now ≡ directory_bytes into.new)) }
    ensures refused { IfErr result (λ e. (e ≡ BadImage.BadDirectory)
        × ((es : List Entry) → IsDirectory geometry es
        → take (16 * length into.old) bytes.now ≡ directory_bytes es → ⊥)) }
{
    decode_directory(&bytes[..ENTRY_BYTES * into.len()], geometry, into)
}

impl<'a> Log<'a> {
    // Writes a directory into the sectors from `at` on, through a buffer of zeros that has space for them.
    fn write_entries<D: Device>(
        &self,
        device: &mut D,
        at: u64,
        entries: &[Entry],
        zeros: &mut [u8],
    ) -> Result<(), Failed>
        requires zeros { zeros.old ≡ replicate (length zeros.old) 0 }
        requires few { length entries.now ≤ self.now.geometry.log }
        requires room { 512 * directory_length self.now.version (length entries.now) ≤ length zeros.old }
        requires inside { at + directory_length self.now.version (length entries.now) ≤ (D.disk device.old).sectors }
        ensures written { OnOk result (take (16 * length entries.now)
            (sectors_from (D.disk device.new).seen at (directory_length self.now.version (length entries.now)))
            ≡ directory_bytes entries.now) }
        ensures rest { OnOk result (drop (16 * length entries.now)
            (sectors_from (D.disk device.new).seen at (directory_length self.now.version (length entries.now)))
            ≡ replicate (512 * directory_length self.now.version (length entries.now) - 16 * length entries.now) 0) }
        ensures writes { WritesAt at (directory_length self.now.version (length entries.now))
            (D.disk device.old) (D.disk device.new) }
        ensures cause { Counts (D.disk device.old) (D.disk device.new) result }
    {
        let sectors = self.directory_length(entries.len());
        let run = &mut zeros[..SECTOR_SIZE * sectors];
        put_entries(entries, run);
        write_sectors(device, at, sectors, run)
    }

    /// Writes the directory of the half of a generation. After the last entry, the rest of the last sector is
    /// 0. All other sectors keep their bytes, and what a crash may leave in them doesn't change.
    ///
    /// It allocates nothing. If there are no entries it doesn't call the device. Returns `Failed` exactly if the
    /// device failed; then the sectors of the directory may hold any bytes.
    pub(crate) fn write_directory<D: Device>(
        &self,
        device: &mut D,
        generation: u64,
        entries: &[Entry],
    ) -> Result<(), Failed>
        requires few { length entries.now ≤ self.now.geometry.log }
        requires inside { self.now.total ≤ (D.disk device.old).sectors }
        ensures written { OnOk result
            (directory_in (D.disk device.new).seen self.now generation (length entries.now)
            ≡ directory_bytes entries.now) }
        ensures rest { OnOk result (drop (16 * length entries.now)
            (sectors_from (D.disk device.new).seen (directory_sector self.now generation)
            (directory_length self.now.version (length entries.now)))
            ≡ replicate (512 * directory_length self.now.version (length entries.now) - 16 * length entries.now) 0) }
        ensures writes { WritesAt (directory_sector self.now generation)
            (directory_length self.now.version (length entries.now)) (D.disk device.old) (D.disk device.new) }
        ensures untouched { length entries.now ≡ 0 → device.new ≡ device.old }
        ensures cause { Counts (D.disk device.old) (D.disk device.new) result }
    {
        if entries.is_empty() {
            return Ok(());
        }
        let at = self.directory_sector(generation);
        if self.directory_length(entries.len()) == 1 {
            return self.write_entries(device, at, entries, &mut [0; SECTOR_SIZE]);
        }
        self.write_entries(device, at, entries, &mut [0; MAX_BYTES])
    }

    /// Reads a directory of `into.len()` entries from the half of a generation. It allocates nothing. If there are no
    /// entries it doesn't call the device.
    ///
    /// Returns `Failed` exactly if the device failed, and `BadDirectory` exactly if the sectors encode no directory
    /// of this length. After either, `into` may hold any entries.
    pub(crate) fn read_directory<D: Device>(
        &self,
        device: &mut D,
        generation: u64,
        into: &mut [Entry],
    ) -> Result<(), OpenFault>
        requires few { length into.old ≤ self.now.geometry.log }
        requires inside { self.now.total ≤ (D.disk device.old).sectors }
        ensures found { OnOk result (IsDirectory self.now.geometry into.new
            × (directory_in (D.disk device.new).seen self.now generation (length into.old)
            ≡ directory_bytes into.new)) }
        ensures refused { IfErr result (λ e. IsBadDirectory self.now.geometry
            (directory_in (D.disk device.new).seen self.now generation (length into.old)) e) }
        ensures reads { ReadsOnly (D.disk device.old) (D.disk device.new) }
        ensures untouched { length into.old ≡ 0 → device.new ≡ device.old }
        ensures cause { CountsOpen (D.disk device.old) (D.disk device.new) result }
    {
        if into.is_empty() {
            return Ok(());
        }
        let at = self.directory_sector(generation);
        let mut bytes = [0; MAX_BYTES];
        let sectors = self.directory_length(into.len());
        let run = &mut bytes[..SECTOR_SIZE * sectors];
        read_sectors(device, at, sectors, run)?;
        entries_in(run, self.geometry(), into)?;
        Ok(())
    }
}
