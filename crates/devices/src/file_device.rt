// A device in a file, with a copy of its sectors in memory.
ghost use Rattle.std.specs.Prelude.{◌≡◌, ◌<◌, ◌≤◌, ◌+◌, ◌*◌, ◌%◌, [], length, IfSome, IsOk, OnOk};
ghost use Rattle.device.specs.Calls.{Agrees, sectors_of, image_of, AreSectors, Narrows, Only, Counts};
ghost use Rattle.device.specs.Moments.{Elapses};
ghost use Rattle.devices.specs.Sound.{IsCopy};

use crate::host_file::HostFile;
use crate::raw_file::RawFile;
use crate::read_only::SharedDevice;
use crate::sector_copy::SectorCopy;
use crate::sector_file::SectorFile;
use device::{Device, Failed};
use std::fs::File;

/// A device in a file, and a copy of its sectors.
///
/// A read is answered from the copy and doesn't fail. A write goes to the file and to the copy. If the file
/// fails, the call returns `Failed`, and so does each later write and sync. Then open the file again.
#[derive(Drop)]
pub struct CopiedFile<F: SectorFile> {
    sectors: u64,
    // What a read returns.
    copy: SectorCopy,
    file: F,
    ghost sound: { IsCopy sectors copy (F.first file) (F.events file) },
}

/// A device in a file of the operating system.
pub type FileDevice = CopiedFile<HostFile<File>>;

impl<F: SectorFile> CopiedFile<F> {
    ghost use Rattle.devices.specs.FileDevice.{file_disk};

    /// A device in this file, which holds the bytes of `copy`. Nothing has been done to the file yet.
    #[tactic(auto, using(crate::proofs::Copies::fresh_only))]
    pub fn new(copy: SectorCopy, file: F) -> CopiedFile<F>
        requires few { sectors_of copy ≤ 131072 }
        requires first { F.first file ≡ copy }
        requires fresh { F.events file ≡ [] }
        ensures size { (file_disk result).sectors ≡ sectors_of copy }
        ensures seen { Agrees (file_disk result).seen (image_of copy) }
        ensures durable { Only (file_disk result).seen (file_disk result) }
        ensures failures { (file_disk result).failures ≡ F.failures file }
        ensures file { result.file ≡ file }
    {
        CopiedFile {
            sectors: copy.sectors() as u64,
            copy,
            file,
        }
    }

    /// The file of the device. No call may be made on it.
    pub fn file(&self) -> &F
        ensures { result.now ≡ self.now.file }
    {
        &self.file
    }
}

impl<F: RawFile> CopiedFile<HostFile<F>> {
    ghost use Rattle.devices.specs.FileDevice.{file_disk, raw_file};

    /// A device in this file, whose bytes are `copy` and durable. No device call has been made on
    /// the file.
    pub fn over(file: F, copy: SectorCopy) -> CopiedFile<HostFile<F>>
        requires few { sectors_of copy ≤ 131072 }
        requires fresh { IfSome (F.calls file) (λ calls. calls ≡ []) }
        ensures file { raw_file result ≡ file }
        ensures size { (file_disk result).sectors ≡ sectors_of copy }
        ensures seen { Agrees (file_disk result).seen (image_of copy) }
        ensures durable { Only (file_disk result).seen (file_disk result) }
        ensures failures { (file_disk result).failures ≡ 0 }
    {
        let file = HostFile::new(file, &copy);
        CopiedFile::new(copy, file)
    }
}

impl<F: SectorFile> Device for CopiedFile<F> {
    ghost use Rattle.devices.specs.FileDevice.{file_disk};
    ghost use Rattle.devices.specs.SoundLaws.{copy_seen_left};
    ghost use Rattle.devices.specs.PastLaws.{past_counts_now, past_only_now};

    ghost disk = { λ d. file_disk d };

    fn sectors(&self) -> u64 {
        self.sectors
    }

    /// Never fails.
    fn read(&mut self, at: u64, into: &mut [u8]) -> Result<(), Failed>
        requires whole { length into.old % 512 ≡ 0 }
        requires inside { at + sectors_of into.old ≤ (file_disk self.old).sectors }
        ensures ok { IsOk result }
        ensures same { self.new ≡ self.old }
        ensures bytes { OnOk result (AreSectors (file_disk self.new).seen at into.new) }
        ensures size { (file_disk self.new).sectors ≡ (file_disk self.old).sectors }
        ensures seen { Agrees (file_disk self.new).seen (file_disk self.old).seen }
        ensures crash { Narrows (file_disk self.old) (file_disk self.new) }
        ensures nothing_durable { Narrows (file_disk self.new) (file_disk self.old) }
        ensures time { Elapses (file_disk self.old) (file_disk self.new) }
        ensures cause { Counts (file_disk self.old) (file_disk self.new) result }
    {
        self.copy.get(at as usize, into);
        Ok(())
    }

    fn write(&mut self, at: u64, from: &[u8]) -> Result<(), Failed> {
        let answer = self.file.write(at, from);
        self.copy.put(at as usize, from);
        answer
    }

    fn sync(&mut self) -> Result<(), Failed> {
        self.file.sync()
    }

    /// Does nothing to the file: every byte is kept.
    fn power_cut(&mut self) {
        self.file.power_cut();
    }

    ghost seen_left = { λ d. copy_seen_left _ _ _ _ d.sound };

    ghost counts_now = { λ d t c. past_counts_now d.sectors (image_of (F.first d.file)) (F.events d.file) t c };

    ghost only_now = { λ d c. past_only_now d.sectors (image_of (F.first d.file)) (F.events d.file) c };

    ghost left_whole = { λ d t c left. left.3.whole };

    ghost few_sectors = { λ d. d.sound.few };
}

impl<F: SectorFile> SharedDevice for CopiedFile<F> {
    fn look(&self, at: u64, into: &mut [u8]) {
        let first = at as usize;
        self.copy.get(first, into);
    }
}
