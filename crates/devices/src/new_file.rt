// Makes a device in a new file.
ghost use Rattle.std.specs.Prelude.{◌≡◌, ◌<◌, ◌≤◌, ℕ, IfErr, IfOk, IfSome, replicate};
ghost use Rattle.device.specs.Calls.{Only};
ghost use Rattle.devices.specs.FileDevice.{file_disk, raw_file};
ghost use Rattle.devices.specs.OpeningCalls.{IsMade, IsUnmade, Mirrors};

use crate::fault::FileFault;
use crate::file_device::CopiedFile;
use crate::host_file::HostFile;
use crate::open::make_zeros;
use crate::openable::{Access, Openable};
use crate::sector_copy::SectorCopy;
use device::{MAX_SECTORS, SECTOR_SIZE};
use std::io;

/// Why no device was made in a new file.
#[derive(Drop)]
pub enum Unmade<F> {
    /// Memory ran out. No file was made.
    NoMemory,
    /// The system made no file, for example because something exists at the path.
    Refused(io::Error),
    /// The system made this file, but a later call failed, or another device is open in it.
    Unfinished(F, FileFault),
}

impl<F: Openable> CopiedFile<HostFile<F>> {
    /// As `create`, but only in a new file. If anything exists at `path`, even a link, it isn't changed: one
    /// call makes and opens the file.
    ///
    /// `NoMemory` if there is no memory for a copy of the file, `Refused` if the system doesn't make it: in
    /// both cases no file was made. `Unfinished` if it was made, but can't be locked, lengthened or synced.
    pub fn create_new(
        rt: &HostRuntime,
        path: &str,
        sectors: u64,
    ) -> Result<CopiedFile<HostFile<F>>, Unmade<F>>
        requires { sectors ≤ MAX_SECTORS }
        ensures opening { IfOk result (λ d. IfSome (F.opening (raw_file d))
            (λ calls. IsMade path.now Access.New sectors calls)) }
        ensures mirror { IfOk result (λ d. IfSome (F.opening (raw_file d)) (λ calls. Mirrors calls (file_disk d))) }
        ensures size { IfOk result (λ d. (file_disk d).sectors ≡ sectors) }
        ensures zeros { IfOk result (λ d. (i : ℕ) → i < sectors → (file_disk d).seen i ≡ replicate 512 0) }
        ensures durable { IfOk result (λ d. Only (file_disk d).seen (file_disk d)) }
        ensures failures { IfOk result (λ d. (file_disk d).failures ≡ 0) }
        ensures unmade { IfErr result (IsUnmade F.opening path.now sectors) }
    {
        let zeros = match SectorCopy::zeros(rt.alloc(), sectors as usize) {
            Ok(zeros) => zeros,
            Err(_) => return Err(Unmade::NoMemory),
        };
        let mut file = match F::at(rt, path, Access::New) {
            Ok(file) => file,
            Err(error) => return Err(Unmade::Refused(error)),
        };
        match make_zeros(rt, &mut file, path, sectors * SECTOR_SIZE as u64) {
            Ok(()) => Ok(CopiedFile::over(file, zeros)),
            Err(fault) => Err(Unmade::Unfinished(file, fault)),
        }
    }
}
