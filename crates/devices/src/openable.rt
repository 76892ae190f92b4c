// A file in which a device can be opened or made, call by call.
ghost use Rattle.std.specs.Prelude.{◌≡◌, ◌≢◌, ◌<◌, ◌↔◌, ℕ, List, [], ◌∷◌, Option, None, take, length, option_map};
ghost use Rattle.std.specs.Prelude.{IfErr, IfOk, IfSome, IsOk, IsErrOf, OnOk, OnErr};
ghost use Rattle.std.specs.Io.{ReadsAtMost};
ghost use Rattle.std.specs.IoError.{error_kind};
ghost use Rattle.devices.specs.CallErrors.{more_errors};
ghost use Rattle.devices.specs.OpeningCalls.{OpeningCall, opened, locked, synced, measured, got, resized, listed};
ghost use Rattle.devices.specs.RawCalls.{Adds};

use crate::raw_file::RawFile;
use std::fs::{File, OpenOptions, TryLockError};
use std::io::{self, ErrorKind, Seek, SeekFrom};
use std::os::unix::fs::FileExt;
use std::path::Path;

/// What a file is opened for.
#[derive(Clone, Copy, PartialEq, Eq, Debug)]
pub enum Access {
    /// To read. The file must exist.
    Read,
    /// To read and write. The file must exist.
    Write,
    /// To read and write. If the file doesn't exist, it is made.
    Create,
    /// To read and write. Nothing may exist at the path, not even a link; the file is made.
    New,
}

/// A lock on a whole file.
#[derive(Clone, Copy, Debug)]
pub enum Lock {
    /// No other lock is on the file.
    Exclusive,
    /// Each other lock on the file is shared too.
    Shared,
}

/// The answer to a request for a lock.
#[derive(Clone, Copy, Debug)]
pub enum LockAnswer {
    /// The lock is taken.
    Granted,
    /// Another open file holds a lock that excludes it.
    Held,
    /// The system doesn't lock this file.
    Unavailable,
}

/// A file in which a device can be opened or made. Its calls and their answers are listed if they are known.
/// Each method is one call.
pub trait Openable: RawFile {
    // The calls so far, in order.
    ghost opening: { Self → Option (List OpeningCall) };

    /// Opens the file at `path`.
    fn at(rt: &HostRuntime, path: &str, access: Access) -> io::Result<Self>
    where
        Self: Sized,
        ensures opened { IfOk result (λ file. IfSome (opening file) (λ calls. calls ≡ opened path.now access ∷ [])) }
        ensures fresh { IfOk result (λ file. IfSome (Self.calls file) (λ calls. calls ≡ [])) };

    /// Requests a lock without waiting.
    fn lock(&mut self, lock: Lock) -> io::Result<LockAnswer>
        ensures ok { IfOk result (λ answer. Adds (opening self.old) (opening self.new) (locked lock answer ∷ [])) }
        ensures err { OnErr result (opening self.new ≡ opening self.old) }
        ensures calls { Self.calls self.new ≡ Self.calls self.old }
        ensures went { OnOk result (Self.errors self.new ≡ Self.errors self.old) }
        ensures failed { OnErr result (Self.errors self.new ≡ option_map (more_errors 1 0) (Self.errors self.old)) };

    /// Makes durable all that was done to the file.
    fn sync(&mut self) -> io::Result<()>
        ensures ok { OnOk result (Adds (opening self.old) (opening self.new) (synced ∷ [])) }
        ensures err { OnErr result (opening self.new ≡ opening self.old) }
        ensures calls { Self.calls self.new ≡ Self.calls self.old }
        ensures went { OnOk result (Self.errors self.new ≡ Self.errors self.old) }
        ensures failed { OnErr result (Self.errors self.new ≡ option_map (more_errors 1 0) (Self.errors self.old)) };

    /// The number of bytes in the file.
    fn length(&mut self) -> io::Result<u64>
        ensures ok { IfOk result (λ n. Adds (opening self.old) (opening self.new) (measured n ∷ [])) }
        ensures err { OnErr result (opening self.new ≡ opening self.old) }
        ensures calls { Self.calls self.new ≡ Self.calls self.old }
        ensures went { OnOk result (Self.errors self.new ≡ Self.errors self.old) }
        ensures failed { OnErr result (Self.errors self.new ≡ option_map (more_errors 1 0) (Self.errors self.old)) };

    /// Reads bytes of the file from the byte `at` on into the front of `into`, as many as the
    /// system gives.
    fn get(&mut self, at: u64, into: &mut [u8]) -> io::Result<usize>
        ensures bound { ReadsAtMost result into.new }
        ensures ok { IfOk result (λ n. Adds (opening self.old) (opening self.new) (got at (take n into.new) ∷ [])) }
        ensures err { OnErr result (opening self.new ≡ opening self.old) }
        ensures calls { Self.calls self.new ≡ Self.calls self.old }
        ensures gave { IfOk result (λ n. 0 < n → Self.errors self.new ≡ Self.errors self.old) }
        ensures nothing { IfOk result (λ n. n ≡ 0 → 0 < length into.old
            → Self.errors self.new ≡ option_map (more_errors 1 0) (Self.errors self.old)) }
        ensures interrupted { IfErr result (λ e. error_kind e ≡ ErrorKind.Interrupted
            → Self.errors self.new ≡ option_map (more_errors 0 1) (Self.errors self.old)) }
        ensures failed { IfErr result (λ e. error_kind e ≢ ErrorKind.Interrupted
            → Self.errors self.new ≡ option_map (more_errors 1 0) (Self.errors self.old)) };

    /// Cuts the file to this number of bytes, or adds zeros up to it.
    fn resize(&mut self, bytes: u64) -> io::Result<()>
        ensures ok { OnOk result (Adds (opening self.old) (opening self.new) (resized bytes ∷ [])) }
        ensures err { OnErr result (opening self.new ≡ opening self.old) }
        ensures calls { Self.calls self.new ≡ Self.calls self.old }
        ensures went { OnOk result (Self.errors self.new ≡ Self.errors self.old) }
        ensures failed { OnErr result (Self.errors self.new ≡ option_map (more_errors 1 0) (Self.errors self.old)) };

    /// Syncs the folder of `path`, so that the file's name there is durable, if the system lets that folder
    /// be opened.
    fn sync_folder(&mut self, rt: &HostRuntime, path: &str) -> io::Result<()>
        ensures ok { OnOk result (Adds (opening self.old) (opening self.new) (listed path.now ∷ [])) }
        ensures err { OnErr result (opening self.new ≡ opening self.old) }
        ensures calls { Self.calls self.new ≡ Self.calls self.old }
        ensures went { OnOk result (Self.errors self.new ≡ Self.errors self.old) }
        ensures failed { OnErr result (Self.errors self.new ≡ option_map (more_errors 1 0) (Self.errors self.old)) };
}

// The answer to a request for a lock.
fn answer_of(answer: Result<(), TryLockError>) -> LockAnswer
    ensures granted { (result ≡ LockAnswer.Granted) ↔ IsOk answer }
    ensures held { (result ≡ LockAnswer.Held) ↔ IsErrOf answer TryLockError.WouldBlock }
{
    match answer {
        Ok(()) => LockAnswer::Granted,
        Err(TryLockError::WouldBlock) => LockAnswer::Held,
        Err(TryLockError::Error(_)) => LockAnswer::Unavailable,
    }
}

/// The calls of a `File` are unknown: what it does is trusted.
impl Openable for File {
    ghost opening = { λ _. None };

    fn at(rt: &HostRuntime, path: &str, access: Access) -> io::Result<File> {
        OpenOptions::new()
            .read(true)
            .write(access != Access::Read)
            .create(access == Access::Create)
            .create_new(access == Access::New)
            .open(rt, path)
    }

    fn lock(&mut self, lock: Lock) -> io::Result<LockAnswer> {
        Ok(answer_of(match lock {
            Lock::Exclusive => self.try_lock(),
            Lock::Shared => self.try_lock_shared(),
        }))
    }

    fn sync(&mut self) -> io::Result<()> {
        self.sync_all()
    }

    fn length(&mut self) -> io::Result<u64> {
        self.seek(SeekFrom::End(0))
    }

    fn get(&mut self, at: u64, into: &mut [u8]) -> io::Result<usize> {
        self.read_at(into, at)
    }

    fn resize(&mut self, bytes: u64) -> io::Result<()> {
        self.set_len(bytes)
    }

    fn sync_folder(&mut self, rt: &HostRuntime, path: &str) -> io::Result<()> {
        let folder = match Path::new(path).parent() {
            Some(folder) if !folder.as_os_str().is_empty() => folder,
            _ => Path::new("."),
        };
        match File::open(rt, folder) {
            Ok(folder) => folder.sync_all(),
            Err(_) => Ok(()),
        }
    }
}
