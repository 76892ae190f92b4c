// A file of the system with a record of its calls.
ghost use Rattle.std.specs.Prelude.{◌≡◌, [], ◌∷◌, ◌++◌, Some, OnOk, OnErr};
ghost use Rattle.kernel_tests.specs.Recorded.{calls_of};

use devices::{Access, Lock, LockAnswer, Openable, RawFile};
use std::alloc::Global;
use std::fs::File;
use std::io::{self, ErrorKind};

/// A call, with its answer.
#[derive(Drop)]
pub enum Made {
    /// This path was opened.
    Opened(Vec<u8>, Access),
    /// This lock was requested, with this answer.
    Locked(Lock, LockAnswer),
    /// The file was synced.
    Synced,
    /// The length was read.
    Measured(u64),
    /// These bytes were read from this offset on.
    Got(u64, Vec<u8>),
    /// The file's length was set to this number of bytes.
    Resized(u64),
    /// The folder with this path was synced.
    Listed(Vec<u8>),
}

/// A file in which a device can be opened or made, with a record of the calls that do so. The device can't be
/// written.
#[derive(Drop)]
pub struct Recorded {
    alloc: Global,
    file: File,
    made: Vec<Made>,
}

impl Recorded {
    /// Returns the calls, in order.
    pub fn made(&self) -> &[Made]
        ensures { result.now ≡ self.now.made.items }
    {
        &self.made
    }

    // Appends a call to the record.
    fn note(&mut self, made: Made) -> io::Result<()>
        ensures ok { OnOk result (self.new.made.items ≡ self.old.made.items ++ made ∷ []) }
        ensures err { OnErr result (self.new.made.items ≡ self.old.made.items) }
    {
        self.made.push(made)?;
        Ok(())
    }
}

impl RawFile for Recorded {
    ghost calls = { λ _. Some [] };

    fn put(&mut self, _at: u64, _from: &[u8]) -> io::Result<usize> {
        Err(io::Error::from(ErrorKind::Unsupported))
    }

    fn keep(&mut self) -> io::Result<()> {
        Err(io::Error::from(ErrorKind::Unsupported))
    }
}

impl Openable for Recorded {
    ghost opening = { λ f. calls_of f.made.items };

    fn at(rt: &HostRuntime, path: &str, access: Access) -> io::Result<Recorded> {
        let alloc = rt.alloc();
        let mut file = Recorded {
            alloc,
            file: File::at(rt, path, access)?,
            made: Vec::new(alloc),
        };
        file.note(Made::Opened(path.as_bytes().to_vec(alloc)?, access))?;
        Ok(file)
    }

    fn lock(&mut self, lock: Lock) -> io::Result<LockAnswer> {
        let answer = Openable::lock(&mut self.file, lock)?;
        self.note(Made::Locked(lock, answer))?;
        Ok(answer)
    }

    fn sync(&mut self) -> io::Result<()> {
        self.file.sync()?;
        self.note(Made::Synced)
    }

    fn length(&mut self) -> io::Result<u64> {
        let bytes = self.file.length()?;
        self.note(Made::Measured(bytes))?;
        Ok(bytes)
    }

    fn get(&mut self, at: u64, into: &mut [u8]) -> io::Result<usize> {
        let count = self.file.get(at, into)?;
        let bytes = into[..count].to_vec(self.alloc)?;
        self.note(Made::Got(at, bytes))?;
        Ok(count)
    }

    fn resize(&mut self, bytes: u64) -> io::Result<()> {
        self.file.resize(bytes)?;
        self.note(Made::Resized(bytes))
    }

    fn sync_folder(&mut self, rt: &HostRuntime, path: &str) -> io::Result<()> {
        self.file.sync_folder(rt, path)?;
        let path = path.as_bytes().to_vec(self.alloc)?;
        self.note(Made::Listed(path))
    }
}
