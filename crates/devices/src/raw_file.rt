// A file of the operating system, call by call.
ghost use Rattle.std.specs.Prelude.{◌≡◌, ◌≢◌, ◌<◌, List, [], ◌∷◌, Option, None, length, option_map, take};
ghost use Rattle.std.specs.Prelude.{IfErr, IfOk, OnOk, OnErr};
ghost use Rattle.std.specs.Io.{WritesAtMost};
ghost use Rattle.std.specs.IoError.{error_kind};
ghost use Rattle.devices.specs.CallErrors.{CallErrors, more_errors};
ghost use Rattle.devices.specs.RawCalls.{Adds, Call, took, kept};

use std::fs::File;
use std::io::{self, ErrorKind};
use std::os::unix::fs::FileExt;

/// A file of the operating system. Its successful calls are listed if they are known, and the errors of the
/// others counted. Each method is one call.
pub trait RawFile: Drop {
    // The successful calls, in order.
    ghost calls: { Self → Option (List Call) };

    // The errors so far.
    ghost errors: { Self → Option CallErrors } = { λ _. None };

    /// Writes the first bytes of `from` at the byte `at`, as many as the system takes. Returns how many.
    fn put(&mut self, at: u64, from: &[u8]) -> io::Result<usize>
        ensures bound { WritesAtMost result from.now }
        ensures ok { IfOk result (λ n. Adds (calls self.old) (calls self.new) (took at (take n from.now) ∷ [])) }
        ensures err { OnErr result (calls self.new ≡ calls self.old) }
        ensures took { IfOk result (λ n. 0 < n → errors self.new ≡ errors self.old) }
        ensures nothing { IfOk result (λ n. n ≡ 0 → 0 < length from.now
            → errors self.new ≡ option_map (more_errors 1 0) (errors self.old)) }
        ensures interrupted { IfErr result (λ e. error_kind e ≡ ErrorKind.Interrupted
            → errors self.new ≡ option_map (more_errors 0 1) (errors self.old)) }
        ensures failed { IfErr result (λ e. error_kind e ≢ ErrorKind.Interrupted
            → errors self.new ≡ option_map (more_errors 1 0) (errors self.old)) };

    /// Makes durable what was written.
    fn keep(&mut self) -> io::Result<()>
        ensures ok { OnOk result (Adds (calls self.old) (calls self.new) (kept ∷ [])) }
        ensures err { OnErr result (calls self.new ≡ calls self.old) }
        ensures went { OnOk result (errors self.new ≡ errors self.old) }
        ensures failed { OnErr result (errors self.new ≡ option_map (more_errors 1 0) (errors self.old)) };
}

/// The calls of a `File` are unknown: what it does is trusted.
impl RawFile for File {
    ghost calls = { λ _. None };

    ghost errors = { λ _. None };

    fn put(&mut self, at: u64, from: &[u8]) -> io::Result<usize> {
        self.write_at(from, at)
    }

    fn keep(&mut self) -> io::Result<()> {
        self.sync_data()
    }
}
