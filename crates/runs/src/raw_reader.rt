// Readers with a contract for each call.
ghost use Rattle.std.specs.Prelude.{◌≡◌, ◌≢◌, ℕ, List, Option, None, option_map, IfErr, OnOk};
ghost use Rattle.std.specs.Io.{ReadsAtMost};
ghost use Rattle.std.specs.Io.KnownBytes.{ReadConsumes};
ghost use Rattle.std.specs.IoError.{error_kind};
ghost use Rattle.script.specs.CallErrors.{CallErrors, more_errors};

use std::io::{self, ErrorKind, Read};

/// A reader. For some readers it is known which calls failed.
pub trait RawReader {
    // The bytes that the reader will still return, if they are known.
    ghost rest: { Self → Option (List ℕ) };

    // The errors so far, if they are known.
    ghost errors: { Self → Option CallErrors };

    /// Reads bytes into the front of `into`, as many as the reader returns in one call. Returns their number; 0 is
    /// the end.
    fn get(&mut self, into: &mut [u8]) -> io::Result<usize>
        ensures bound { ReadsAtMost result into.new }
        ensures bytes { ReadConsumes (rest self.old) (rest self.new) result into.new }
        ensures gave { OnOk result (errors self.new ≡ errors self.old) }
        ensures interrupted { IfErr result (λ e. error_kind e ≡ ErrorKind.Interrupted
            → errors self.new ≡ option_map (more_errors 0 1) (errors self.old)) }
        ensures failed { IfErr result (λ e. error_kind e ≢ ErrorKind.Interrupted
            → errors self.new ≡ option_map (more_errors 1 0) (errors self.old)) };
}

/// The errors of this reader are unknown.
impl<R: Read> RawReader for R {
    ghost rest = { R.remaining };

    ghost errors = { λ _. None };

    fn get(&mut self, into: &mut [u8]) -> io::Result<usize> {
        self.read(into)
    }
}
