// A script that is read from a reader.
ghost use Rattle.std.specs.Prelude.{◌≡◌, ◌<◌, ◌+◌, ◌-◌, ◌^◌, [], length, IsErr, OnOk};
ghost use Rattle.script.specs.CallErrors.{HasCause};
ghost use Rattle.runs.specs.KernelRuns.{IsCounted};
ghost use Rattle.runs.specs.Reader.{failed_reads, left_to_read, read_from};
ghost use Rattle.runs.specs.Taking.{LeavesFewer, ReadsPiece};

use crate::raw_reader::RawReader;
use crate::script_pieces::{Piece, Script};
use collections::Tally;
use script::{Output, RunFault};
use std::io::ErrorKind;

/// Reads a script from a reader, and counts failed reads. After 2^64 - 1 reads, every read fails.
#[derive(Drop)]
pub struct ScriptReader<R> {
    inner: R,
    left: u64,
    failures: Tally,
}

impl<R: RawReader> ScriptReader<R> {
    /// Returns a script that is read from `inner`, with a count of failures of 0.
    pub fn new(inner: R) -> ScriptReader<R>
        ensures inner { read_from result ≡ inner }
        ensures left { left_to_read result ≡ 2 ^ 64 - 1 }
        ensures failures { failed_reads result ≡ 0 }
    {
        ScriptReader {
            inner,
            left: u64::MAX,
            failures: Tally::new(),
        }
    }

    // Counts a failed read, and returns its fault.
    fn fail(&mut self) -> RunFault
        ensures fault { result ≡ RunFault.Read }
        ensures inner { self.new.inner ≡ self.old.inner }
        ensures left { self.new.left ≡ self.old.left }
        ensures failures { self.new.failures.number ≡ self.old.failures.number + 1 }
    {
        self.failures = self.failures.next();
        RunFault::Read
    }
}

impl<R: RawReader> Script for ScriptReader<R> {
    ghost unread = { λ s. R.rest s.inner };

    ghost failures = { failed_reads };

    ghost reads_left = { left_to_read };

    /// Reads a piece by one call of the reader. Returns `RunFault::Read` exactly if that call fails, or no read is
    /// left.
    fn read_piece<W: Output>(&mut self, _output: &W, piece: &mut [u8]) -> Result<Piece, RunFault>
        requires none_waits { W.waiting _output.now ≡ [] }
        requires room { 0 < length piece.old }
        ensures bytes { ReadsPiece (R.rest self.old.inner) (R.rest self.new.inner) piece.new result }
        ensures size { length piece.new ≡ length piece.old }
        ensures cause { IsCounted (IsErr result) (failed_reads self.old) (failed_reads self.new) }
        ensures fewer { OnOk result (left_to_read self.new < left_to_read self.old) }
        ensures before_end { LeavesFewer result (left_to_read self.old) (left_to_read self.new) }
        ensures left { left_to_read self.new ≡ left_to_read self.old - 1 }
        ensures errors { 0 < left_to_read self.old
            → HasCause (R.errors self.old.inner) (R.errors self.new.inner) result }
    {
        if self.left == 0 {
            return Err(self.fail());
        }
        self.left -= 1;
        match self.inner.get(piece) {
            Ok(0) => Ok(Piece::End),
            Ok(count) => Ok(Piece::Bytes(count)),
            Err(error) => {
                if error.kind() == ErrorKind::Interrupted {
                    Ok(Piece::Nothing)
                } else {
                    Err(self.fail())
                }
            }
        }
    }
}
