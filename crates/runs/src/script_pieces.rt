// Where a run reads its script.
ghost use Rattle.std.specs.Prelude.{◌≡◌, ◌<◌, ℕ, List, [], Option, length, IsErr};
ghost use Rattle.runs.specs.KernelRuns.{IsCounted};
ghost use Rattle.runs.specs.Taking.{LeavesFewer, ReadsPiece};

use script::{Output, RunFault};

/// The result of a read.
#[derive(Clone, Copy)]
pub enum Piece {
    /// The number of bytes that were read.
    Bytes(usize),
    /// The input has ended.
    End,
    /// Nothing was read: the read was interrupted.
    Nothing,
}

/// A script that is read in pieces. A piece is read only after the answers to the earlier ones are passed on.
pub trait Script {
    // The bytes still to be read, if they are known.
    ghost unread: { Self → Option (List ℕ) };

    // How many reads failed.
    ghost failures: { Self → ℕ };

    // The most reads that can still succeed before the end.
    ghost reads_left: { Self → ℕ };

    /// Reads a piece. No answer may wait in `output`, so whoever writes the script has received them all.
    /// Returns `RunFault::Read` if reading fails; only then the count of failures rises.
    fn read_piece<W: Output>(&mut self, output: &W, piece: &mut [u8]) -> Result<Piece, RunFault>
        requires none_waits { W.waiting output.now ≡ [] }
        requires room { 0 < length piece.old }
        ensures bytes { ReadsPiece (unread self.old) (unread self.new) piece.new result }
        ensures size { length piece.new ≡ length piece.old }
        ensures cause { IsCounted (IsErr result) (failures self.old) (failures self.new) }
        ensures fewer { LeavesFewer result (reads_left self.old) (reads_left self.new) };
}
