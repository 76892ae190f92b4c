// The lines that a shell reads.
ghost use Rattle.std.specs.Prelude.{◌≡◌, ◌+◌, ◌<◌, ◌∷◌, [], IfErr, IfOk, IsErr, IsTrue, MatchOption, OnErr, OnOk};
ghost use Rattle.std.specs.Prelude.{◌↔◌, length};
ghost use Rattle.runs.specs.KernelRuns.{IsCounted};
ghost use Rattle.runs.specs.Reader.{failed_reads, left_to_read, read_from};
ghost use Rattle.shell.specs.Lines.{IsKept, NoneAhead, Takes, ahead_of, lines_ahead};
ghost use Rattle.shell.specs.Served.{ReadsLine};

use crate::reading::{MOST, reading_of};
use arrayvec::ArrayVec;
use runs::{Piece, RawReader, Script, ScriptReader};
use script::{Output, RunFault};

// What ended a line.
#[derive(Clone, Copy)]
enum LineEnd {
    /// Its newline.
    Newline,
    /// The end of the input.
    Input,
}

/// The lines that a shell reads.
#[derive(Drop)]
pub struct TypedLines<R> {
    reader: ScriptReader<R>,
    // The part of the next line that was read already.
    line: ArrayVec<u8, MOST>,
}

// Whether the input ended before another line began.
fn is_last(end: LineEnd, line: &[u8]) -> bool
    ensures { IsTrue result ↔ ((end ≡ LineEnd.Input) × (line.now ≡ [])) }
{
    match end {
        LineEnd::Input => line.is_empty(),
        LineEnd::Newline => false,
    }
}

// Keeps a byte of a line if it is one of the first 257, else drops it.
fn keep(line: &mut ArrayVec<u8, MOST>, byte: u8)
    ensures { IsKept line.old.items byte line.new.items }
{
    if !line.is_full() {
        line.push(byte);
    }
}

// Reads the rest of a line; `line` has the part that was read already. Returns `RunFault::Read` if a read fails:
// then the line isn't finished.
#[tactic(auto, using(crate::proofs::ShellLines::none_read))]
fn read_line<R: RawReader, W: Output>(
    reader: &mut ScriptReader<R>,
    line: &mut ArrayVec<u8, MOST>,
    output: &W,
) -> Result<LineEnd, RunFault>
    requires { W.waiting output.now ≡ [] }
    ensures read { IfOk result (ReadsLine (lines_ahead line.old.items (R.rest (read_from reader.old)))
        (R.rest (read_from reader.new)) line.new.items) }
    ensures part { OnErr result (Takes (lines_ahead line.old.items (R.rest (read_from reader.old)))
        (lines_ahead line.new.items (R.rest (read_from reader.new))) []) }
    ensures fault { IfErr result (λ e. e ≡ RunFault.Read) }
    ensures cause { IsCounted (IsErr result) (failed_reads reader.old) (failed_reads reader.new) }
    ensures fewer { OnOk result (left_to_read reader.new + length line.new.items
        < left_to_read reader.old + length line.old.items) }
{
    loop {
        let mut byte = [0];
        match reader.read_piece(output, &mut byte)? {
            Piece::Bytes(1) => {
                if byte[0] == b'\n' {
                    return Ok(LineEnd::Newline);
                }
                keep(line, byte[0]);
            }
            Piece::Bytes(_) | Piece::Nothing => {}
            Piece::End => return Ok(LineEnd::Input),
        }
    }
}

impl<R: RawReader> TypedLines<R> {
    /// Returns the lines of the reader `inner`.
    pub fn new(inner: R) -> TypedLines<R>
        ensures failures { failed_reads result.reader ≡ 0 }
        ensures inner { read_from result.reader ≡ inner }
        ensures ahead { ahead_of R.rest result ≡ lines_ahead [] (R.rest inner) }
    {
        TypedLines {
            reader: ScriptReader::new(inner),
            line: ArrayVec::new(),
        }
    }

    /// Returns the next line, as a shell reads it, or `None` at the end of the input. Returns `RunFault::Read`
    /// if a read fails: then no line is taken.
    pub(crate) fn next<W: Output>(
        &mut self,
        output: &W,
    ) -> Result<Option<ArrayVec<u8, MOST>>, RunFault>
        requires { W.waiting output.now ≡ [] }
        ensures taken { IfOk result (λ line. MatchOption line
            (Takes (ahead_of R.rest self.old) (ahead_of R.rest self.new) [] × NoneAhead (ahead_of R.rest self.new))
            (λ l. Takes (ahead_of R.rest self.old) (ahead_of R.rest self.new) (l.items ∷ []))) }
        ensures part { OnErr result (Takes (ahead_of R.rest self.old) (ahead_of R.rest self.new) []) }
        ensures fault { IfErr result (λ e. e ≡ RunFault.Read) }
        ensures cause { IsCounted (IsErr result) (failed_reads self.old.reader) (failed_reads self.new.reader) }
        ensures fewer { OnOk result (left_to_read self.new.reader + length self.new.line.items
            < left_to_read self.old.reader + length self.old.line.items) }
    {
        let end = read_line(&mut self.reader, &mut self.line, output)?;
        let line = self.line.as_slice();
        if is_last(end, line) {
            return Ok(None);
        }
        let text = reading_of(line);
        self.line.clear();
        Ok(Some(text))
    }
}
