// Writers that count their failures.
ghost use Rattle.std.specs.Prelude.{◌≡◌, ◌<◌, ◌≤◌, ◌+◌, [], length, take, IfOk, IfErr, OnErr, OnOk};
ghost use Rattle.std.specs.Io.Buffered.{writer_inner};
ghost use Rattle.std.specs.Io.KnownBytes.{Appends, Keeps};
ghost use Rattle.script.specs.CallErrors.{HasCause};
ghost use Rattle.script.specs.Counted.{counted_buffer, failed_writes, inner_writer, written_by};
ghost use Rattle.script.specs.Writing.{Writes};

use crate::fault::RunFault;
use crate::output::Output;
use crate::raw_writer::{RawBuffer, RawWriter};
use collections::Tally;
use std::alloc::Allocator;
use std::io::{BufWriter, ErrorKind, Write};

/// A writer without a buffer that counts its failed calls.
#[derive(Drop)]
pub struct CountedWriter<W> {
    inner: W,
    failures: Tally,
}

impl<W: RawWriter> CountedWriter<W> {
    /// Returns a writer to `inner` whose count of failures is 0.
    pub fn new(inner: W) -> CountedWriter<W>
        ensures inner { inner_writer result ≡ inner }
        ensures failures { failed_writes result ≡ 0 }
    {
        CountedWriter {
            inner,
            failures: Tally::new(),
        }
    }

    /// Returns the inner writer.
    pub fn get_ref(&self) -> &W
        ensures { result.now ≡ inner_writer self.now }
    {
        &self.inner
    }

    /// Returns the inner writer, and drops the count.
    pub fn into_inner(self) -> W
        ensures { result ≡ inner_writer self }
    {
        self.inner
    }

    // Counts one failed call, and returns the fault for it.
    fn fail(&mut self) -> RunFault
        ensures fault { result ≡ RunFault.Write }
        ensures inner { self.new.inner ≡ self.old.inner }
        ensures failures { self.new.failures.number ≡ self.old.failures.number + 1 }
    {
        self.failures = self.failures.next();
        RunFault::Write
    }

    // Writes at least the first byte of the text, and returns how many bytes it wrote. Repeats an interrupted
    // call.
    fn write_some(&mut self, text: &[u8]) -> Result<usize, RunFault>
        requires { 0 < length text.now }
        ensures count { IfOk result (λ n. (0 < n) × (n ≤ length text.now)) }
        ensures taken { IfOk result (λ n. Appends (W.held self.old.inner) (W.held self.new.inner) (take n text.now)) }
        ensures none_taken { OnErr result (Keeps (W.held self.old.inner) (W.held self.new.inner)) }
        ensures fault { IfErr result (λ e. e ≡ RunFault.Write) }
        ensures ok { OnOk result (self.new.failures.number ≡ self.old.failures.number) }
        ensures err { OnErr result (self.new.failures.number ≡ self.old.failures.number + 1) }
        ensures cause { HasCause (W.errors self.old.inner) (W.errors self.new.inner) result }
    {
        for tries in 0..u64::MAX {
            match self.inner.put(text) {
                Ok(0) => return Err(self.fail()),
                Ok(count) => return Ok(count),
                Err(error) => {
                    if error.kind() != ErrorKind::Interrupted {
                        return Err(self.fail());
                    }
                }
            }
        }
        Err(self.fail())
    }

    // Writes all of the text, with as many calls as the writer needs.
    #[tactic(auto, using(crate::proofs::Fronts::taken_all, crate::proofs::Fronts::took_more))]
    #[inline(never)]
    fn write_rest(&mut self, text: &[u8]) -> Result<(), RunFault>
        ensures written { Writes (written_by W.held self.old) (written_by W.held self.new) result text.now }
        ensures cause { HasCause (W.errors self.old.inner) (W.errors self.new.inner) result }
    {
        let mut done = 0;
        while done < text.len() {
            done += self.write_some(&text[done..])?;
        }
        Ok(())
    }
}

impl<W: RawWriter> Output for CountedWriter<W> {
    ghost written = { written_by W.held };

    ghost waiting = { λ _. [] };

    // Usually one call of the writer is enough.
    #[inline(always)]
    fn write_fully(&mut self, text: &[u8]) -> Result<(), RunFault>
        ensures written { Writes (written_by W.held self.old) (written_by W.held self.new) result text.now }
        ensures cause { HasCause (W.errors self.old.inner) (W.errors self.new.inner) result }
    {
        match self.inner.put(text) {
            Ok(count) => {
                if count == text.len() {
                    return Ok(());
                }
                if count == 0 {
                    return Err(self.fail());
                }
                self.write_rest(&text[count..])
            }
            Err(error) => {
                if error.kind() != ErrorKind::Interrupted {
                    return Err(self.fail());
                }
                self.write_rest(text)
            }
        }
    }

    fn pass_on(&mut self) -> Result<(), RunFault> {
        Ok(())
    }
}

/// A writer with a buffer that counts its failed calls.
#[derive(Drop)]
pub struct BufferedOutput<B: RawBuffer> {
    counted: CountedWriter<B>,
}

impl<W: Write + Drop, A: Allocator> BufferedOutput<BufWriter<W, A>> {
    /// Returns a writer to `buffer` whose count of failures is 0.
    pub fn new(buffer: BufWriter<W, A>) -> BufferedOutput<BufWriter<W, A>>
        ensures inner { inner_writer (counted_buffer result) ≡ buffer }
        ensures failures { failed_writes (counted_buffer result) ≡ 0 }
    {
        BufferedOutput {
            counted: CountedWriter::new(buffer),
        }
    }

    /// Returns the writer below the buffer.
    pub fn get_ref(&self) -> &W
        ensures { result.now ≡ writer_inner (inner_writer (counted_buffer self.now)) }
    {
        self.counted.inner.get_ref()
    }
}

impl<B: RawBuffer> Output for BufferedOutput<B> {
    ghost written = { λ b. written_by B.held b.counted };

    ghost waiting = { λ b. B.buffered b.counted.inner };

    #[inline(always)]
    fn write_fully(&mut self, text: &[u8]) -> Result<(), RunFault>
        ensures written { Writes (written_by B.held self.old.counted) (written_by B.held self.new.counted) result text.now }
        ensures cause { HasCause (B.errors self.old.counted.inner) (B.errors self.new.counted.inner) result }
    {
        self.counted.write_fully(text)
    }

    fn pass_on(&mut self) -> Result<(), RunFault>
        ensures bytes { Writes (written_by B.held self.old.counted) (written_by B.held self.new.counted) result [] }
        ensures none_waits { OnOk result (B.buffered self.new.counted.inner ≡ []) }
        ensures cause { HasCause (B.errors self.old.counted.inner) (B.errors self.new.counted.inner) result }
    {
        match self.counted.inner.pass() {
            Ok(()) => Ok(()),
            Err(_) => Err(self.counted.fail()),
        }
    }
}
