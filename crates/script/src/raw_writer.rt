// Writers with a contract for each call.
ghost use Rattle.std.specs.Prelude.{◌≡◌, ◌≢◌, ◌<◌, ℕ, List, [], Option, None, length, option_map, IfErr, IfOk, OnOk};
ghost use Rattle.std.specs.Prelude.{OnErr};
ghost use Rattle.std.specs.Io.{WritesAtMost};
ghost use Rattle.std.specs.Io.Buffered.{writer_buffer};
ghost use Rattle.std.specs.Io.KnownBytes.{Keeps, WriteAppends};
ghost use Rattle.std.specs.IoError.{error_kind};
ghost use Rattle.script.specs.CallErrors.{CallErrors, more_errors};

use std::alloc::Allocator;
use std::io::{self, BufWriter, ErrorKind, Write};

/// A writer. For some writers it is known which calls failed.
pub trait RawWriter {
    // The bytes that the writer holds, if they are known.
    ghost held: { Self → Option (List ℕ) };

    // The errors so far, if they are known.
    ghost errors: { Self → Option CallErrors };

    /// Writes as many of the first bytes as the writer accepts, by one call. Returns their number.
    fn put(&mut self, text: &[u8]) -> io::Result<usize>
        ensures bound { WritesAtMost result text.now }
        ensures bytes { WriteAppends (held self.old) (held self.new) result text.now }
        ensures took { IfOk result (λ n. 0 < n → errors self.new ≡ errors self.old) }
        ensures all { IfOk result (λ n. n ≡ length text.now → errors self.new ≡ errors self.old) }
        ensures nothing { IfOk result (λ n. n ≡ 0 → 0 < length text.now
            → errors self.new ≡ option_map (more_errors 1 0) (errors self.old)) }
        ensures interrupted { IfErr result (λ e. error_kind e ≡ ErrorKind.Interrupted
            → errors self.new ≡ option_map (more_errors 0 1) (errors self.old)) }
        ensures failed { IfErr result (λ e. error_kind e ≢ ErrorKind.Interrupted
            → errors self.new ≡ option_map (more_errors 1 0) (errors self.old)) };
}

/// A writer with a buffer.
pub trait RawBuffer: RawWriter {
    // The bytes that the buffer accepted but hasn't passed on.
    ghost buffered: { Self → List ℕ };

    /// Passes on all buffered bytes, by one call.
    fn pass(&mut self) -> io::Result<()>
        ensures bytes { Keeps (Self.held self.old) (Self.held self.new) }
        ensures none_waits { OnOk result (buffered self.new ≡ []) }
        ensures ok { OnOk result (Self.errors self.new ≡ Self.errors self.old) }
        ensures failed { OnErr result (Self.errors self.new ≡ option_map (more_errors 1 0) (Self.errors self.old)) };
}

/// The errors of this writer are unknown.
impl<W: Write> RawWriter for W {
    ghost held = { W.contents };

    ghost errors = { λ _. None };

    #[inline(always)]
    fn put(&mut self, text: &[u8]) -> io::Result<usize> {
        self.write(text)
    }
}

impl<W: Write + Drop, A: Allocator> RawBuffer for BufWriter<W, A> {
    ghost buffered = { writer_buffer };

    fn pass(&mut self) -> io::Result<()> {
        self.flush()
    }
}
