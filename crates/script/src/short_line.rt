// Short lines that are assembled before they are written.
ghost use Rattle.std.specs.Prelude.{◌≡◌, ◌+◌, ◌<◌, ◌≤◌, [], ◌∷◌, ◌++◌, length, decimal};
ghost use Rattle.model.specs.Text.{line_of};
ghost use Rattle.script.specs.Writing.{Writes};

use crate::fault::RunFault;
use crate::output::Output;
use itoa::Buffer;
use std::marker::Model;

/// A line of text of at most 60 bytes that is assembled before it is written. Clearing it takes less time than
/// clearing a `LineText`.
#[derive(Drop)]
pub struct ShortLine {
    bytes: [u8; 60],
    size: usize,
}

impl Model for ShortLine {
    ghost use Rattle.std.specs.Prelude.{ℕ, List, ◌≤◌, take};

    ghost Value = { List ℕ };

    ghost view = { λ t. take t.size t.bytes };

    ghost invariant = { λ t. t.size ≤ 60 };
}

impl ShortLine {
    /// Returns an empty line.
    #[inline(always)]
    pub fn empty() -> Self
        ensures { result ≡ [] }
    {
        ShortLine {
            bytes: [0; 60],
            size: 0,
        }
    }

    /// Appends a text.
    #[inline(always)]
    pub fn push(&mut self, text: &[u8])
        requires { length self.old + length text.now ≤ 60 }
        ensures { self.new ≡ self.old ++ text.now }
    {
        let end = self.size + text.len();
        self.bytes[self.size..end].copy_from_slice(text);
        self.size = end;
    }

    // Appends a byte.
    #[inline(always)]
    fn byte(&mut self, byte: u8)
        requires { length self.old < 60 }
        ensures { self.new ≡ self.old ++ byte ∷ [] }
    {
        self.bytes[self.size] = byte;
        self.size += 1;
    }

    /// Appends a space and a number.
    #[tactic(auto, using(crate::proofs::Texts::one_digit_text))]
    #[inline(always)]
    pub fn number(&mut self, number: u64)
        requires { length self.old + 21 ≤ 60 }
        ensures text { self.new ≡ self.old ++ 32 ∷ decimal number }
        ensures short { length self.new ≤ length self.old + 21 }
    {
        if number < 10 {
            self.byte(b' ');
            self.byte(b'0' + number as u8);
        } else {
            self.long_number(number);
        }
    }

    // Appends a space and a number of any length.
    #[inline(never)]
    fn long_number(&mut self, number: u64)
        requires { length self.old + 21 ≤ 60 }
        ensures text { self.new ≡ self.old ++ 32 ∷ decimal number }
        ensures short { length self.new ≤ length self.old + 21 }
    {
        let mut buffer = Buffer::new();
        self.byte(b' ');
        self.push(buffer.format(number).as_bytes());
    }

    /// Writes the line and a newline. Afterwards the line may hold any text.
    #[inline(always)]
    pub fn print<W: Output>(&mut self, writer: &mut W) -> Result<(), RunFault>
        requires { length self.old < 60 }
        ensures { Writes (W.written writer.old) (W.written writer.new) result (line_of self.old) }
    {
        self.byte(b'\n');
        writer.write_fully(&self.bytes[..self.size])
    }
}
