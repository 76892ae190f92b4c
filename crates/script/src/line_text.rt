// Lines that are assembled before they are written.
ghost use Rattle.std.specs.Prelude.{◌≡◌, ◌+◌, ◌*◌, ◌<◌, ◌≤◌, [], ◌∷◌, ◌++◌, length, decimal};
ghost use Rattle.std.specs.List.{flat_map};
ghost use Rattle.model.specs.Text.{access_text, capability_text, line_of, spaced};
ghost use Rattle.script.specs.Writing.{Writes};

use crate::fault::RunFault;
use crate::output::Output;
use bitflags::Flags;
use itoa::Buffer;
use model::{Access, Capability};
use std::marker::Model;

/// A line of text of at most 320 bytes that is assembled before it is written.
#[derive(Drop)]
pub struct LineText {
    bytes: [u8; 320],
    size: usize,
}

impl Model for LineText {
    ghost use Rattle.std.specs.Prelude.{ℕ, List, ◌≤◌, take};

    ghost Value = { List ℕ };

    ghost view = { λ t. take t.size t.bytes };

    ghost invariant = { λ t. t.size ≤ 320 };
}

impl LineText {
    /// Returns a line that begins with a word.
    pub fn new(word: &[u8]) -> Self
        requires { length word.now ≤ 320 }
        ensures { result ≡ word.now }
    {
        let mut line = LineText::empty();
        line.push(word);
        line
    }

    /// Returns an empty line.
    #[inline(always)]
    pub fn empty() -> Self
        ensures { result ≡ [] }
    {
        LineText {
            bytes: [0; 320],
            size: 0,
        }
    }

    /// Clears the line, then appends a word.
    #[inline(always)]
    pub fn begin(&mut self, first: &[u8])
        requires { length first.now ≤ 320 }
        ensures { self.new ≡ first.now }
    {
        self.size = 0;
        self.push(first);
    }

    /// Returns a line of a word, a space and a number.
    pub fn numbered(word: &[u8], number: u64) -> Self
        requires { length word.now ≤ 299 }
        ensures text { result ≡ spaced (word.now ∷ decimal number ∷ []) }
        ensures short { length result ≤ length word.now + 21 }
    {
        let mut line = LineText::new(word);
        line.number(number);
        line
    }

    /// Appends a text.
    pub fn push(&mut self, text: &[u8])
        requires { length self.old + length text.now ≤ 320 }
        ensures { self.new ≡ self.old ++ text.now }
    {
        let end = self.size + text.len();
        self.bytes[self.size..end].copy_from_slice(text);
        self.size = end;
    }

    // Appends a byte.
    #[inline(always)]
    fn byte(&mut self, byte: u8)
        requires { length self.old < 320 }
        ensures { self.new ≡ self.old ++ byte ∷ [] }
    {
        self.bytes[self.size] = byte;
        self.size += 1;
    }

    /// Appends a space and a word.
    pub fn word(&mut self, word: &[u8])
        requires { length self.old + length word.now < 320 }
        ensures { self.new ≡ self.old ++ 32 ∷ word.now }
    {
        self.byte(b' ');
        self.push(word);
    }

    /// Appends a space and a number.
    #[tactic(auto, using(crate::proofs::Texts::one_digit_text, crate::proofs::Texts::two_digits_text))]
    pub fn number(&mut self, number: u64)
        requires { length self.old + 21 ≤ 320 }
        ensures text { self.new ≡ self.old ++ 32 ∷ decimal number }
        ensures short { length self.new ≤ length self.old + 21 }
    {
        if number < 10 {
            self.byte(b' ');
            self.byte(b'0' + number as u8);
        } else if number < 100 {
            self.byte(b' ');
            self.byte(b'0' + (number / 10) as u8);
            self.byte(b'0' + (number % 10) as u8);
        } else {
            self.long_number(number);
        }
    }

    // Appends a space and a number of any length.
    #[inline(never)]
    fn long_number(&mut self, number: u64)
        requires { length self.old + 21 ≤ 320 }
        ensures text { self.new ≡ self.old ++ 32 ∷ decimal number }
        ensures short { length self.new ≤ length self.old + 21 }
    {
        let mut buffer = Buffer::new();
        self.word(buffer.format(number).as_bytes());
    }

    /// Appends the digits of a number.
    pub fn digits(&mut self, number: u64)
        requires { length self.old + 20 ≤ 320 }
        ensures text { self.new ≡ self.old ++ decimal number }
        ensures short { length self.new ≤ length self.old + 20 }
    {
        let mut buffer = Buffer::new();
        self.push(buffer.format(number).as_bytes());
    }

    /// Appends a space, a word, a space and a number.
    pub fn named(&mut self, word: &[u8], number: u64)
        requires { length self.old + length word.now + 22 ≤ 320 }
        ensures text { self.new ≡ (self.old ++ 32 ∷ word.now) ++ 32 ∷ decimal number }
        ensures short { length self.new ≤ length self.old + length word.now + 22 }
    {
        self.word(word);
        self.number(number);
    }

    /// Appends the numbers, each after a space.
    pub fn numbers(&mut self, numbers: &[u64])
        requires { length self.old + 21 * length numbers.now ≤ 320 }
        ensures text { self.new ≡ self.old ++ flat_map (λ n. 32 ∷ decimal n) numbers.now }
        ensures short { length self.new ≤ length self.old + 21 * length numbers.now }
    {
        for number in numbers {
            self.number(*number);
        }
    }

    // Appends ` ro` or ` weak` if the access is restricted.
    fn access(&mut self, access: Access)
        requires { length self.old ≤ 300 }
        ensures text { self.new ≡ self.old ++ access_text access }
        ensures short { length self.new ≤ length self.old + 5 }
    {
        if access == Access::READ_ONLY {
            self.push(b" ro");
        } else if !access.is_empty() {
            self.push(b" weak");
        }
    }

    /// Appends a space and the text of a capability.
    #[tactic(auto, using(std::proofs::Common::append_assoc), unfolding(model::specs::Text::capability_text))]
    pub fn capability(&mut self, capability: Capability)
        requires { length self.old ≤ 240 }
        ensures text { self.new ≡ self.old ++ 32 ∷ capability_text capability }
        ensures short { length self.new ≤ length self.old + 56 }
    {
        match capability {
            Capability::Void => self.word(b"void"),
            Capability::Number(number) => self.named(b"number", number),
            Capability::Page { object, access } => {
                self.named(b"page", object);
                self.access(access);
            }
            Capability::Node { object, access } => {
                self.named(b"node", object);
                self.access(access);
            }
            Capability::Space {
                object,
                height,
                access,
            } => {
                self.named(b"space", object);
                self.number(u64::from(height));
                self.access(access);
            }
            Capability::Process(process) => self.named(b"process", process),
            Capability::Start { process, key } => {
                self.named(b"start", process);
                self.number(u64::from(key));
            }
            Capability::Resume(process) => self.named(b"resume", process),
            Capability::Bank(bank) => self.named(b"bank", bank),
            Capability::Discrim => self.word(b"discrim"),
        }
    }

    /// The text so far.
    pub fn as_bytes(&self) -> &[u8]
        ensures { result.now ≡ self.now }
    {
        &self.bytes[..self.size]
    }

    /// Writes the line and a newline. Afterwards the line may hold any text.
    pub fn print<W: Output>(&mut self, writer: &mut W) -> Result<(), RunFault>
        requires { length self.old < 320 }
        ensures { Writes (W.written writer.old) (W.written writer.new) result (line_of self.old) }
    {
        self.byte(b'\n');
        writer.write_fully(&self.bytes[..self.size])
    }

    /// Writes the line and a newline.
    pub fn write_to<W: Output>(mut self, writer: &mut W) -> Result<(), RunFault>
        requires { length self < 320 }
        ensures { Writes (W.written writer.old) (W.written writer.new) result (line_of self) }
    {
        self.print(writer)
    }
}
