// Reading a line of a script in pieces.
ghost use Rattle.std.specs.Prelude.{◌≡◌, ◌↔◌, List, ℕ, [], ◌++◌, IfSome, IsTrue, option_map};
ghost use Rattle.script.specs.Lines.{Holds, IsTextOf};
ghost use Rattle.model.specs.Text.{Says};

use crate::parse::{LONGEST_LINE, parse_line};
use arrayvec::ArrayVec;
use model::Line;

/// The bytes of a line that were read so far. For a line of more than `LONGEST_LINE` bytes it only records that the
/// line is too long.
#[derive(Drop)]
pub struct LineBuffer {
    text: ArrayVec<u8, LONGEST_LINE>,
    is_long: bool,
}

impl LineBuffer {
    /// An empty line.
    pub fn new() -> Self
        ensures { Holds result [] }
    {
        LineBuffer {
            text: ArrayVec::new(),
            is_long: false,
        }
    }

    /// Whether no byte of the line was read.
    pub fn is_empty(&self) -> bool
        ensures { (line : List ℕ) → Holds self.now line → (IsTrue result ↔ (line ≡ [])) }
    {
        !self.is_long && self.text.is_empty()
    }

    /// Appends bytes to the line.
    pub fn extend(&mut self, bytes: &[u8])
        ensures { (line : List ℕ) → Holds self.old line → Holds self.new (line ++ bytes.now) }
    {
        if self.text.try_extend_from_slice(bytes).is_err() {
            self.is_long = true;
        }
    }

    /// Returns the bytes of the line, or `None` if there are more than 256.
    pub fn text(&self) -> Option<&[u8]>
        ensures text { (line : List ℕ) → Holds self.now line → IsTextOf (option_map (λ t. t.now) result) line }
        ensures held { IfSome result (λ t. Holds self.now t.now) }
    {
        if self.is_long {
            None
        } else {
            Some(self.text.as_slice())
        }
    }

    /// Parses the line, and returns what it contains.
    pub fn says(&self) -> Line
        ensures { (line : List ℕ) → Holds self.now line → Says line result }
    {
        if self.is_long {
            Line::Bad
        } else {
            parse_line(self.text.as_slice())
        }
    }

    /// Clears the buffer for another line.
    pub fn clear(&mut self)
        ensures { Holds self.new [] }
    {
        self.text.clear();
        self.is_long = false;
    }
}
