// A text in memory, as a script.
ghost use Rattle.std.specs.Prelude.{◌≡◌, [], length, Some};

use runs::{Piece, Script};
use script::{Output, RunFault};

/// A text in memory, as a script. No read fails.
#[derive(Drop)]
pub struct TextScript<'a> {
    rest: &'a [u8],
}

impl TextScript<'_> {
    /// Returns a script with this text.
    pub fn new(text: &[u8]) -> TextScript<'_>
        ensures { result.rest.now ≡ text.now }
    {
        TextScript { rest: text }
    }
}

impl Script for TextScript<'_> {
    ghost use Rattle.std.specs.Prelude.{Some, length};

    ghost unread = { λ s. Some s.rest.now };

    ghost failures = { λ s. 0 };

    ghost reads_left = { λ s. length s.rest.now };

    fn read_piece<W: Output>(&mut self, _output: &W, piece: &mut [u8]) -> Result<Piece, RunFault> {
        let count = self.rest.len().min(piece.len());
        if count == 0 {
            return Ok(Piece::End);
        }
        piece[..count].copy_from_slice(&self.rest[..count]);
        self.rest = &self.rest[count..];
        Ok(Piece::Bytes(count))
    }
}
