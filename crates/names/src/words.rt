// The words of a line.
ghost use Rattle.std.specs.Prelude.{◌≡◌, ◌==◌, ◌∷◌, [], MatchOption};
ghost use Rattle.std.specs.List.{position};
ghost use Rattle.script.specs.Reading.{words_of};

use std::marker::Model;

/// The words of a line that are left: what stands between its spaces.
#[derive(Drop)]
pub struct Words<'a> {
    rest: Option<&'a [u8]>,
}

impl<'a> Model for Words<'a> {
    ghost use Rattle.std.specs.Prelude.{ℕ, List, option_map};

    ghost Value = { List (List ℕ) };

    ghost use Rattle.script.specs.Reading.{words_left};

    ghost view = { λ w. words_left (option_map (λ r. r.now) w.rest) };
}

// Where the first space is.
fn first_space(bytes: &[u8]) -> Option<usize>
    ensures { result ≡ position (λ b. b == 32) bytes.now }
{
    bytes.iter().position(|byte| *byte == b' ')
}

impl<'a> Words<'a> {
    /// The words of a line.
    pub fn new(line: &'a [u8]) -> Self
        ensures { result ≡ words_of line.now }
    {
        Words { rest: Some(line) }
    }

    /// Takes the next word.
    #[tactic(auto, using(crate::proofs::Pieces::no_space, crate::proofs::Pieces::first_piece))]
    pub fn next(&mut self) -> Option<&'a [u8]>
        ensures { MatchOption result ((self.old ≡ []) × (self.new ≡ []))
            (λ w. self.old ≡ w.now ∷ self.new) }
    {
        let rest = self.rest?;
        match first_space(rest) {
            Some(end) => {
                self.rest = Some(&rest[end + 1..]);
                Some(&rest[..end])
            }
            None => {
                self.rest = None;
                Some(rest)
            }
        }
    }
}
