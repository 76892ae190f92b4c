// The words of a line.
ghost use Rattle.std.specs.Prelude.{◌≡◌, ◌==◌, [], ◌∷◌, MatchOption, IfSome, IfNone, IsSome, IsTrue, ◌↔◌, ◌<◌};
ghost use Rattle.std.specs.Prelude.{List, option_map, ℕ};
ghost use Rattle.std.specs.List.{position};
ghost use Rattle.script.specs.Keywords.{BeginsWith, IsCommon, keyword_name};
ghost use Rattle.script.specs.declared.keyword.Keyword.{Keyword};
ghost use Rattle.script.specs.Reading.{first_end, first_word, words_left, words_of, Gives, number_at, register_at};
ghost use Rattle.script.specs.Reading.{numbers_at, registers_at};

use crate::keyword::{Keyword, is_load, is_store, operation_in};
use crate::number::number_in_front;
use model::Register;
use std::marker::Model;

// Returns the index of the first space.
fn first_space(bytes: &[u8]) -> Option<usize>
    ensures { result ≡ position (λ b. b == 32) bytes.now }
{
    bytes.iter().position(|byte| *byte == b' ')
}

// Returns the text after the first word and its space, or `None` if there is no space. The first word
// ends at `end`.
#[tactic(auto, using(crate::proofs::Split::word_and_more, crate::proofs::Split::word_alone))]
fn behind_first(text: &[u8], end: usize) -> Option<&[u8]>
    requires { end ≡ first_end text.now }
    ensures { words_of text.now ≡ first_word text.now
        ∷ words_left (option_map (λ rest. rest.now) result) }
{
    if end < text.len() {
        Some(&text[end + 1..])
    } else {
        None
    }
}

/// Returns the register with this number, or `None` if the number is above 31.
#[inline(always)]
pub fn register_of(number: u64) -> Option<Register>
    ensures register { IfSome result (λ r. r ≡ number) }
    ensures some { IsSome result ↔ (number < 32) }
{
    match u8::try_from(number) {
        Ok(number) => Register::new(number),
        Err(_) => None,
    }
}

/// The words of a line that aren't taken yet.
#[derive(Drop)]
pub struct Words<'a> {
    rest: Option<&'a [u8]>,
}

impl<'a> Model for Words<'a> {
    ghost use Rattle.std.specs.Prelude.{ℕ, List, option_map};

    ghost Value = { List (List ℕ) };

    ghost use Rattle.script.specs.Reading.{words_left};

    ghost view = { λ w. words_left (option_map (λ r. r.now) w.rest) };
}

impl<'a> Words<'a> {
    /// Returns all words of a line.
    pub fn new(line: &'a [u8]) -> Self
        ensures { result ≡ words_of line.now }
    {
        Words { rest: Some(line) }
    }

    /// Returns a copy: taking words from it leaves the original.
    pub fn copy(&self) -> Words<'a>
        ensures { result ≡ self.now }
    {
        Words { rest: self.rest }
    }

    /// Whether no word is left.
    #[tactic(auto, using(crate::proofs::Split::some_word))]
    pub fn is_empty(&self) -> bool
        ensures { IsTrue result ↔ (self.now ≡ []) }
    {
        self.rest.is_none()
    }

    /// Takes the next word.
    #[tactic(auto, using(crate::proofs::Split::no_space, crate::proofs::Split::first_piece))]
    pub fn next(&mut self) -> Option<&'a [u8]>
        ensures { MatchOption result ((self.old ≡ []) × (self.new ≡ []))
            (λ w. self.old ≡ w.now ∷ self.new) }
    {
        let rest = self.rest?;
        match first_space(rest) {
            Some(end) => {
                self.rest = Some(&rest[end + 1..]);
                Some(&rest[..end])
            }
            None => {
                self.rest = None;
                Some(rest)
            }
        }
    }

    /// Takes the next word if it is `load`, `store` or an operation, and the line is long enough for its numbers.
    /// Most lines begin with these words. Otherwise takes nothing and returns `None`.
    #[inline(always)]
    pub fn common_keyword(&mut self) -> Option<Keyword>
        ensures taken { IfSome result (λ k. self.old ≡ keyword_name k ∷ self.new) }
        ensures kept { IfNone result (self.new ≡ self.old) }
        ensures none { IfNone result ((line : List ℕ) (k : Keyword) (least : ℕ) → self.old ≡ words_of line
            → IsCommon k least → BeginsWith (keyword_name k) least line → ⊥) }
    {
        let line = self.rest?;
        if is_load(line) {
            self.rest = Some(&line[5..]);
            return Some(Keyword::Load);
        }
        if is_store(line) {
            self.rest = Some(&line[6..]);
            return Some(Keyword::Store);
        }
        let named = operation_in(line)?;
        self.rest = Some(&line[named.next..]);
        Some(Keyword::Invoke(named.operation))
    }

    /// Takes the next word as a number.
    #[inline(always)]
    #[tactic(auto, unfolding(crate::specs::Reading::number_at))]
    pub fn number(&mut self) -> Option<u64>
        ensures { Gives result self.new (number_at self.old) }
    {
        let rest = self.rest?;
        // Most numbers have one digit.
        if let [digit, space, more @ ..] = rest {
            if *space == b' ' && digit.is_ascii_digit() {
                self.rest = Some(more);
                return Some(u64::from(*digit - b'0'));
            }
        }
        if let [digit] = rest {
            if digit.is_ascii_digit() {
                self.rest = None;
                return Some(u64::from(*digit - b'0'));
            }
        }
        let front = number_in_front(rest)?;
        self.rest = behind_first(rest, front.size);
        Some(front.number)
    }

    /// Takes the next word as the number of a register.
    #[inline(always)]
    #[tactic(auto, unfolding(crate::specs::Reading::register_at))]
    pub fn register(&mut self) -> Option<Register>
        ensures { Gives result self.new (register_at self.old) }
    {
        register_of(self.number()?)
    }

    /// Takes the next four words as numbers.
    #[tactic(auto, unfolding(crate::specs::Reading::numbers_at))]
    pub fn numbers(&mut self) -> Option<[u64; 4]>
        ensures { Gives result self.new (numbers_at self.old) }
    {
        Some([
            self.number()?,
            self.number()?,
            self.number()?,
            self.number()?,
        ])
    }

    /// Takes the next four words as the numbers of registers.
    #[tactic(auto, unfolding(crate::specs::Reading::registers_at))]
    pub fn registers(&mut self) -> Option<[Register; 4]>
        ensures { Gives result self.new (registers_at self.old) }
    {
        Some([
            self.register()?,
            self.register()?,
            self.register()?,
            self.register()?,
        ])
    }
}
