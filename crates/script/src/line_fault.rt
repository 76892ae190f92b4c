// Why a line of a script is bad.
ghost use Rattle.std.specs.Prelude.{◌≡◌, ◌≢◌, ℕ, ◌+◌, ◌<◌, ◌≤◌, ◌^◌, Bool, List, [], ◌∷◌, ◌++◌, IfSome, IfNone, IsTrue};
ghost use Rattle.std.specs.Prelude.{◌↔◌, if◌then◌else◌, length, decimal};
ghost use Rattle.std.specs.Str.Parse.{AllDigits};
ghost use Rattle.model.specs.Text.{Says, spaced};
ghost use Rattle.script.specs.LineFaults.{AreOperands, IsFaultOf, IsOperand, IsWordFault, Names, are_registers};
ghost use Rattle.script.specs.LineFaults.{line_fault_text};

use crate::keyword::{Keyword, keyword_of};
use crate::line_text::LineText;
use crate::parse::LONGEST_LINE;
use crate::words::Words;
use model::Line;

/// Why a line of a script is bad. Words have places from 1.
#[derive(Clone, Copy)]
pub enum LineFault {
    /// The line has more than 256 bytes.
    Long,
    /// The line has a carriage return.
    CarriageReturn,
    /// The line has a tab.
    Tab,
    /// The word at this place is empty: the line has two spaces side by side, or a space at its start or end.
    EmptyWord(u64),
    /// The line's first word names no command.
    NoCommand,
    /// The line has fewer words than its command needs, which is this number.
    FewWords(u64),
    /// The line has more words than its command has, which is this number.
    ManyWords(u64),
    /// The word at this place isn't a decimal number.
    NoNumber(u64),
    /// The number at this place has a leading zero.
    LeadingZero(u64),
    /// The number at this place is 2^64 or above.
    Great(u64),
    /// This number should name a register, but is above 31.
    NoRegister(u64),
}

impl LineFault {
    /// Appends a space and a text of the fault to a line.
    pub fn add_to(self, line: &mut LineText)
        requires { length line.old ≤ 200 }
        ensures text { line.new ≡ line.old ++ 32 ∷ line_fault_text self }
        ensures short { length line.new ≤ length line.old + 60 }
    {
        match self {
            LineFault::Long => line.word(b"more than 256 bytes"),
            LineFault::CarriageReturn => line.word(b"carriage return"),
            LineFault::Tab => line.word(b"tab"),
            LineFault::EmptyWord(place) => add_numbered(line, b"word", place, b"is empty"),
            LineFault::NoCommand => line.word(b"unknown command"),
            LineFault::FewWords(count) => add_number(line, b"fewer words than", count),
            LineFault::ManyWords(count) => add_number(line, b"more words than", count),
            LineFault::NoNumber(place) => add_numbered(line, b"word", place, b"is no number"),
            LineFault::LeadingZero(place) => {
                add_numbered(line, b"word", place, b"has a leading zero")
            }
            LineFault::Great(place) => {
                add_numbered(line, b"word", place, b"is above 18446744073709551615")
            }
            LineFault::NoRegister(number) => {
                add_numbered(line, b"register", number, b"is above 31")
            }
        }
    }
}

// Appends a space, a word, a space and a number.
fn add_number(line: &mut LineText, word: &[u8], number: u64)
    requires { length line.old + length word.now ≤ 290 }
    ensures text { line.new ≡ line.old ++ 32 ∷ spaced (word.now ∷ decimal number ∷ []) }
    ensures short { length line.new ≤ length line.old + length word.now + 22 }
{
    line.named(word, number);
}

// Appends a word, a number and another word, each after a space.
fn add_numbered(line: &mut LineText, word: &[u8], number: u64, more: &[u8])
    requires { length line.old + length word.now + length more.now ≤ 290 }
    ensures text { line.new ≡ line.old ++ 32 ∷ spaced (word.now ∷ decimal number ∷ more.now ∷ []) }
    ensures short { length line.new ≤ length line.old + length word.now + length more.now + 23 }
{
    line.named(word, number);
    line.word(more);
}

// Returns, for each word after a keyword, whether it must name a register.
fn operands(keyword: Keyword) -> &'static [bool]
    ensures { result.now ≡ are_registers keyword }
{
    match keyword {
        Keyword::Invoke(_) => &[
            false, true, false, false, false, false, true, true, true, true,
        ],
        Keyword::Store => &[false, false, false],
        Keyword::Load => &[false, false],
        Keyword::Show | Keyword::Evict | Keyword::Stabilize | Keyword::Migrate | Keyword::Journal =>
            &[false],
        Keyword::Checkpoint | Keyword::Commit | Keyword::Restart | Keyword::Cut => &[],
    }
}

// Whether each byte of a word is a digit.
#[tactic(auto, using(crate::proofs::LineFaults::digits_on))]
fn is_digits(word: &[u8]) -> bool
    ensures { IsTrue result ↔ AllDigits 10 word.now }
{
    for (index, byte) in word.iter().enumerate() {
        if !byte.is_ascii_digit() {
            return false;
        }
    }
    true
}

// Returns why a word isn't the decimal text of a number below 2^64. `place` is its place in the line.
#[tactic(auto, using(crate::proofs::LineFaults::zero_longer, crate::proofs::LineFaults::too_great))]
fn number_fault(word: &[u8], place: u64) -> LineFault
    requires { (n : ℕ) → n < 2 ^ 64 → word.now ≢ decimal n }
    ensures { (is_register : Bool) → IsWordFault word.now place is_register result }
{
    if word.is_empty() {
        return LineFault::EmptyWord(place);
    }
    if !is_digits(word) {
        return LineFault::NoNumber(place);
    }
    if word[0] == b'0' {
        return LineFault::LeadingZero(place);
    }
    LineFault::Great(place)
}

// Returns the greatest number that an operand may be.
fn greatest(is_register: bool) -> u64
    ensures { result + 1 ≡ (if is_register then 32 else 2 ^ 64) }
{
    if is_register { 31 } else { u64::MAX }
}

// Takes the next word, whose place in the line is `place`. Returns what is wrong with it, or `None`.
fn operand_fault(words: &mut Words<'_>, place: u64, is_register: bool) -> Option<LineFault>
    requires { words.old ≢ [] }
    ensures fault { IfSome result (λ why. (word : List ℕ) × (rest : List (List ℕ)) × (words.old ≡ word ∷ rest)
        × IsWordFault word place is_register why) }
    ensures none { IfNone result ((word : List ℕ) × (words.old ≡ word ∷ words.new) × IsOperand is_register word) }
{
    let mut ahead = words.copy();
    let word = match ahead.next() {
        Some(word) => word,
        None => unreachable!(),
    };
    match words.number() {
        None => Some(number_fault(word, place)),
        Some(number) => {
            let most = greatest(is_register);
            if number > most {
                return Some(LineFault::NoRegister(number));
            }
            None
        }
    }
}

// Returns the first fault of the words after a keyword, or `None`.
fn operands_fault(keyword: Keyword, words: &mut Words<'_>) -> Option<LineFault>
    ensures fault { IfSome result (λ why. (line : List ℕ) → Names line keyword words.old → IsFaultOf line why) }
    ensures none { IfNone result (AreOperands (are_registers keyword) words.old) }
{
    let registers = operands(keyword);
    let count = registers.len() as u64 + 1;
    for (index, is_register) in registers.iter().enumerate() {
        if words.is_empty() {
            return Some(LineFault::FewWords(count));
        }
        if let Some(fault) = operand_fault(words, index as u64 + 2, *is_register) {
            return Some(fault);
        }
    }
    let word = words.next()?;
    if word.is_empty() {
        Some(LineFault::EmptyWord(count + 1))
    } else {
        Some(LineFault::ManyWords(count))
    }
}

/// Returns a reason why a bad line is bad. It takes no memory.
#[tactic(auto, using(crate::proofs::LineFaults::not_bad))]
pub fn why_bad(line: &[u8]) -> LineFault
    requires { Says line.now Line.Bad }
    ensures { IsFaultOf line.now result }
{
    if line.len() > LONGEST_LINE {
        return LineFault::Long;
    }
    if line.contains(&b'\r') {
        return LineFault::CarriageReturn;
    }
    if line.contains(&b'\t') {
        return LineFault::Tab;
    }
    let mut words = Words::new(line);
    let first = match words.next() {
        Some(word) => word,
        None => unreachable!(),
    };
    if first.is_empty() {
        return LineFault::EmptyWord(1);
    }
    match keyword_of(first) {
        Some(keyword) => match operands_fault(keyword, &mut words) {
            Some(fault) => fault,
            None => unreachable!(),
        },
        None => LineFault::NoCommand,
    }
}
