// Lines with numbers in the place of names.
ghost use Rattle.std.specs.Prelude.{◌≡◌, ◌++◌, IfErr, IfOk, IsSomeAnd, None, OnOk, decimal, false, true};
ghost use Rattle.names.specs.Entries.{entries};
ghost use Rattle.names.specs.Numbered.{IfUnknown, after_command, after_word, are_known, is_known, numbered_word, numbered_words};
ghost use Rattle.names.specs.Numbered as numbered;
ghost use Rattle.names.specs.Table.{number_at};
ghost use Rattle.names.specs.declared.numbering.Place.TheVariants.{Command};
ghost use Rattle.script.specs.Reading.{words_of};

use crate::name::is_name;
use crate::table::Names;
use crate::words::Words;
use itoa::Buffer;
use std::alloc::Global;

/// Where a word of a line stands.
#[derive(Clone, Copy)]
enum Place {
    /// It is the command.
    Command,
    /// It may be the number of an object, and no later word may.
    One,
    /// It and each later word may be one.
    All,
    /// It isn't the number of an object.
    Plain,
}

/// Why a line has no numbers in the place of names.
#[derive(Clone, Copy)]
pub enum Unnumbered<'l> {
    NoMemory,
    /// This word is no name of an object.
    Unknown(&'l [u8]),
}

// Whether it is a command that begins with the number of an object or a process.
fn takes_one(word: &[u8]) -> bool
    ensures { result ≡ numbered.takes_one word.now }
{
    word == b"show".as_slice()
        || word == b"call".as_slice()
        || word == b"return".as_slice()
        || word == b"send".as_slice()
        || word == b"load".as_slice()
        || word == b"store".as_slice()
        || word == b"evict".as_slice()
        || word == b"journal".as_slice()
}

// Whether it is a question with any count of them.
fn takes_all(word: &[u8]) -> bool
    ensures { result ≡ numbered.takes_all word.now }
{
    word == b"reach".as_slice() || word == b"draw".as_slice()
}

// Whether a comment begins in a word.
fn has_comment(word: &[u8]) -> bool
    ensures { result ≡ numbered.has_comment word.now }
{
    word.iter().any(|byte| *byte == b'#')
}

// What may stand after the command.
fn after_command(word: &[u8]) -> Place
    ensures { result ≡ after_command word.now }
{
    if takes_one(word) {
        Place::One
    } else if takes_all(word) {
        Place::All
    } else {
        Place::Plain
    }
}

impl Place {
    // What may stand after a word there.
    fn after(self, word: &[u8]) -> Place
        ensures { result ≡ after_word self word.now }
    {
        if word.is_empty() {
            return self;
        }
        match self {
            Place::Command => after_command(word),
            Place::All => {
                if has_comment(word) {
                    Place::Plain
                } else {
                    Place::All
                }
            }
            Place::One | Place::Plain => Place::Plain,
        }
    }

    // Whether a name may stand there.
    fn takes_name(self) -> bool
        ensures { result ≡ numbered.takes_name self }
    {
        match self {
            Place::One | Place::All => true,
            Place::Command | Place::Plain => false,
        }
    }
}

// Adds bytes.
fn push<'l>(line: &mut Vec<u8>, bytes: &[u8]) -> Result<(), Unnumbered<'l>>
    ensures pushed { OnOk result (line.new.items ≡ line.old.items ++ bytes.now) }
    ensures fault { IfErr result (λ e. e ≡ Unnumbered.NoMemory) }
{
    match line.extend_from_slice(bytes) {
        Ok(()) => Ok(()),
        Err(_) => Err(Unnumbered::NoMemory),
    }
}

// Adds the number of a name.
fn push_number<'l>(names: &Names, name: &'l [u8], line: &mut Vec<u8>) -> Result<(), Unnumbered<'l>>
    ensures pushed { OnOk result (IsSomeAnd (number_at (entries names.now) name.entry.now)
        (λ n. line.new.items ≡ line.old.items ++ decimal n)) }
    ensures unknown { IfErr result (λ e. IfUnknown e (λ w. (w ≡ name.entry.now)
        × (number_at (entries names.now) name.entry.now ≡ None))) }
{
    let Some(number) = names.number_of(name) else {
        return Err(Unnumbered::Unknown(name));
    };
    let mut buffer = Buffer::new();
    push(line, buffer.format(number).as_bytes())
}

// Adds a word, or the number of the name that it is.
fn push_word<'l>(
    names: &Names,
    place: Place,
    word: &'l [u8],
    line: &mut Vec<u8>,
) -> Result<(), Unnumbered<'l>>
    ensures pushed { OnOk result (line.new.items ≡ line.old.items ++ numbered_word (entries names.now) place word.entry.now) }
    ensures known { OnOk result (is_known (entries names.now) place word.entry.now ≡ true) }
    ensures unknown { IfErr result (λ e. IfUnknown e (λ w. (w ≡ word.entry.now)
        × (is_known (entries names.now) place word.entry.now ≡ false))) }
{
    if place.takes_name() && is_name(word) {
        push_number(names, word, line)
    } else {
        push(line, word)
    }
}

/// A line with the number of each object in the place of its name, and a space after each word. A name may stand after a
/// command that takes an object's number, and among the words of a question. Fails if memory runs out, or for the first
/// word there that is no number and no name of an object.
#[tactic(auto, using(crate::proofs::TypedNames::unknown_told, crate::proofs::TypedNames::memory_told, crate::proofs::TypedNames::all_numbered, crate::proofs::TypedNames::all_known))]
pub fn number_objects<'l>(
    alloc: Global,
    names: &Names,
    line: &'l [u8],
) -> Result<Vec<u8>, Unnumbered<'l>>
    ensures numbered { IfOk result (λ text. text.items ≡ numbered_words (entries names.now) Command (words_of line.entry.now)) }
    ensures known { IfOk result (λ text. are_known (entries names.now) Command (words_of line.entry.now) ≡ true) }
    ensures unknown { IfErr result (λ e. IfUnknown e (λ w. are_known (entries names.now) Command (words_of line.entry.now) ≡ false)) }
{
    let mut words = Words::new(line);
    let mut place = Place::Command;
    let mut numbered = Vec::new(alloc);
    while let Some(word) = words.next() {
        if let Err(fault) = push_word(names, place, word, &mut numbered) {
            return Err(fault);
        }
        if let Err(fault) = push(&mut numbered, b" ") {
            return Err(fault);
        }
        place = place.after(word);
    }
    Ok(numbered)
}
