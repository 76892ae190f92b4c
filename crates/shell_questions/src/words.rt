// The words of a line as those of a command line.
ghost use Rattle.std.specs.Prelude.{◌≡◌, ◌++◌, ◌∷◌, [], IfErr, IfOk, OnOk};
ghost use Rattle.std.specs.List.{All};
ghost use Rattle.std.specs.Str.{IsUtf8};
ghost use Rattle.command_line.specs.Arguments.{texts_of};
ghost use Rattle.script.specs.Reading.{words_of};
ghost use Rattle.shell_questions.specs.Questions.{command_words};
ghost use Rattle.shell_questions.specs.declared.words.WordsFault.TheVariants.{NotText};

use names::Words;
use std::alloc::Global;

/// Why the words of a line are no command line.
#[derive(Clone, Copy)]
pub(crate) enum WordsFault {
    NoMemory,
    /// A word isn't text.
    NotText,
}

// What stands for the image. No word of a line has a space.
const IMAGE: &str = " ";

// Adds a word.
#[tactic(auto, using(crate::proofs::TypedWords::word_pushed))]
fn push<'l>(list: &mut Vec<&'l str>, word: &'l [u8]) -> Result<(), WordsFault>
    ensures pushed { OnOk result (texts_of list.new.items ≡ texts_of list.old.items ++ word.entry.now ∷ []) }
    ensures refused { IfErr result (λ e. e ≡ NotText → IsUtf8 word.entry.now → ⊥) }
{
    match str::from_utf8(word) {
        Ok(text) => match list.push(text) {
            Ok(()) => Ok(()),
            Err(_) => Err(WordsFault::NoMemory),
        },
        Err(_) => Err(WordsFault::NotText),
    }
}

// Adds words.
#[tactic(auto, using(crate::proofs::TypedWords::none_left))]
fn push_all<'l>(list: &mut Vec<&'l str>, words: &mut Words<'l>) -> Result<(), WordsFault>
    ensures pushed { OnOk result (texts_of list.new.items ≡ texts_of list.old.items ++ words.old) }
    ensures refused { IfErr result (λ e. e ≡ NotText → All IsUtf8 words.old → ⊥) }
{
    while let Some(word) = words.next() {
        if let Err(fault) = push(list, word) {
            return Err(fault);
        }
    }
    Ok(())
}

// Adds the name of the program, and the first word with the image after it.
#[tactic(auto, using(crate::proofs::TypedWords::word_pushed))]
fn begin<'l>(list: &mut Vec<&'l str>, words: &mut Words<'l>) -> Result<(), WordsFault>
    requires { list.old.items ≡ [] }
    ensures begun { OnOk result (texts_of list.new.items ++ words.new ≡ command_words words.old) }
    ensures rest { OnOk result (All IsUtf8 words.old → All IsUtf8 words.new) }
    ensures refused { IfErr result (λ e. e ≡ NotText → All IsUtf8 words.old → ⊥) }
{
    let Ok(()) = list.push("eros") else {
        return Err(WordsFault::NoMemory);
    };
    let Some(first) = words.next() else {
        return Ok(());
    };
    if let Err(fault) = push(list, first) {
        return Err(fault);
    }
    match list.push(IMAGE) {
        Ok(()) => Ok(()),
        Err(_) => Err(WordsFault::NoMemory),
    }
}

/// The words of a line as those of a command line: the name of the program comes first, and what stands for the image
/// after the first word. Fails if memory runs out, or a word isn't text.
pub(crate) fn command_words<'l>(alloc: Global, line: &'l [u8]) -> Result<Vec<&'l str>, WordsFault>
    ensures words { IfOk result (λ list. texts_of list.items ≡ command_words (words_of line.entry.now)) }
    ensures refused { IfErr result (λ e. e ≡ NotText → All IsUtf8 (words_of line.entry.now) → ⊥) }
{
    let mut words = Words::new(line);
    let mut list = Vec::new(alloc);
    match begin(&mut list, &mut words) {
        Ok(()) => match push_all(&mut list, &mut words) {
            Ok(()) => Ok(list),
            Err(fault) => Err(fault),
        },
        Err(fault) => Err(fault),
    }
}
