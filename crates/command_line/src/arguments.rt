// Reading arguments from clap's matches.
ghost use Rattle.std.specs.Prelude.{◌≡◌, IfSome, IsNone, IfOk, Some, codes, map};
ghost use Rattle.std.specs.List.{All};
ghost use Rattle.clap.specs.Words.{IsUnsignedIn, found_of, rows_of};
ghost use Rattle.command_line.specs.Arguments.{AreNumbersIfAny, GivesNoNumber, GivesNoNumbers, IsFlag};
ghost use Rattle.command_line.specs.Arguments.{IsNumber, IsOption, number_of, texts_of};
ghost use Rattle.command_line.specs.Commands.{greatest_number};

use clap::ArgMatches;
use std::alloc::{AllocError, Global};

// Returns the number in a word, or `None` if the word isn't a number from `least` to `most`.
fn number_in(word: &str, least: u64, most: u64) -> Option<u64>
    ensures named { IfSome result (IsNumber least most word.now) }
    ensures none { IsNone result → IsUnsignedIn least most word.now → ⊥ }
{
    match word.parse::<u64>() {
        Ok(number) if least <= number && number <= most => Some(number),
        _ => None,
    }
}

// Returns the number that an option gives, `Some(None)` if the option is missing, or `None` if its word isn't a
// number from `least` to `most`.
#[tactic(auto, using(crate::proofs::Getters::missing))]
pub(crate) fn option_of(
    inner: &ArgMatches<'_>,
    name: &str,
    least: u64,
    most: u64,
) -> Option<Option<u64>>
    ensures named { IfSome result (IsOption (rows_of (found_of inner.now)) name.now least most) }
    ensures none { IsNone result → GivesNoNumber (rows_of (found_of inner.now)) name.now least most }
{
    match inner.get_str(name) {
        Some(word) => {
            let number = number_in(word, least, most)?;
            Some(Some(number))
        }
        None => Some(None),
    }
}

// Returns the numbers in these words, in their order, or `None` if a word isn't a number. Fails if memory runs
// out.
pub(crate) fn numbers_in(alloc: Global, words: &[&str]) -> Result<Option<Vec<u64>>, AllocError>
    ensures named { IfOk result (λ o. IfSome o (λ numbers. numbers.items ≡ map number_of (texts_of words.now)
        × All (IsUnsignedIn 0 greatest_number) (texts_of words.now))) }
    ensures none { IfOk result (λ o. IsNone o → All (IsUnsignedIn 0 greatest_number) (texts_of words.now) → ⊥) }
{
    let mut numbers = Vec::with_capacity(alloc, words.len())?;
    for word in words {
        match number_in(word, 0, u64::MAX) {
            Some(number) => numbers.push(number)?,
            None => return Ok(None),
        }
    }
    Ok(Some(numbers))
}

// Returns the numbers that an argument gives, in their order; an empty list if it is missing; or `None` if a word
// isn't a number. Fails if memory runs out.
pub(crate) fn numbers_of(
    alloc: Global,
    inner: &ArgMatches<'_>,
    name: &str,
) -> Result<Option<Vec<u64>>, AllocError>
    ensures named { IfOk result (λ o. IfSome o (λ numbers.
        AreNumbersIfAny (rows_of (found_of inner.now)) name.now numbers.items)) }
    ensures none { IfOk result (λ o. IsNone o → GivesNoNumbers (rows_of (found_of inner.now)) name.now) }
{
    match inner.get_raw(name) {
        Some(words) => numbers_in(alloc, words),
        None => Ok(Some(Vec::new(alloc))),
    }
}

// Whether a flag is given.
#[tactic(auto, using(crate::proofs::Getters::missing, crate::proofs::Getters::unflagged))]
pub(crate) fn flag_of(inner: &ArgMatches<'_>, name: &str) -> bool
    ensures { IsFlag (rows_of (found_of inner.now)) name.now result }
{
    match inner.get_str(name) {
        Some(word) => word == "true",
        None => false,
    }
}
