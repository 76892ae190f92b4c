// Writing the keys of a description with their values. Each function that writes fails only if memory runs out.
ghost use Rattle.std.specs.Prelude.{◌≡◌, ◌++◌, ◌==◌, Some, OnOk, decimal, string_bytes};
ghost use Rattle.std.specs.List.{All, list_all};
ghost use Rattle.description.specs.Described.{IsSpaceEntry};
ghost use Rattle.image_describer.specs.Text.{begin_line, field_line, list_text, list_unless_empty, number_unless};
ghost use Rattle.image_describer.specs.Text.{space_unless_void, state_value, wide_text, words_unless_zeros};

use crate::values::{Item, put_capability, put_items, put_wide, state_word};
use model::{Capability, State};
use std::alloc::AllocError;

/// Writes an empty line and the line that begins an object.
pub(crate) fn put_header(text: &mut String, name: &str) -> Result<(), AllocError>
    ensures { OnOk result (string_bytes text.new ≡ string_bytes text.old ++ begin_line name.now) }
{
    write!(text, "\n[[{name}]]\n")
}

/// Writes a key and a number.
pub(crate) fn put_number(text: &mut String, key: &str, number: u64) -> Result<(), AllocError>
    ensures { OnOk result (string_bytes text.new
        ≡ string_bytes text.old ++ field_line (key.now, Some (decimal number))) }
{
    writeln!(text, "{key} = {number}")
}

/// Writes a key and a number, unless the number is the default.
pub(crate) fn put_number_unless(
    text: &mut String,
    key: &str,
    default: u64,
    number: u64,
) -> Result<(), AllocError>
    ensures { OnOk result (string_bytes text.new
        ≡ string_bytes text.old ++ field_line (key.now, number_unless default number)) }
{
    if number == default {
        Ok(())
    } else {
        put_number(text, key, number)
    }
}

/// Writes a key and a number of 64 bits.
pub(crate) fn put_wide_number(text: &mut String, key: &str, number: u64) -> Result<(), AllocError>
    ensures { OnOk result (string_bytes text.new
        ≡ string_bytes text.old ++ field_line (key.now, Some (wide_text number))) }
{
    write!(text, "{key} = ")?;
    put_wide(text, number)?;
    text.push_str("\n")
}

/// Writes a key and a state.
pub(crate) fn put_state(text: &mut String, key: &str, state: State) -> Result<(), AllocError>
    ensures { OnOk result (string_bytes text.new
        ≡ string_bytes text.old ++ field_line (key.now, Some (state_value (Some state)))) }
{
    let word = state_word(state);
    writeln!(text, "{key} = \"{word}\"")
}

/// Writes a key and a list.
pub(crate) fn put_list<T: Item>(text: &mut String, key: &str, items: &[T]) -> Result<(), AllocError>
    requires { All T.MayBePut items.now }
    ensures { OnOk result (string_bytes text.new
        ≡ string_bytes text.old ++ field_line (key.now, Some (list_text T.text_of items.now))) }
{
    write!(text, "{key} = ")?;
    put_items(text, items)?;
    text.push_str("\n")
}

/// Writes a key and a list, unless the list is empty.
pub(crate) fn put_list_unless_empty<T: Item>(
    text: &mut String,
    key: &str,
    items: &[T],
) -> Result<(), AllocError>
    requires { All T.MayBePut items.now }
    ensures { OnOk result (string_bytes text.new
        ≡ string_bytes text.old ++ field_line (key.now, list_unless_empty T.text_of items.now)) }
{
    if items.is_empty() {
        Ok(())
    } else {
        put_list(text, key, items)
    }
}

// Whether all words are 0.
fn are_zeros(words: &[u64]) -> bool
    ensures { result ≡ list_all (λ w. w == 0) words.now }
{
    words.iter().all(|word| *word == 0)
}

/// Writes a key and the words of a process, unless all are 0.
pub(crate) fn put_words(text: &mut String, key: &str, words: &[u64; 4]) -> Result<(), AllocError>
    ensures { OnOk result (string_bytes text.new
        ≡ string_bytes text.old ++ field_line (key.now, words_unless_zeros words.now)) }
{
    if are_zeros(words.as_slice()) {
        Ok(())
    } else {
        put_list(text, key, words.as_slice())
    }
}

/// Writes a key and an address space, unless the space is void.
pub(crate) fn put_space(
    text: &mut String,
    key: &str,
    space: Option<Capability>,
) -> Result<(), AllocError>
    requires { IsSpaceEntry space }
    ensures { OnOk result (string_bytes text.new
        ≡ string_bytes text.old ++ field_line (key.now, space_unless_void space)) }
{
    match space {
        None => unreachable!(),
        Some(Capability::Void) => Ok(()),
        Some(space) => {
            write!(text, "{key} = \"")?;
            put_capability(text, space)?;
            text.push_str("\"\n")
        }
    }
}
