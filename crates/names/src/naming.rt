// Adding names to a text.
ghost use Rattle.std.specs.Prelude.{◌≡◌, ◌++◌, ◌≤◌, ◌==◌, IfOk, OnOk, Some, length, option_map};
ghost use Rattle.std.specs.List.{ends_with, list_any};
ghost use Rattle.names.specs.Entries.{entries};
ghost use Rattle.names.specs.Texts.{behind, named_text, suffix_of};
ghost use Rattle.names.specs.Texts as texts;

use crate::table::Names;
use std::alloc::{AllocError, Global};

/// The words before an object's number in answers and explanations.
pub const TOLD: &[&[u8]] = &[
    b"page ",
    b"node ",
    b"process ",
    b"annex ",
    b"bank ",
    b"owner ",
    b"space ",
    b"start ",
    b"resume ",
];

/// The words before an object's number in a graph.
pub const DRAWN: &[&[u8]] = &[b"page ", b"node ", b"process ", b"annex ", b"bank "];

// Returns the index at which the digits at the end of a text begin.
#[tactic(auto, using(crate::proofs::Suffixes::one_more, crate::proofs::Suffixes::no_more, crate::proofs::Suffixes::none_left))]
fn digits_start(text: &[u8]) -> usize
    ensures start { result ≡ texts.digits_start text.now }
    ensures within { result ≤ length text.now }
{
    let mut start = text.len();
    while start > 0 && text[start - 1].is_ascii_digit() {
        start -= 1;
    }
    start
}

// Whether one of these words ends a text.
fn ends_with_one(text: &[u8], kinds: &[&[u8]]) -> bool
    ensures { result ≡ list_any (λ kind. ends_with (λ a b. a == b) text.now kind.now) kinds.now }
{
    kinds.iter().any(|kind| text.ends_with(kind))
}

// Whether a text begins with a digit.
fn begins_with_digit(text: &[u8]) -> bool
    ensures { result ≡ texts.begins_with_digit text.now }
{
    match text {
        [first, ..] => first.is_ascii_digit(),
        [] => false,
    }
}

// Appends a space, and the name in parentheses.
fn push_suffix(named: &mut Vec<u8>, name: &str) -> Result<(), AllocError>
    ensures { OnOk result (named.new.items ≡ named.old.items ++ suffix_of (Some name.now)) }
{
    named.extend_from_slice(b" (")?;
    named.extend_from_slice(name.as_bytes())?;
    named.extend_from_slice(b")")
}

// Returns the name to add between `before` and `after`, two parts of a text: that of the object whose
// number ends `before`. Returns `None` if there is none.
fn name_behind<'n>(
    names: &'n Names,
    kinds: &[&[u8]],
    before: &[u8],
    after: &[u8],
) -> Option<&'n str>
    ensures { suffix_of (option_map (λ t. t.now) result)
        ≡ behind kinds.now (entries names.entry.now) before.now after.now }
{
    if begins_with_digit(after) {
        return None;
    }
    let (front, digits) = before.split_at(digits_start(before));
    if !ends_with_one(front, kinds) {
        return None;
    }
    names.name_of(digits)
}

// Appends the name to add between `before` and `after`, two parts of a text, if there is one.
fn push_behind(
    names: &Names,
    kinds: &[&[u8]],
    before: &[u8],
    after: &[u8],
    named: &mut Vec<u8>,
) -> Result<(), AllocError>
    ensures { OnOk result (named.new.items ≡ named.old.items
        ++ behind kinds.now (entries names.now) before.now after.now) }
{
    match name_behind(names, kinds, before, after) {
        Some(name) => push_suffix(named, name),
        None => Ok(()),
    }
}

/// Returns a text with the name of each object added after its number. A number is an object's if it follows one
/// of the words `kinds`. Fails only if memory runs out.
pub fn name_objects(
    alloc: Global,
    names: &Names,
    kinds: &[&[u8]],
    text: &[u8],
) -> Result<Vec<u8>, AllocError>
    ensures { IfOk result (λ named. named.items
        ≡ named_text kinds.now (entries names.now) text.now) }
{
    let mut named = Vec::with_capacity(alloc, text.len())?;
    for (index, byte) in text.iter().enumerate() {
        named.push(*byte)?;
        let (before, after) = text.split_at(index + 1);
        push_behind(names, kinds, before, after, &mut named)?;
    }
    Ok(named)
}
