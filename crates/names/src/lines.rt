// Adding names to text that comes in pieces.
ghost use Rattle.std.specs.Prelude.{◌≡◌, ◌++◌, ◌≤◌, [], IfOk, OnOk, length};
ghost use Rattle.names.specs.Entries.{entries};
ghost use Rattle.names.specs.Output.{lines_end, named_lines, rest_of_lines};
ghost use Rattle.names.specs.Texts.{named_text};

use crate::naming::name_objects;
use crate::table::Names;
use std::alloc::{AllocError, Global};

/// Adds the name of each object after its number, in text that comes in pieces.
#[derive(Drop)]
pub struct NamedLines {
    names: Names,
    // The words that come before the number of an object.
    kinds: &'static [&'static [u8]],
    // The beginning of a line whose newline hasn't come yet.
    line: Vec<u8>,
    alloc: Global,
}

// Returns the index after the last newline of a text, or 0 if there is none.
#[tactic(auto, using(crate::proofs::Suffixes::one_in_line, crate::proofs::Suffixes::no_more_in_line, crate::proofs::Suffixes::none_left))]
fn lines_end(text: &[u8]) -> usize
    ensures end { result ≡ lines_end text.now }
    ensures within { result ≤ length text.now }
{
    let mut end = text.len();
    while end > 0 && text[end - 1] != b'\n' {
        end -= 1;
    }
    end
}

impl NamedLines {
    /// Returns a value that has no text yet. A number is an object's if it follows one of the words `kinds`.
    pub fn new(alloc: Global, names: Names, kinds: &'static [&'static [u8]]) -> NamedLines
        ensures names { result.names ≡ names }
        ensures kinds { result.kinds.now ≡ kinds.now }
        ensures line { result.line.items ≡ [] }
    {
        NamedLines {
            names,
            kinds,
            line: Vec::new(alloc),
            alloc,
        }
    }

    /// Makes a number that of an object after one of the words `kinds`, and after no other.
    pub(crate) fn set_kinds(&mut self, kinds: &'static [&'static [u8]])
        ensures names { self.new.names ≡ self.old.names }
        ensures kinds { self.new.kinds.now ≡ kinds.now }
        ensures line { self.new.line ≡ self.old.line }
    {
        self.kinds = kinds;
    }

    /// Adds a piece of text, and returns the lines that it completes, with names. Fails only if memory runs out.
    pub(crate) fn take(&mut self, text: &[u8]) -> Result<Vec<u8>, AllocError>
        ensures lines { IfOk result (λ named. named.items ≡ named_lines self.old (self.old.line.items ++ text.now)) }
        ensures rest { OnOk result (self.new.line.items ≡ rest_of_lines (self.old.line.items ++ text.now)) }
        ensures names { self.new.names ≡ self.old.names }
        ensures kinds { self.new.kinds ≡ self.old.kinds }
    {
        self.line.extend_from_slice(text)?;
        let (whole, rest) = self.line.as_slice().split_at(lines_end(&self.line));
        let named = name_objects(self.alloc, &self.names, self.kinds, whole)?;
        let rest = Vec::from_slice(self.alloc, rest)?;
        self.line = rest;
        Ok(named)
    }

    /// Returns the last line, which has no newline, with names. Fails only if memory runs out.
    pub(crate) fn end(&mut self) -> Result<Vec<u8>, AllocError>
        ensures named { IfOk result (λ named. named.items
            ≡ named_text self.old.kinds.now (entries self.old.names) self.old.line.items) }
        ensures line { OnOk result (self.new.line.items ≡ []) }
        ensures names { self.new.names ≡ self.old.names }
        ensures kinds { self.new.kinds ≡ self.old.kinds }
    {
        let named = name_objects(self.alloc, &self.names, self.kinds, &self.line)?;
        self.line.clear();
        Ok(named)
    }
}
