// A table of names by number.
ghost use Rattle.std.specs.Prelude.{◌≡◌, ◌≢◌, ◌==◌, ◌++◌, ◌∷◌, [], ◌<◌, ◌^◌, ℕ, IfErr, IfOk, MatchOption, OnOk, option_map, pos};
ghost use Rattle.std.specs.List.{list_any};
ghost use Rattle.names.specs.Entries.{entries};
ghost use Rattle.names.specs.Refused.{Adds, CannotAdd, IsRefused};
ghost use Rattle.names.specs.Table.{AreNamesOf, name_at, number_at};
ghost use Rattle.names.specs.Table as names;
ghost use Rattle.toml.specs.Data.{integer};
ghost use Rattle.toml.specs.View.{table_view, view};

use crate::name::{Name, is_name};
use itoa::Buffer;
use std::alloc::{AllocError, Global};
use toml::{Table, Value};

/// A table of names by number.
#[derive(Drop)]
pub struct Names {
    entries: Vec<Name>,
}

/// Why no names are read from a table.
#[derive(Clone, Copy)]
pub enum NamesFault<'t> {
    NoMemory,
    /// The key isn't a name.
    NotName(&'t str),
    /// The value at the key isn't a number.
    NotNumber(&'t str),
    /// The value at this key is a number that has another name already.
    Twice(&'t str),
}

// Returns a value as a number, or `None` if it isn't an integer or is negative.
#[tactic(auto, using(crate::proofs::Tables::natural, crate::proofs::Tables::negative, crate::proofs::Tables::no_integer))]
fn number_in(value: &Value) -> Option<u64>
    ensures { MatchOption result ((n : ℕ) → n < 2 ^ 63 → view value.now ≢ integer (pos n))
        (λ n. (n < 2 ^ 63) × (view value.now ≡ integer (pos n))) }
{
    match value.as_integer() {
        Some(number) => {
            if number.is_negative() {
                return None;
            }
            Some(number.unsigned_abs())
        }
        None => None,
    }
}

// Whether a number has a name.
fn has_number(entries: &[Name], number: u64) -> bool
    ensures { result ≡ list_any (λ n. n.number == number) entries.now }
{
    entries.iter().any(|name| name.number == number)
}

// Whether these digits are the decimal text of a number.
fn writes(number: u64, digits: &[u8]) -> bool
    ensures { result ≡ names.writes number digits.now }
{
    let mut buffer = Buffer::new();
    buffer.format(number).as_bytes() == digits
}

impl Names {
    /// Returns a table without names.
    pub fn none(alloc: Global) -> Names
        ensures { entries result ≡ [] }
    {
        Names {
            entries: Vec::new(alloc),
        }
    }

    /// Returns the names, in the order of the table that they were read from.
    pub fn entries(&self) -> &[Name]
        ensures { result.now ≡ entries self.now }
    {
        self.entries.as_slice()
    }

    // Adds a name. Fails only if memory runs out.
    fn push(&mut self, name: Name) -> Result<(), AllocError>
        ensures { OnOk result (entries self.new ≡ entries self.old ++ name ∷ []) }
    {
        self.entries.push(name)?;
        Ok(())
    }

    // Adds the name in a key and its value. If that fails, nothing is added.
    #[tactic(auto, using(crate::proofs::Tables::added))]
    fn add<'t>(&mut self, alloc: Global, key: &'t str, value: &Value) -> Result<(), NamesFault<'t>>
        ensures added { OnOk result (Adds key.entry.now (view value.now) (entries self.old) (entries self.new)) }
        ensures refused { IfErr result (CannotAdd key.entry.now (view value.now) (entries self.old)) }
    {
        if !is_name(key.as_bytes()) {
            return Err(NamesFault::NotName(key));
        }
        let Some(number) = number_in(value) else {
            return Err(NamesFault::NotNumber(key));
        };
        if has_number(&self.entries, number) {
            return Err(NamesFault::Twice(key));
        }
        let Ok(text) = String::from_str(alloc, key) else {
            return Err(NamesFault::NoMemory);
        };
        let Ok(()) = self.push(Name { number, text }) else {
            return Err(NamesFault::NoMemory);
        };
        Ok(())
    }

    /// Reads a table of names: each key is a name, and its value the number. Fails if memory runs out, if a key
    /// isn't a name, if a value isn't a number, or if a number occurs twice.
    #[tactic(auto, using(crate::proofs::Tables::none_read, crate::proofs::Tables::all_read))]
    pub fn read<'t>(alloc: Global, table: &'t Table) -> Result<Names, NamesFault<'t>>
        ensures names { IfOk result (λ names. AreNamesOf (table_view table.entry.now) (entries names)) }
        ensures refused { IfErr result (IsRefused (table_view table.entry.now)) }
    {
        let mut names = Names::none(alloc);
        'keys: for (key, value) in table.iter() {
            if let Err(fault) = names.add(alloc, key.as_str(), value) {
                return Err(fault);
            }
        }
        Ok(names)
    }

    /// Returns the name of the number with these decimal digits, or `None`.
    pub fn name_of(&self, digits: &[u8]) -> Option<&str>
        ensures { option_map (λ t. t.now) result ≡ name_at (entries self.now) digits.now }
    {
        match self.entries.iter().find(|name| writes(name.number, digits)) {
            Some(name) => Some(name.text.as_str()),
            None => None,
        }
    }

    /// Returns the number with this name, or `None`.
    pub fn number_of(&self, text: &[u8]) -> Option<u64>
        ensures { result ≡ number_at (entries self.now) text.now }
    {
        match self
            .entries
            .iter()
            .find(|name| name.text.as_bytes() == text)
        {
            Some(name) => Some(name.number),
            None => None,
        }
    }
}
