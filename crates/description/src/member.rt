// Reading the values at the keys of a table.
ghost use Rattle.std.specs.Prelude.{◌≡◌, IsTrue, Some, map, option_map};
ghost use Rattle.std.specs.List.{list_any};
ghost use Rattle.model.specs.declared.capability.Capability.TheVariants.{Void};
ghost use Rattle.toml.specs.Data.{get_member, same_key};
ghost use Rattle.toml.specs.View.{table_view, view};
ghost use Rattle.description.specs.Outcomes.{IsMisfit, IsStranger, Reads};
ghost use Rattle.description.specs.Reading.{At, AtOr, IsCapability, IsNumber, IsState, IsWideNumber, has_only};
ghost use Rattle.description.specs.Shapes.{first_unknown, key_name};

use crate::place::{Flaw, Key, Misread, ShapePlace, TableName, misfit};
use crate::value::{capability_at, number_of, state_at, wide_number_of};
use model::{Capability, State};
use toml::{Table, Value};

// Whether a key is one of `known`.
fn is_among(key: &str, known: &[&str]) -> bool
    ensures { result ≡ list_any (same_key key.now) (map (λ k. k.now) known.now) }
{
    known.contains(&key)
}

// Returns the first key of a table that isn't one of `known`, or `None`.
fn unknown_key<'a>(table: &'a Table, known: &[&str]) -> Option<&'a str>
    ensures { option_map (λ k. k.now) result ≡ first_unknown (map (λ k. k.now) known.now) (table_view table.entry.now) }
{
    'keys: for (key, _) in table.iter() {
        if !is_among(key.as_str(), known) {
            return Some(key.as_str());
        }
    }
    None
}

// Fails if a table has a key that isn't one of `known`.
pub(crate) fn check_keys<'a>(
    table: &'a Table,
    name: TableName,
    known: &[&str],
) -> Result<(), Misread<'a>>
    ensures { Reads (λ _. IsTrue (has_only (map (λ k. k.now) known.now) (table_view table.entry.now)))
        (IsStranger name (map (λ k. k.now) known.now) (table_view table.entry.now))
        result }
{
    match unknown_key(table, known) {
        None => Ok(()),
        Some(key) => Err(Misread::Misshapen(ShapePlace {
            table: name,
            flaw: Flaw::Unknown(key),
        })),
    }
}

/// Returns the value at a key of a table, or `None`.
pub fn member<'a>(table: &'a Table, key: &str) -> Option<&'a Value>
    ensures { option_map (λ v. view v.now) result ≡ get_member key.now (table_view table.now) }
{
    table.get(key)
}

// Returns the value at a key of a table, or `None`.
pub(crate) fn member_at<'a>(table: &'a Table, key: Key) -> Option<&'a Value>
    ensures { option_map (λ v. view v.now) result ≡ get_member (key_name key) (table_view table.now) }
{
    member(table, key.name())
}

// Reads the number at a key.
pub(crate) fn number<'a>(table: &Table, name: TableName, key: Key) -> Result<u64, Misread<'a>>
    ensures { Reads (At (key_name key) IsNumber (table_view table.now))
        (IsMisfit name key (At (key_name key) IsNumber (table_view table.now))) result }
{
    match member_at(table, key) {
        Some(value) => match number_of(value) {
            Some(said) => Ok(said),
            None => Err(misfit(name, key)),
        },
        None => Err(misfit(name, key)),
    }
}

// Reads the number of 64 bits at a key.
pub(crate) fn wide_number<'a>(table: &Table, name: TableName, key: Key) -> Result<u64, Misread<'a>>
    ensures { Reads (At (key_name key) IsWideNumber (table_view table.now))
        (IsMisfit name key (At (key_name key) IsWideNumber (table_view table.now))) result }
{
    match member_at(table, key) {
        Some(value) => match wide_number_of(value) {
            Some(said) => Ok(said),
            None => Err(misfit(name, key)),
        },
        None => Err(misfit(name, key)),
    }
}

// Reads the number at a key, or returns the default if the key is missing.
#[tactic(auto, using(crate::proofs::Keyed::defaulted))]
pub(crate) fn number_or<'a>(
    table: &Table,
    name: TableName,
    key: Key,
    default: u64,
) -> Result<u64, Misread<'a>>
    ensures { Reads (AtOr default (key_name key) IsNumber (table_view table.now))
        (IsMisfit name key (AtOr default (key_name key) IsNumber (table_view table.now))) result }
{
    match member_at(table, key) {
        Some(value) => match number_of(value) {
            Some(said) => Ok(said),
            None => Err(misfit(name, key)),
        },
        None => Ok(default),
    }
}

// Reads the state at a key. The state is `None` if the text isn't a state's.
pub(crate) fn state<'a>(
    table: &Table,
    name: TableName,
    key: Key,
) -> Result<Option<State>, Misread<'a>>
    ensures { Reads (At (key_name key) IsState (table_view table.now))
        (IsMisfit name key (At (key_name key) IsState (table_view table.now))) result }
{
    match member_at(table, key) {
        Some(value) => match state_at(value) {
            Some(said) => Ok(said),
            None => Err(misfit(name, key)),
        },
        None => Err(misfit(name, key)),
    }
}

// Reads the capability at a key. It is void if the key is missing, and `None` if the text isn't a capability's.
#[tactic(auto, using(crate::proofs::Keyed::defaulted))]
pub(crate) fn capability_or_void<'a>(
    table: &Table,
    name: TableName,
    key: Key,
) -> Result<Option<Capability>, Misread<'a>>
    ensures { Reads (AtOr (Some Void) (key_name key) IsCapability (table_view table.now))
        (IsMisfit name key (AtOr (Some Void) (key_name key) IsCapability (table_view table.now))) result }
{
    match member_at(table, key) {
        Some(value) => match capability_at(value) {
            Some(said) => Ok(said),
            None => Err(misfit(name, key)),
        },
        None => Ok(Some(Capability::Void)),
    }
}
