// Reading lists of values.
ghost use Rattle.std.specs.Prelude.{◌≡◌, ◌∷◌, ℕ, [], List, MatchOption};
ghost use Rattle.toml.specs.Data.{Data, Members, array, item, no_items};
ghost use Rattle.toml.specs.View.{table_view, view};
ghost use Rattle.description.specs.Outcomes.{AreBadEntries, AreBadTables, AtKey, Finds, IsBadTable, IsIn, IsMisfit};
ghost use Rattle.description.specs.Outcomes.{Reads};
ghost use Rattle.description.specs.Reading.{AreFour, AtOr, IsList, IsRange, IsSlot, IsTable, IsWord};
ghost use Rattle.description.specs.Shapes.{key_name};
ghost use Rattle.description.specs.declared.place.TableName.{TableName};

use crate::entry::{SlotEntry, WordEntry};
use crate::member::member_at;
use crate::place::{Flaw, Key, Misread, ShapePlace, TableName, misfit};
use crate::value::{array_of, capability_at, number_of, pair_of, table_of, wide_number_of};
use home_ranges::NumberRange;
use std::alloc::Global;
use toml::{Table, Value};

/// A type that is read from a value in a list.
pub(crate) trait FromValue: Drop {
    /// The value encodes this item.
    ghost IsSaid: { Data → Self → Type 0 };

    /// Reads a value. Returns `None` if it encodes no item of this type.
    fn from_value(value: &Value) -> Option<Self>
        ensures { Finds (IsSaid (view value.now)) result };
}

/// A type that is read from a table in a list.
pub(crate) trait FromTable: Drop {
    /// The table encodes this object.
    ghost IsRead: { Members → Self → Type 0 };

    /// The name of the table at an index of its list.
    ghost named: { ℕ → TableName };

    /// Reads the table at an index. Fails with its first flaw, or if memory runs out.
    fn from_table<'a>(alloc: Global, table: &'a Table, index: usize) -> Result<Self, Misread<'a>>
        ensures { Reads (IsRead (table_view table.entry.now)) (IsIn (named index) (table_view table.entry.now)) result };
}

// Returns the fault for a malformed item of a list.
fn bad_item<'a>(table: TableName, key: Key, index: usize) -> Misread<'a>
    ensures { result ≡ Misread.Misshapen (record { table = table; flaw = Flaw.Item key index }) }
{
    Misread::Misshapen(ShapePlace {
        table,
        flaw: Flaw::Item(key, index),
    })
}

// Reads the entries of a list. Fails with its first flaw, or if memory runs out.
pub(crate) fn entries_of<'a, T: FromValue>(
    alloc: Global,
    value: &Value,
    name: TableName,
    key: Key,
) -> Result<Vec<T>, Misread<'a>>
    ensures { Reads (λ list. IsList T.IsSaid (view value.now) list.items)
        (AreBadEntries T.IsSaid name key (view value.now)) result }
{
    let items = match array_of(value) {
        Some(items) => items,
        None => return Err(misfit(name, key)),
    };
    let mut list = Vec::new(alloc);
    for i in 0..items.len() {
        match T::from_value(&items[i]) {
            Some(entry) => list.push(entry)?,
            None => return Err(bad_item(name, key, i)),
        }
    }
    Ok(list)
}

// Reads the entries in the list at a key. If the key is missing, there are none.
pub(crate) fn entries<'a, T: FromValue>(
    alloc: Global,
    table: &Table,
    name: TableName,
    key: Key,
) -> Result<Vec<T>, Misread<'a>>
    ensures { Reads (λ list. AtOr [] (key_name key) (IsList T.IsSaid) (table_view table.now) list.items)
        (AtKey key (AreBadEntries T.IsSaid name key) (table_view table.now)) result }
{
    match member_at(table, key) {
        Some(value) => entries_of(alloc, value, name, key),
        None => Ok(Vec::new(alloc)),
    }
}

// Reads the item at an index as a table.
fn object_of<'a, T: FromTable>(
    alloc: Global,
    value: &'a Value,
    key: Key,
    index: usize,
) -> Result<T, Misread<'a>>
    ensures { Reads (IsTable T.IsRead (view value.entry.now))
        (IsBadTable T.named key index (view value.entry.now)) result }
{
    match table_of(value) {
        Some(table) => T::from_table(alloc, table, index),
        None => Err(bad_item(TableName::Whole, key, index)),
    }
}

// Reads the objects in a list of tables.
fn objects_of<'a, T: FromTable>(
    alloc: Global,
    value: &'a Value,
    key: Key,
) -> Result<Vec<T>, Misread<'a>>
    ensures { Reads (λ list. IsList (IsTable T.IsRead) (view value.entry.now) list.items)
        (AreBadTables T.IsRead T.named key (view value.entry.now)) result }
{
    let items = match array_of(value) {
        Some(items) => items,
        None => return Err(misfit(TableName::Whole, key)),
    };
    let mut list = Vec::new(alloc);
    for i in 0..items.len() {
        let object = object_of(alloc, &items[i], key, i)?;
        list.push(object)?;
    }
    Ok(list)
}

// Reads the objects in the list at a key of the whole table. If the key is missing, there are none.
pub(crate) fn objects<'a, T: FromTable>(
    alloc: Global,
    table: &'a Table,
    key: Key,
) -> Result<Vec<T>, Misread<'a>>
    ensures { Reads (λ list. AtOr [] (key_name key) (IsList (IsTable T.IsRead)) (table_view table.entry.now) list.items)
        (AtKey key (AreBadTables T.IsRead T.named key) (table_view table.entry.now)) result }
{
    match member_at(table, key) {
        Some(value) => objects_of(alloc, value, key),
        None => Ok(Vec::new(alloc)),
    }
}

// Returns the four values of a list, or `None` if the value isn't a list of four.
fn quad_of(value: &Value) -> Option<(&Value, &Value, &Value, &Value)>
    ensures { MatchOption result
        ((words : List ℕ) → AreFour (view value.now) words → ⊥)
        (λ q. view value.now ≡ array (item (view q.0.now) (item (view q.1.now)
        (item (view q.2.now) (item (view q.3.now) no_items))))) }
{
    let items = array_of(value)?;
    match items.as_slice() {
        [first, second, third, fourth] => Some((first, second, third, fourth)),
        _ => None,
    }
}

// Returns the four words of a list, or `None` if the value isn't a list of four words.
fn four_of(value: &Value) -> Option<[u64; 4]>
    ensures { Finds (AreFour (view value.now)) result }
{
    let (first, second, third, fourth) = quad_of(value)?;
    let first = wide_number_of(first)?;
    let second = wide_number_of(second)?;
    let third = wide_number_of(third)?;
    let fourth = wide_number_of(fourth)?;
    Some([first, second, third, fourth])
}

// Reads the four words at a key, or returns zeros if the key is missing.
pub(crate) fn four_or_zeros<'a>(
    table: &Table,
    name: TableName,
    key: Key,
) -> Result<[u64; 4], Misread<'a>>
    ensures { Reads (AtOr (0 ∷ 0 ∷ 0 ∷ 0 ∷ []) (key_name key) AreFour (table_view table.now))
        (IsMisfit name key (AtOr (0 ∷ 0 ∷ 0 ∷ 0 ∷ []) (key_name key) AreFour (table_view table.now))) result }
{
    match member_at(table, key) {
        Some(value) => match four_of(value) {
            Some(said) => Ok(said),
            None => Err(misfit(name, key)),
        },
        None => Ok([0; 4]),
    }
}

/// A list of two: the index of a slot, and the text of a capability.
impl FromValue for SlotEntry {
    ghost IsSaid = { IsSlot };

    fn from_value(value: &Value) -> Option<SlotEntry> {
        let (index, text) = pair_of(value)?;
        let index = number_of(index)?;
        let capability = capability_at(text)?;
        Some(SlotEntry { index, capability })
    }
}

/// A list of two: the index of a word, and a number of 64 bits.
impl FromValue for WordEntry {
    ghost IsSaid = { IsWord };

    fn from_value(value: &Value) -> Option<WordEntry> {
        let (index, word) = pair_of(value)?;
        let index = number_of(index)?;
        let word = wide_number_of(word)?;
        Some(WordEntry { index, word })
    }
}

/// A list of two: the first number of a range, and how many numbers it has.
impl FromValue for NumberRange {
    ghost IsSaid = { IsRange };

    fn from_value(value: &Value) -> Option<NumberRange> {
        let (first, count) = pair_of(value)?;
        let first = number_of(first)?;
        let count = number_of(count)?;
        Some(NumberRange { first, count })
    }
}
