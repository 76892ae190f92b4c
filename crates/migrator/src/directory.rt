// The entries of a checkpoint.
ghost use Rattle.std.specs.Prelude.{◌≡◌, ◌≤◌, ◌∷◌, [], length, take, vec_capacity, IfOk};
ghost use Rattle.migrator.specs.Table.{taken_count, entries_of};

use crate::table::Table;
use layout::{Entry, MAX_LOG};
use std::alloc::{AllocError, Global};
use std::marker::Model;

/// The entries of a checkpoint. There is memory for as many as any log half has slots, so only `new`
/// allocates.
#[derive(Drop)]
pub(crate) struct Directory {
    entries: Vec<Entry>,
}

impl Model for Directory {
    ghost use Rattle.std.specs.Prelude.{List, ◌≤◌, vec_capacity};
    ghost use Rattle.layout.specs.declared.directory.Entry.{Entry};

    ghost Value = { List Entry };

    ghost view = { λ d. d.entries.items };

    ghost invariant = { λ d. 4096 ≤ vec_capacity d.entries };
}

/// Returns `count` blank entries, in memory for as many as a directory may have. Fails only if memory runs out.
pub(crate) fn blank_entries(alloc: Global, count: u64) -> Result<Vec<Entry>, AllocError>
    ensures length { IfOk result (λ entries. length entries.items ≡ count) }
    ensures room { IfOk result (λ entries. 4096 ≤ vec_capacity entries) }
{
    let mut entries = Vec::with_capacity(alloc, MAX_LOG)?;
    entries.resize(count as usize, Entry { object: 0, slot: 0 })?;
    Ok(entries)
}

impl Directory {
    /// Returns a directory without entries. Fails only if memory runs out.
    pub(crate) fn new(alloc: Global) -> Result<Directory, AllocError>
        ensures { IfOk result (λ directory. directory ≡ []) }
    {
        Ok(Directory {
            entries: Vec::with_capacity(alloc, MAX_LOG)?,
        })
    }

    /// Returns a directory of the first `count` of these entries.
    pub(crate) fn of(entries: Vec<Entry>, count: u64) -> Directory
        requires { 4096 ≤ vec_capacity entries }
        ensures { result ≡ take count entries.items }
    {
        let mut entries = entries;
        entries.truncate(count as usize);
        Directory { entries }
    }

    /// The entries.
    pub(crate) fn as_slice(&self) -> &[Entry]
        ensures { result.now ≡ self.now }
    {
        &self.entries
    }

    /// Removes all entries.
    pub(crate) fn clear(&mut self)
        ensures { self.new ≡ [] }
    {
        self.entries.clear();
    }

    /// Replaces all entries by this one.
    pub(crate) fn put_one(&mut self, entry: Entry)
        ensures { self.new ≡ entry ∷ [] }
    {
        self.entries.clear();
        self.entries.push_reserved(entry);
    }

    /// Replaces all entries by those of the objects that have a slot in `table`, in the order of their numbers.
    pub(crate) fn fill(&mut self, table: &Table)
        requires { taken_count table.now ≤ 4096 }
        ensures { self.new ≡ entries_of table.now }
    {
        self.entries.clear();
        table.list(&mut self.entries);
    }
}
