// Reading banks, processes, nodes and pages.
ghost use Rattle.std.specs.Prelude.{◌≡◌, ◌∷◌, [], IsTrue};
ghost use Rattle.toml.specs.View.{table_view};
ghost use Rattle.description.specs.Outcomes.{IsIn, Reads};
ghost use Rattle.description.specs.Reading.{HasNumberAndOwner, HasProcessFields, IsBank, IsNode, IsPage, IsProcess};
ghost use Rattle.description.specs.Shapes.{key_name, keys_of};
ghost use Rattle.description.specs.declared.place.Key.TheVariants.{ObjectNumber, ObjectOwner};
ghost use Rattle.description.specs.declared.place.TableName.TheVariants.{Bank, Process, Node, Page};

use crate::entry::{BankEntry, NodeEntry, PageEntry, ProcessEntry};
use crate::list::{FromTable, entries, four_or_zeros};
use crate::member::{capability_or_void, check_keys, number, number_or, state, wide_number};
use crate::place::{Key, Misread, TableName};
use model::{Capability, State};
use std::alloc::Global;
use toml::Table;

// Reads the number and the owner of an object. Its table may have these two keys, `other`, and no
// more.
fn read_numbers<'a>(
    table: &'a Table,
    name: TableName,
    other: Key,
) -> Result<(u64, u64), Misread<'a>>
    requires { keys_of name ≡ ObjectNumber ∷ ObjectOwner ∷ other ∷ [] }
    ensures { Reads (HasNumberAndOwner (key_name other) (table_view table.entry.now))
        (IsIn name (table_view table.entry.now)) result }
{
    check_keys(table, name, &["number", "owner", other.name()])?;
    let first = number(table, name, Key::ObjectNumber)?;
    let owner = number(table, name, Key::ObjectOwner)?;
    Ok((first, owner))
}

// The fields of a process other than its registers.
#[derive(Clone, Copy)]
struct ProcessFields {
    root: u64,
    annex: u64,
    owner: u64,
    state: Option<State>,
    key: u64,
    words: [u64; 4],
    space: Option<Capability>,
}

// Reads the fields of a process other than its registers.
fn read_fields<'a>(table: &'a Table, index: usize) -> Result<ProcessFields, Misread<'a>>
    ensures { Reads (HasProcessFields (table_view table.entry.now))
        (IsIn (Process index) (table_view table.entry.now)) result }
{
    let name = TableName::Process(index);
    check_keys(
        table,
        name,
        &[
            "root",
            "annex",
            "owner",
            "state",
            "key",
            "words",
            "space",
            "registers",
        ],
    )?;
    let root = number(table, name, Key::ProcessRoot)?;
    let annex = number(table, name, Key::ProcessAnnex)?;
    let owner = number(table, name, Key::ObjectOwner)?;
    let state = state(table, name, Key::ProcessState)?;
    let key = number_or(table, name, Key::ProcessKey, 0)?;
    let words = four_or_zeros(table, name, Key::ProcessWords)?;
    let space = capability_or_void(table, name, Key::ProcessSpace)?;
    Ok(ProcessFields {
        root,
        annex,
        owner,
        state,
        key,
        words,
        space,
    })
}

impl FromTable for BankEntry {
    ghost IsRead = { IsBank };

    ghost named = { λ i. Bank i };

    fn from_table<'a>(
        _alloc: Global,
        table: &'a Table,
        index: usize,
    ) -> Result<BankEntry, Misread<'a>> {
        let name = TableName::Bank(index);
        let (number, owner) = read_numbers(table, name, Key::BankLimit)?;
        let limit = wide_number(table, name, Key::BankLimit)?;
        Ok(BankEntry {
            number,
            owner,
            limit,
        })
    }
}

impl FromTable for ProcessEntry {
    ghost IsRead = { IsProcess };

    ghost named = { λ i. Process i };

    fn from_table<'a>(
        alloc: Global,
        table: &'a Table,
        index: usize,
    ) -> Result<ProcessEntry, Misread<'a>> {
        let name = TableName::Process(index);
        let fields = read_fields(table, index)?;
        let registers = entries(alloc, table, name, Key::ProcessRegisters)?;
        let words = fields.words;
        Ok(ProcessEntry {
            root: fields.root,
            annex: fields.annex,
            owner: fields.owner,
            state: fields.state,
            key: fields.key,
            words,
            space: fields.space,
            registers,
        })
    }
}

impl FromTable for NodeEntry {
    ghost IsRead = { IsNode };

    ghost named = { λ i. Node i };

    fn from_table<'a>(
        alloc: Global,
        table: &'a Table,
        index: usize,
    ) -> Result<NodeEntry, Misread<'a>> {
        let name = TableName::Node(index);
        let (number, owner) = read_numbers(table, name, Key::NodeSlots)?;
        let slots = entries(alloc, table, name, Key::NodeSlots)?;
        Ok(NodeEntry {
            number,
            owner,
            slots,
        })
    }
}

impl FromTable for PageEntry {
    ghost IsRead = { IsPage };

    ghost named = { λ i. Page i };

    fn from_table<'a>(
        alloc: Global,
        table: &'a Table,
        index: usize,
    ) -> Result<PageEntry, Misread<'a>> {
        let name = TableName::Page(index);
        let (number, owner) = read_numbers(table, name, Key::PageWords)?;
        let words = entries(alloc, table, name, Key::PageWords)?;
        Ok(PageEntry {
            number,
            owner,
            words,
        })
    }
}
