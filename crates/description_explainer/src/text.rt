// The text of an explanation. Each function that writes fails only if memory runs out.
ghost use Rattle.std.specs.Prelude.{◌≡◌, ◌++◌, IfOk, codes, decimal, string_bytes};
ghost use Rattle.script.specs.Lines.{IsOneLine};
ghost use Rattle.description_explainer.specs.Text.{IsExplanation};

use crate::naming::listed_number;
use crate::place::{Place, Rule};
use crate::place_text::{indexed_entry, list_of, parts_of, place_text};
use description::member::member;
use description::{
    Description, Flaw, Held, Indexed, Key, Limit, Misnumbered, Named, Part, ProcessEntry,
    ShapePlace, SlotEntry, SlotFlaw, TableName, WordEntry, is_capability,
};
use home_ranges::NumberRange;
use model::{Capability, Geometry};
use recovery::Unbanked;
use std::alloc::{AllocError, Global};
use toml::{Table, Value};

// Returns what the value at a key must be.
fn wanted(key: Key) -> &'static str {
    match key {
        Key::BankLimit => "an integer from 0 on, or from 2^63 on a text \"number N\"",
        Key::ProcessState => "a text",
        Key::ProcessSpace => "a text, that of a capability",
        Key::ProcessWords => "a list of four words",
        Key::Ranges => "a list of [FIRST, COUNT]",
        Key::ProcessRegisters => "a list of [REGISTER, \"CAPABILITY\"]",
        Key::NodeSlots => "a list of [SLOT, \"CAPABILITY\"]",
        Key::PageWords => "a list of [INDEX, WORD]",
        Key::Banks => "tables, each below [[bank]]",
        Key::Processes => "tables, each below [[process]]",
        Key::NodeList => "tables, each below [[node]]",
        Key::PageList => "tables, each below [[page]]",
        _ => "an integer from 0 on",
    }
}

// Returns what an item of the list at a key must be.
fn wanted_item(key: Key) -> &'static str {
    match key {
        Key::Ranges => "[FIRST, COUNT], two integers from 0 on",
        Key::ProcessRegisters => "[REGISTER, \"CAPABILITY\"], an integer from 0 on and a text",
        Key::NodeSlots => "[SLOT, \"CAPABILITY\"], an integer from 0 on and a text",
        Key::PageWords => "[INDEX, WORD], two integers from 0 on",
        _ => "a table",
    }
}

// Returns the keys that a table may have.
fn keys_in(table: TableName) -> &'static str {
    match table {
        TableName::Whole => {
            "nodes, pages, log, layout, age, ranges, bank, process, node and page"
        }
        TableName::Bank(_) => "number, owner and limit",
        TableName::Process(_) => { "root, annex, owner, state, key, words, space and registers" }
        TableName::Node(_) => "number, owner and slots",
        TableName::Page(_) => "number, owner and words",
    }
}

// Returns the item at an index of a list, or `None`.
fn item_at(list: &Value, i: usize) -> Option<&Value> {
    list.as_array()?.get(i)
}

// Returns the table with a name, or `None`.
fn table_at<'a>(whole: &'a Table, name: TableName) -> Option<&'a Table> {
    match list_of(name) {
        None => Some(whole),
        Some((key, k)) => item_at(member(whole, key)?, k)?.as_table(),
    }
}

// Returns the value at a key of a table, or `None`.
fn value_at<'a>(whole: &'a Table, name: TableName, key: &str) -> Option<&'a Value> {
    member(table_at(whole, name)?, key)
}

// Returns the text at a key of a table, or an empty text. The next two functions return the second item of an entry
// in a list.
fn text_at<'a>(whole: &'a Table, name: TableName, key: &str) -> &'a str {
    match value_at(whole, name, key) {
        Some(value) => value.as_str().unwrap_or(""),
        None => "",
    }
}

fn entry_at<'a>(whole: &'a Table, name: TableName, key: &str, i: usize) -> Option<&'a str> {
    item_at(item_at(value_at(whole, name, key)?, i)?, 1)?.as_str()
}

fn entry_text<'a>(whole: &'a Table, name: TableName, key: &str, i: usize) -> &'a str {
    entry_at(whole, name, key, i).unwrap_or("")
}

// Writes which value was found.
fn put_found(text: &mut String, value: &Value) -> Result<(), AllocError> {
    match value.as_integer() {
        Some(number) => write!(text, "found {number}"),
        None => match value {
            Value::Array(items) => write!(text, "found a list of {}", items.len()),
            _ => write!(text, "found a {}", value.type_str()),
        },
    }
}

fn put_misfit(
    text: &mut String,
    whole: &Table,
    name: TableName,
    key: Key,
) -> Result<(), AllocError> {
    let wanted = wanted(key);
    match value_at(whole, name, key.name()) {
        None => write!(text, ": is missing; expected {wanted}"),
        Some(value) => {
            write!(text, ": expected {wanted}, ")?;
            put_found(text, value)
        }
    }
}

fn put_shape(text: &mut String, whole: &Table, place: ShapePlace<'_>) -> Result<(), AllocError> {
    match place.flaw {
        Flaw::Unknown(_) => {
            let keys = keys_in(place.table);
            write!(text, " is unknown; the keys are {keys}")
        }
        Flaw::Misfit(key) => put_misfit(text, whole, place.table, key),
        Flaw::Item(key, _) => {
            let wanted = wanted_item(key);
            write!(text, ": expected {wanted}")
        }
    }
}

// Writes what is wrong with a range that should begin at `next`.
fn put_range(
    text: &mut String,
    geometry: Geometry,
    range: NumberRange,
    next: u64,
) -> Result<(), AllocError> {
    let NumberRange { first, count } = range;
    let nodes = geometry.nodes;
    if first != next {
        write!(
            text,
            ": begins at {first}; expected {next}, where those before it end"
        )
    } else if count == 0 {
        text.push_str(": is empty")
    } else if first < nodes && count > nodes - first {
        write!(
            text,
            ": has nodes and pages; numbers below {nodes} are of nodes"
        )
    } else {
        text.push_str(": goes beyond the last page")
    }
}

// Writes that the number of nodes, pages or slots is outside its limits.
fn put_outside(text: &mut String, number: u64, least: u64) -> Result<(), AllocError> {
    write!(text, ": {number} is not from {least} to 4096")
}

fn put_limit(text: &mut String, description: &Description, limit: Limit) -> Result<(), AllocError> {
    let Geometry { nodes, pages, log } = description.geometry;
    match limit {
        Limit::Nodes => put_outside(text, nodes, 16),
        Limit::Pages => put_outside(text, pages, 1),
        Limit::Log => put_outside(text, log, 16),
        Limit::Age => write!(
            text,
            ": {} is above 4611686018427387904, 2^62",
            description.age
        ),
        Limit::Layout => write!(text, ": {} is not 1, 2 or 3", description.layout),
        Limit::RangeCount => {
            write!(
                text,
                ": there are {}; expected 1 to 8",
                description.ranges.len()
            )
        }
        Limit::RangesEnd { next } => {
            let end = nodes.saturating_add(pages);
            write!(
                text,
                ": they end before {next}; expected {end}, that all numbers have a home"
            )
        }
        Limit::Range { index, next } => match description.ranges.get(index) {
            Some(range) => put_range(text, description.geometry, *range, next),
            None => Ok(()),
        },
    }
}

fn put_number(
    text: &mut String,
    description: &Description,
    place: Misnumbered,
) -> Result<(), AllocError> {
    let nodes = description.geometry.nodes;
    let end = nodes.saturating_add(description.geometry.pages);
    match place {
        Misnumbered::OutOfRange(named) => {
            let number = listed_number(description, named);
            let (kind, first, end) = match named {
                Named::Page(_) => ("page", nodes, end),
                _ => ("node", 0, nodes),
            };
            let last = end.saturating_sub(1);
            write!(
                text,
                ": {number} is not the number of a {kind}, {first} to {last}"
            )
        }
        Misnumbered::Twice(one, other) => {
            let number = listed_number(description, other);
            let (list, i, key) = parts_of(one);
            write!(text, ": {number} is already used, as {key} of {list}[{i}]")
        }
    }
}

// Writes that a text isn't a capability's, and which texts are.
fn put_no_capability(text: &mut String, found: &str) -> Result<(), AllocError> {
    write!(
        text,
        ": {found:?} is not the text of a capability; the texts are void, number N, page O, node O, space O H, \
        process P, start P K, resume P, bank B and discrim, and ro or weak may follow a page, node or space"
    )
}

// A list of entries with indexes: its table and key, the word for an entry, and the least and greatest index.
#[derive(Clone, Copy)]
struct Entries {
    table: TableName,
    key: &'static str,
    what: &'static str,
    first: u64,
    last: u64,
}

impl Entries {
    fn registers(k: usize) -> Entries {
        Entries {
            table: TableName::Process(k),
            key: "registers",
            what: "register",
            first: 1,
            last: 31,
        }
    }

    fn slots(k: usize) -> Entries {
        Entries {
            table: TableName::Node(k),
            key: "slots",
            what: "slot",
            first: 0,
            last: 31,
        }
    }

    fn words(k: usize) -> Entries {
        Entries {
            table: TableName::Page(k),
            key: "words",
            what: "word",
            first: 0,
            last: 511,
        }
    }

    // Writes what is wrong with the index of an entry.
    fn put_indexed(self, text: &mut String, index: u64, flaw: Indexed) -> Result<(), AllocError> {
        let Entries {
            key,
            what,
            first,
            last,
            ..
        } = self;
        match flaw {
            Indexed::OutOfRange(_) => {
                write!(text, ": {what} {index} is not from {first} to {last}")
            }
            Indexed::Twice(i, _) => {
                write!(text, ": {what} {index} is already named, by {key}[{i}]")
            }
        }
    }

    // Writes what is wrong with an entry in a list of words.
    fn put_word(
        self,
        text: &mut String,
        words: &[WordEntry],
        flaw: Indexed,
    ) -> Result<(), AllocError> {
        let index = words.get(indexed_entry(flaw)).map_or(0, |word| word.index);
        self.put_indexed(text, index, flaw)
    }

    // Writes what is wrong with an entry in a list of slots or registers.
    fn put_slot(
        self,
        text: &mut String,
        whole: &Table,
        slots: &[SlotEntry],
        flaw: SlotFlaw,
    ) -> Result<(), AllocError> {
        match flaw {
            SlotFlaw::Index(flaw) => {
                let index = slots.get(indexed_entry(flaw)).map_or(0, |slot| slot.index);
                self.put_indexed(text, index, flaw)
            }
            SlotFlaw::Text(i) => {
                let entry = entry_text(whole, self.table, self.key, i);
                put_no_capability(text, entry)
            }
        }
    }
}

// Writes what is wrong with the address space of a process.
fn put_space(
    text: &mut String,
    whole: &Table,
    k: usize,
    process: &ProcessEntry,
) -> Result<(), AllocError> {
    let space = text_at(whole, TableName::Process(k), "space");
    if is_capability(process.space) {
        write!(text, ": {space:?} is not void, a page or a space")
    } else {
        put_no_capability(text, space)
    }
}

// Writes what is wrong with a field of a process.
fn put_process_field(
    text: &mut String,
    whole: &Table,
    process: &ProcessEntry,
    part: Part,
) -> Result<(), AllocError> {
    match part {
        Part::State(k) => {
            let state = text_at(whole, TableName::Process(k), "state");
            write!(text, ": {state:?} is not available, running or waiting")
        }
        Part::Key(_) => write!(text, ": {} is above 65535", process.key),
        Part::Space(k) => put_space(text, whole, k, process),
        Part::Registers(k, flaw) => {
            Entries::registers(k).put_slot(text, whole, &process.registers, flaw)
        }
        Part::Slots(_, _) | Part::Words(_, _) => Ok(()),
    }
}

fn put_field(
    text: &mut String,
    whole: &Table,
    description: &Description,
    part: Part,
) -> Result<(), AllocError> {
    match part {
        Part::State(k) | Part::Key(k) | Part::Space(k) | Part::Registers(k, _) => {
            match description.processes.get(k) {
                Some(process) => put_process_field(text, whole, process, part),
                None => Ok(()),
            }
        }
        Part::Slots(k, flaw) => match description.nodes.get(k) {
            Some(node) => Entries::slots(k).put_slot(text, whole, &node.slots, flaw),
            None => Ok(()),
        },
        Part::Words(k, flaw) => match description.pages.get(k) {
            Some(page) => Entries::words(k).put_word(text, &page.words, flaw),
            None => Ok(()),
        },
    }
}

// Writes that the object which a capability names is missing.
fn put_absent(text: &mut String, capability: Capability) -> Result<(), AllocError> {
    match capability {
        Capability::Page { object, .. } => write!(text, "there is no page {object}"),
        Capability::Node { object, .. } | Capability::Space { object, .. } => {
            write!(text, "there is no node {object}")
        }
        Capability::Process(object)
        | Capability::Start {
            process: object,
            ..
        } => write!(text, "there is no process {object}"),
        Capability::Resume(process) => write!(text, "no process {process} is waiting"),
        Capability::Bank(object) => write!(text, "there is no bank {object}"),
        _ => Ok(()),
    }
}

// Returns the capability of an entry in a list, or `None`.
fn named_at(slots: &[SlotEntry], i: usize) -> Option<Capability> {
    slots.get(i)?.capability
}

// Returns the capability at a place of a process or a node, or `None`.
fn held_at(description: &Description, held: Held) -> Option<Capability> {
    match held {
        Held::Space(k) => description.processes.get(k)?.space,
        Held::Register(k, i) => named_at(&description.processes.get(k)?.registers, i),
        Held::Slot(k, i) => named_at(&description.nodes.get(k)?.slots, i),
    }
}

// Returns the text of the capability at this place of the table.
fn held_text(whole: &Table, held: Held) -> &str {
    match held {
        Held::Space(k) => text_at(whole, TableName::Process(k), "space"),
        Held::Register(k, i) => entry_text(whole, TableName::Process(k), "registers", i),
        Held::Slot(k, i) => entry_text(whole, TableName::Node(k), "slots", i),
    }
}

fn put_target(
    text: &mut String,
    whole: &Table,
    description: &Description,
    held: Held,
) -> Result<(), AllocError> {
    let name = held_text(whole, held);
    write!(text, ": {name:?}: ")?;
    match held_at(description, held) {
        Some(capability) => put_absent(text, capability),
        None => Ok(()),
    }
}

fn put_owner(text: &mut String, unbanked: Unbanked) -> Result<(), AllocError> {
    match unbanked {
        Unbanked::Prime => text.push_str(": expected a bank of number 0 with owner 0"),
        Unbanked::Owner { owner, .. } => write!(text, ": there is no bank {owner}"),
        Unbanked::Chain(_) => {
            text.push_str(": its owners do not lead to bank 0 in a chain of 16 banks")
        }
        Unbanked::Limit { used, limit, .. } => {
            write!(text, ": {limit} is below its usage {used}")
        }
    }
}

fn put_rule(
    text: &mut String,
    whole: &Table,
    description: &Description,
    rule: Rule,
) -> Result<(), AllocError> {
    match rule {
        Rule::Limit(limit) => put_limit(text, description, limit),
        Rule::Number(place) => put_number(text, description, place),
        Rule::Field(part) => put_field(text, whole, description, part),
        Rule::Target(held) => put_target(text, whole, description, held),
        Rule::Owner(unbanked) => put_owner(text, unbanked),
    }
}

// Writes what is wrong at a place.
fn put_fault(text: &mut String, table: &Table, place: &Place<'_>) -> Result<(), AllocError> {
    match place {
        Place::Shape(shape) => put_shape(text, table, *shape),
        Place::Rule(description, rule) => put_rule(text, table, description, *rule),
    }
}

// Returns the text that says what is wrong at a place.
fn what_at(alloc: Global, table: &Table, place: &Place<'_>) -> Result<String, AllocError> {
    let mut what = String::new(alloc);
    put_fault(&mut what, table, place)?;
    Ok(what)
}

// Returns the line of an explanation: a place, what is wrong there, and the number of the fault.
fn line(alloc: Global, at: &str, what: &str, number: u64) -> Result<String, AllocError>
    ensures { IfOk result (λ text. string_bytes text
        ≡ at.now ++ (what.now ++ (codes " (bad description " ++ (decimal number ++ codes ")")))) }
{
    format!(in alloc; "{at}{what} (bad description {number})")
}

/// Returns the words, or an empty text if they have a newline.
pub fn on_one_line(words: &str) -> &str
    ensures { IsOneLine result.now }
{
    if words.as_bytes().contains(&b'\n') {
        ""
    } else {
        words
    }
}

/// Returns the line of an explanation. It names a place in a description's table, says what is wrong there, and
/// ends with the number of the fault that `build` returns. Fails only if memory runs out.
pub fn explanation(alloc: Global, table: &Table, place: &Place<'_>) -> Result<String, AllocError>
    ensures { IfOk result (λ text. IsExplanation place.now (string_bytes text)) }
{
    let at = place_text(alloc, place)?;
    let what = what_at(alloc, table, place)?;
    line(alloc, &at, on_one_line(&what), place.fault().number())
}
