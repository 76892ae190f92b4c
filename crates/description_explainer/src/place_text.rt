// Writing the text of a place. Each function that writes fails only if memory runs out.
ghost use Rattle.std.specs.Prelude.{◌≡◌, ℕ, ◌++◌, List, [], IfOk, IfSome, MatchOption, OnOk, codes};
ghost use Rattle.std.specs.Prelude.{string_bytes};
ghost use Rattle.std.specs.Fmt.{debug_str};
ghost use Rattle.script.specs.Lines.{IsOneLine};
ghost use Rattle.description_explainer.specs.Text.{IsFlawText, IsPlaceText, IsShapeText, entry_text, field_text};
ghost use Rattle.description_explainer.specs.Text.{indexed_entry, item_text, limit_text, misnumbered_text, named_text};
ghost use Rattle.description_explainer.specs.Text.{node_text, owner_text, page_text, process_text, rule_text};
ghost use Rattle.description_explainer.specs.Text.{slot_entry, table_text, target_text};

use crate::naming::{put_node, put_object, put_page, put_process};
use crate::place::{Place, Rule};
use description::{
    Description, Flaw, Held, Indexed, Limit, Misnumbered, Named, Part, ShapePlace, SlotFlaw,
    TableName,
};
use recovery::Unbanked;
use std::alloc::{AllocError, Global};

// Writes an item of a list: `bank[0]`.
fn put_item(text: &mut String, list: &str, i: usize) -> Result<(), AllocError>
    ensures { OnOk result (string_bytes text.new ≡ string_bytes text.old ++ item_text list.now i []) }
{
    write!(text, "{list}[{i}]")
}

/// Returns the key of the list that has a table, and the table's index in it. Returns `None` for the
/// whole table.
pub(crate) fn list_of(name: TableName) -> Option<(&'static str, usize)>
    ensures { MatchOption result (table_text name ≡ [])
        (λ p. table_text name ≡ item_text p.0.now p.1 (codes ", ")) }
{
    match name {
        TableName::Whole => None,
        TableName::Bank(k) => Some(("bank", k)),
        TableName::Process(k) => Some(("process", k)),
        TableName::Node(k) => Some(("node", k)),
        TableName::Page(k) => Some(("page", k)),
    }
}

// Writes the name of a table, as it stands before one of the table's keys.
fn put_table(text: &mut String, name: TableName) -> Result<(), AllocError>
    ensures { OnOk result (string_bytes text.new ≡ string_bytes text.old ++ table_text name) }
{
    match list_of(name) {
        None => Ok(()),
        Some((key, k)) => write!(text, "{key}[{k}], "),
    }
}

// Returns a key as `{:?}` writes it.
fn debugged(alloc: Global, key: &str) -> Result<String, AllocError>
    ensures { IfOk result (λ shown. IfSome (debug_str key.now) (λ s. string_bytes shown ≡ s)) }
{
    format!(in alloc; "{key:?}")
}

// Returns a key in quotes, on one line. No contract of std says how `{:?}` writes text that isn't ASCII, so a
// result with a newline is replaced.
fn quoted(alloc: Global, key: &str) -> Result<String, AllocError>
    ensures { IfOk result (λ shown. IfSome (debug_str key.now) (λ s. string_bytes shown ≡ s)
        × IsOneLine (string_bytes shown)) }
{
    let shown = debugged(alloc, key)?;
    if shown.as_bytes().contains(&b'\n') {
        return String::from_str(alloc, "\"\"");
    }
    Ok(shown)
}

// Writes the key of a flaw, or the item of the list at the key.
fn put_flaw(alloc: Global, text: &mut String, flaw: Flaw<'_>) -> Result<(), AllocError>
    ensures { OnOk result ((at : List ℕ) × IsFlawText flaw.entry at
        × (string_bytes text.new ≡ string_bytes text.old ++ at)) }
{
    match flaw {
        Flaw::Unknown(key) => {
            let shown = quoted(alloc, key)?;
            write!(text, "key {shown}")
        }
        Flaw::Misfit(key) => text.push_str(key.name()),
        Flaw::Item(key, i) => put_item(text, key.name(), i),
    }
}

fn shape_text(alloc: Global, place: ShapePlace<'_>) -> Result<String, AllocError>
    ensures { IfOk result (λ text. IsShapeText place.entry (string_bytes text)) }
{
    let mut text = String::new(alloc);
    put_table(&mut text, place.table)?;
    put_flaw(alloc, &mut text, place.flaw)?;
    Ok(text)
}

fn put_limit(text: &mut String, limit: Limit) -> Result<(), AllocError>
    ensures { OnOk result (string_bytes text.new ≡ string_bytes text.old ++ limit_text limit) }
{
    match limit {
        Limit::Nodes => text.push_str("nodes"),
        Limit::Pages => text.push_str("pages"),
        Limit::Log => text.push_str("log"),
        Limit::Age => text.push_str("age"),
        Limit::Layout => text.push_str("layout"),
        Limit::RangeCount | Limit::RangesEnd { .. } => text.push_str("ranges"),
        Limit::Range { index, .. } => put_item(text, "ranges", index),
    }
}

/// Returns the key of the list that has an object, the object's index in it, and the key of the
/// object's number.
pub(crate) fn parts_of(named: Named) -> (&'static str, usize, &'static str)
    ensures { named_text named ≡ item_text result.0.now result.1 (codes ", " ++ result.2.now) }
{
    match named {
        Named::Bank(k) => ("bank", k, "number"),
        Named::Root(k) => ("process", k, "root"),
        Named::Annex(k) => ("process", k, "annex"),
        Named::Node(k) => ("node", k, "number"),
        Named::Page(k) => ("page", k, "number"),
    }
}

// Writes the key of an object's number.
fn put_named(text: &mut String, named: Named) -> Result<(), AllocError>
    ensures { OnOk result (string_bytes text.new ≡ string_bytes text.old ++ named_text named) }
{
    let (list, k, key) = parts_of(named);
    write!(text, "{list}[{k}], {key}")
}

fn put_misnumbered(text: &mut String, place: Misnumbered) -> Result<(), AllocError>
    ensures { OnOk result (string_bytes text.new ≡ string_bytes text.old ++ misnumbered_text place) }
{
    match place {
        Misnumbered::OutOfRange(named) => put_named(text, named),
        Misnumbered::Twice(_, other) => put_named(text, other),
    }
}

/// Returns the index of the wrong entry: of two with the same index, that of the second.
pub(crate) fn indexed_entry(flaw: Indexed) -> usize
    ensures { result ≡ indexed_entry flaw }
{
    match flaw {
        Indexed::OutOfRange(i) => i,
        Indexed::Twice(_, j) => j,
    }
}

fn slot_entry(flaw: SlotFlaw) -> usize
    ensures { result ≡ slot_entry flaw }
{
    match flaw {
        SlotFlaw::Index(flaw) => indexed_entry(flaw),
        SlotFlaw::Text(i) => i,
    }
}

// Writes the name of a process, and one of its fields.
#[tactic(auto, using(std::proofs::Common::append_assoc))]
fn put_process_field(
    text: &mut String,
    description: &Description,
    k: usize,
    field: &str,
) -> Result<(), AllocError>
    ensures { OnOk result (string_bytes text.new
        ≡ string_bytes text.old ++ (process_text description.now k ++ field.now)) }
{
    put_process(text, description, k)?;
    text.push_str(field)
}

// Writes the place of an entry in a list of an object.
fn put_entry(text: &mut String, list: &str, i: usize) -> Result<(), AllocError>
    ensures { OnOk result (string_bytes text.new
        ≡ string_bytes text.old ++ (codes ", " ++ item_text list.now i [])) }
{
    write!(text, ", {list}[{i}]")
}

// Writes the place of a register: its process, and its index in the list of registers.
#[tactic(auto, using(std::proofs::Common::append_assoc))]
fn put_register(
    text: &mut String,
    description: &Description,
    k: usize,
    i: usize,
) -> Result<(), AllocError>
    ensures { OnOk result (string_bytes text.new
        ≡ string_bytes text.old ++ entry_text (process_text description.now k) (codes "registers") i) }
{
    put_process(text, description, k)?;
    put_entry(text, "registers", i)
}

// Writes the place of a slot: its node, and its index in the list of slots.
#[tactic(auto, using(std::proofs::Common::append_assoc))]
fn put_slot(
    text: &mut String,
    description: &Description,
    k: usize,
    i: usize,
) -> Result<(), AllocError>
    ensures { OnOk result (string_bytes text.new
        ≡ string_bytes text.old ++ entry_text (node_text description.now k) (codes "slots") i) }
{
    put_node(text, description, k)?;
    put_entry(text, "slots", i)
}

// Writes the place of a word: its page, and its index in the list of words.
#[tactic(auto, using(std::proofs::Common::append_assoc))]
fn put_word(
    text: &mut String,
    description: &Description,
    k: usize,
    i: usize,
) -> Result<(), AllocError>
    ensures { OnOk result (string_bytes text.new
        ≡ string_bytes text.old ++ entry_text (page_text description.now k) (codes "words") i) }
{
    put_page(text, description, k)?;
    put_entry(text, "words", i)
}

fn put_field(text: &mut String, description: &Description, part: Part) -> Result<(), AllocError>
    ensures { OnOk result
        (string_bytes text.new ≡ string_bytes text.old ++ field_text description.now part) }
{
    match part {
        Part::State(k) => put_process_field(text, description, k, ", state"),
        Part::Key(k) => put_process_field(text, description, k, ", key"),
        Part::Space(k) => put_process_field(text, description, k, ", space"),
        Part::Registers(k, flaw) => put_register(text, description, k, slot_entry(flaw)),
        Part::Slots(k, flaw) => put_slot(text, description, k, slot_entry(flaw)),
        Part::Words(k, flaw) => put_word(text, description, k, indexed_entry(flaw)),
    }
}

fn put_target(text: &mut String, description: &Description, held: Held) -> Result<(), AllocError>
    ensures { OnOk result
        (string_bytes text.new ≡ string_bytes text.old ++ target_text description.now held) }
{
    match held {
        Held::Space(k) => put_process_field(text, description, k, ", space"),
        Held::Register(k, i) => put_register(text, description, k, i),
        Held::Slot(k, i) => put_slot(text, description, k, i),
    }
}

#[tactic(auto, using(std::proofs::Common::append_assoc))]
fn put_owner(
    text: &mut String,
    description: &Description,
    unbanked: Unbanked,
) -> Result<(), AllocError>
    ensures { OnOk result
        (string_bytes text.new ≡ string_bytes text.old ++ owner_text description.now unbanked) }
{
    match unbanked {
        Unbanked::Prime => text.push_str("bank 0"),
        Unbanked::Owner { object, .. } => {
            put_object(text, description, object)?;
            text.push_str(", owner")
        }
        Unbanked::Chain(bank) => write!(text, "bank {bank}, owner"),
        Unbanked::Limit { bank, .. } => write!(text, "bank {bank}, limit"),
    }
}

fn put_rule(text: &mut String, description: &Description, rule: Rule) -> Result<(), AllocError>
    ensures { OnOk result
        (string_bytes text.new ≡ string_bytes text.old ++ rule_text description.now rule) }
{
    match rule {
        Rule::Limit(limit) => put_limit(text, limit),
        Rule::Number(place) => put_misnumbered(text, place),
        Rule::Field(part) => put_field(text, description, part),
        Rule::Target(held) => put_target(text, description, held),
        Rule::Owner(unbanked) => put_owner(text, description, unbanked),
    }
}

/// Returns the text of a place.
pub(crate) fn place_text(alloc: Global, place: &Place<'_>) -> Result<String, AllocError>
    ensures { IfOk result (λ text. IsPlaceText place.now (string_bytes text)) }
{
    match place {
        Place::Shape(shape) => shape_text(alloc, *shape),
        Place::Rule(description, rule) => {
            let mut text = String::new(alloc);
            put_rule(&mut text, description, *rule)?;
            Ok(text)
        }
    }
}
