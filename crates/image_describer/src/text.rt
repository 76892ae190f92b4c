// Writing the text of a description. Each function that writes fails only if memory runs out.
ghost use Rattle.std.specs.Prelude.{◌≡◌, ℕ, ◌++◌, List, Some, IfOk, OnOk, codes, string_bytes};
ghost use Rattle.std.specs.List.{All, flat_map};
ghost use Rattle.toml.specs.Data.{Members};
ghost use Rattle.toml.specs.Parse.{parse_document};
ghost use Rattle.description.specs.Reading.{IsDescription};
ghost use Rattle.description.specs.Described.{AreSlots, HasFields, IsProcessEntry};
ghost use Rattle.image_describer.specs.Spelled.{CanBeSpelled};
ghost use Rattle.image_describer.specs.Text.{are_whole, bank_text, description_text, field_line, field_lines};
ghost use Rattle.image_describer.specs.Text.{image_fields, is_range, list_text, node_text, page_text, process_text};
ghost use Rattle.image_describer.specs.Text.{range_text, unless};

use crate::fields::{
    put_header, put_list, put_list_unless_empty, put_number, put_number_unless, put_space,
    put_state, put_wide_number, put_words,
};
use description::{BankEntry, Description, NodeEntry, PageEntry, ProcessEntry};
use home_ranges::NumberRange;
use model::Geometry;
use std::alloc::{AllocError, Global};

/// An entry that is written as lines.
trait Lines {
    /// The lines of the entry.
    ghost text_of: { Self → List ℕ };

    /// The entry can be written.
    ghost MayBePut: { Self → Type 0 };

    /// Writes the lines of the entry.
    fn put(&self, text: &mut String) -> Result<(), AllocError>
        requires { MayBePut self.now }
        ensures { OnOk result (string_bytes text.new ≡ string_bytes text.old ++ text_of self.now) };
}

impl Lines for BankEntry {
    ghost text_of = { bank_text };

    ghost MayBePut = { λ _. Unit {0} };

    #[tactic(auto, using(std::proofs::Common::append_assoc))]
    fn put(&self, text: &mut String) -> Result<(), AllocError> {
        put_header(text, "bank")?;
        put_number(text, "number", self.number)?;
        put_number(text, "owner", self.owner)?;
        put_wide_number(text, "limit", self.limit)
    }
}

impl Lines for ProcessEntry {
    ghost text_of = { process_text };

    ghost MayBePut = { IsProcessEntry };

    fn put(&self, text: &mut String) -> Result<(), AllocError> {
        let Some(state) = self.state else {
            unreachable!()
        };
        put_header(text, "process")?;
        put_number(text, "root", self.root)?;
        put_number(text, "annex", self.annex)?;
        put_number(text, "owner", self.owner)?;
        put_state(text, "state", state)?;
        put_number_unless(text, "key", 0, self.key)?;
        put_words(text, "words", &self.words)?;
        put_space(text, "space", self.space)?;
        put_list_unless_empty(text, "registers", &self.registers)
    }
}

impl Lines for NodeEntry {
    ghost text_of = { node_text };

    ghost MayBePut = { λ node. AreSlots 0 node.slots.items };

    fn put(&self, text: &mut String) -> Result<(), AllocError> {
        put_header(text, "node")?;
        put_number(text, "number", self.number)?;
        put_number(text, "owner", self.owner)?;
        put_list_unless_empty(text, "slots", &self.slots)
    }
}

impl Lines for PageEntry {
    ghost text_of = { page_text };

    ghost MayBePut = { λ _. Unit {0} };

    fn put(&self, text: &mut String) -> Result<(), AllocError> {
        put_header(text, "page")?;
        put_number(text, "number", self.number)?;
        put_number(text, "owner", self.owner)?;
        put_list_unless_empty(text, "words", &self.words)
    }
}

// Whether a range has this first number and this count.
fn is_range(range: &NumberRange, first: u64, count: u64) -> bool
    ensures { result ≡ is_range range.now first count }
{
    range.first == first && range.count == count
}

// Whether there are two ranges: all nodes, and all pages.
#[tactic(auto, using(crate::proofs::Written::second_range))]
fn are_whole(geometry: Geometry, ranges: &[NumberRange]) -> bool
    ensures { result ≡ are_whole geometry ranges.now }
{
    match ranges {
        [nodes, pages] => {
            is_range(nodes, 0, geometry.nodes) && is_range(pages, geometry.nodes, geometry.pages)
        }
        _ => false,
    }
}

// Writes the ranges, unless they are one of all nodes and one of all pages.
fn put_ranges(
    text: &mut String,
    geometry: Geometry,
    ranges: &[NumberRange],
) -> Result<(), AllocError>
    ensures { OnOk result (string_bytes text.new ≡ string_bytes text.old
        ++ field_line (codes "ranges", unless (are_whole geometry ranges.now) (list_text range_text ranges.now))) }
{
    if are_whole(geometry, ranges) {
        Ok(())
    } else {
        put_list(text, "ranges", ranges)
    }
}

// Writes the keys of the whole image.
fn put_image(text: &mut String, description: &Description) -> Result<(), AllocError>
    ensures { OnOk result (string_bytes text.new
        ≡ string_bytes text.old ++ field_lines (image_fields description.now)) }
{
    let geometry = description.geometry;
    put_number(text, "nodes", geometry.nodes)?;
    put_number(text, "pages", geometry.pages)?;
    put_number(text, "log", geometry.log)?;
    put_number_unless(text, "layout", 1, description.layout)?;
    put_number_unless(text, "age", 0, description.age)?;
    put_ranges(text, geometry, &description.ranges)
}

// Writes all entries of a kind.
fn put_all<T: Lines>(text: &mut String, entries: &[T]) -> Result<(), AllocError>
    requires { All T.MayBePut entries.now }
    ensures { OnOk result
        (string_bytes text.new ≡ string_bytes text.old ++ flat_map T.text_of entries.now) }
{
    for entry in entries {
        entry.put(text)?;
    }
    Ok(())
}

// Writes the whole description.
#[tactic(auto, unfolding(crate::specs::Text::description_text))]
fn put_description(text: &mut String, description: &Description) -> Result<(), AllocError>
    requires { HasFields description.now }
    ensures { OnOk result
        (string_bytes text.new ≡ string_bytes text.old ++ description_text description.now) }
{
    put_image(text, description)?;
    put_all(text, &description.banks)?;
    put_all(text, &description.processes)?;
    put_all(text, &description.nodes)?;
    put_all(text, &description.pages)
}

/// Returns the text of a description, in TOML. It has each key once, in the order of the manual, and omits keys
/// that have their default. Reading the text gives the same description. Fails only if memory runs out.
pub fn text_of(alloc: Global, description: &Description) -> Result<String, AllocError>
    requires { HasFields description.now }
    ensures text { IfOk result (λ text. string_bytes text ≡ description_text description.now) }
    ensures read { IfOk result (λ text. CanBeSpelled description.now
        → (table : Members) × (parse_document (string_bytes text) ≡ Some table)
        × IsDescription table description.now) }
{
    let mut text = String::new(alloc);
    put_description(&mut text, description)?;
    Ok(text)
}
