// The lines of `eros info`.
ghost use Rattle.std.specs.Prelude.{◌≡◌, ◌≤◌, ◌++◌, length, map, IfOk, OnOk};
ghost use Rattle.model.specs.Text.{line_of};
ghost use Rattle.script.specs.Writing.{Writes};
ghost use Rattle.queries.specs.Info.{headers_with, info_line, info_text, lines_with, range_line};

use checkpoint::Checkpoint;
use json_lines::{Format, Key, Member, number_line, number_object};
use layout::{HomeRange, Superblock};
use model::{ObjectHeader, Role};
use script::{LineText, Output, RunFault};
use std::alloc::{AllocError, Global};

/// A line about an image: a size, a home range, a number of its checkpoint, or how many objects of a kind it has.
#[derive(Clone, Copy)]
pub(crate) enum InfoLine {
    /// The version of the layout.
    Layout(u64),
    Nodes(u64),
    Pages(u64),
    Log(u64),
    /// A home range.
    Range { first: u64, count: u64 },
    Sectors(u64),
    Generation(u64),
    Age(u64),
    Entries(u64),
    /// How many numbers are free.
    Free(u64),
    /// How many objects are pages; the next variants count nodes, processes and banks.
    PageObjects(u64),
    NodeObjects(u64),
    /// How many roots there are.
    Processes(u64),
    Banks(u64),
}

impl InfoLine {
    // Returns the line of a home range.
    fn range_text(format: Format, first: u64, count: u64) -> LineText
        ensures text { result ≡ info_line format (InfoLine.Range first count) }
        ensures short { length result ≤ 300 }
    {
        match format {
            Format::Text => {
                let mut line = LineText::numbered(b"range", first);
                line.number(count);
                line
            }
            Format::Json => { number_object(b"range", first, &[Member::Number(Key::Count, count)]) }
        }
    }

    // Returns the line in a format.
    fn text(self, format: Format) -> LineText
        ensures text { result ≡ info_line format self }
        ensures short { length result ≤ 300 }
    {
        match self {
            InfoLine::Layout(n) => number_line(format, b"layout", n),
            InfoLine::Nodes(n) => number_line(format, b"nodes", n),
            InfoLine::Pages(n) => number_line(format, b"pages", n),
            InfoLine::Log(n) => number_line(format, b"log", n),
            InfoLine::Range { first, count } => InfoLine::range_text(format, first, count),
            InfoLine::Sectors(n) => number_line(format, b"sectors", n),
            InfoLine::Generation(n) => number_line(format, b"generation", n),
            InfoLine::Age(n) => number_line(format, b"age", n),
            InfoLine::Entries(n) => number_line(format, b"entries", n),
            InfoLine::Free(n) => number_line(format, b"free", n),
            InfoLine::PageObjects(n) => number_line(format, b"page", n),
            InfoLine::NodeObjects(n) => number_line(format, b"node", n),
            InfoLine::Processes(n) => number_line(format, b"process", n),
            InfoLine::Banks(n) => number_line(format, b"bank", n),
        }
    }

    // Writes the line.
    fn print<W: Output>(&self, format: Format, writer: &mut W) -> Result<(), RunFault>
        ensures { Writes (W.written writer.old) (W.written writer.new) result
            (line_of (info_line format self.now)) }
    {
        self.text(format).write_to(writer)
    }
}

/// Writes lines.
pub(crate) fn print_lines<W: Output>(
    format: Format,
    lines: &[InfoLine],
    writer: &mut W,
) -> Result<(), RunFault>
    ensures { Writes (W.written writer.old) (W.written writer.new) result
        (info_text format lines.now) }
{
    for line in lines {
        line.print(format, writer)?;
    }
    Ok(())
}

/// Returns how many headers have a role.
pub fn count_role(headers: &[ObjectHeader], role: Role) -> u64
    ensures { result ≡ headers_with role headers.now }
{
    let number = role.number();
    let found = headers
        .iter()
        .filter(|header| header.role.number() == number)
        .count();
    found as u64
}

// Appends the lines of home ranges.
fn push_ranges(lines: &mut Vec<InfoLine>, ranges: &[HomeRange]) -> Result<(), AllocError>
    ensures { OnOk result (lines.new.items ≡ lines.old.items ++ map range_line ranges.now) }
{
    for range in ranges {
        lines.push(InfoLine::Range {
            first: range.first,
            count: range.count,
        })?;
    }
    Ok(())
}

/// Returns the lines about an image with this superblock, this checkpoint and these object headers. Fails only if
/// memory runs out.
pub(crate) fn lines_about(
    alloc: Global,
    superblock: &Superblock,
    saved: Checkpoint,
    headers: &[ObjectHeader],
) -> Result<Vec<InfoLine>, AllocError>
    ensures { IfOk result (λ lines. lines.items
        ≡ lines_with superblock.now saved (λ r. headers_with r headers.now)) }
{
    let geometry = superblock.geometry();
    let first = [
        InfoLine::Layout(superblock.version().number()),
        InfoLine::Nodes(geometry.nodes),
        InfoLine::Pages(geometry.pages),
        InfoLine::Log(geometry.log),
    ];
    let last = [
        InfoLine::Sectors(superblock.total()),
        InfoLine::Generation(saved.generation),
        InfoLine::Age(saved.age),
        InfoLine::Entries(saved.entries),
        InfoLine::Free(count_role(headers, Role::Free)),
        InfoLine::PageObjects(count_role(headers, Role::Page)),
        InfoLine::NodeObjects(count_role(headers, Role::Node)),
        InfoLine::Processes(count_role(headers, Role::Root)),
        InfoLine::Banks(count_role(headers, Role::Bank)),
    ];
    let mut lines = Vec::new(alloc);
    lines.extend_from_slice(&first)?;
    push_ranges(&mut lines, superblock.ranges())?;
    lines.extend_from_slice(&last)?;
    Ok(lines)
}
