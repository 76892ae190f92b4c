// Lines that put objects into the rectangles of banks.
ghost use Rattle.std.specs.Prelude.{◌≡◌, ◌+◌, ◌≤◌, decimal, length};
ghost use Rattle.std.specs.List.{flat_map};
ghost use Rattle.model.specs.Bank.{chain_within};
ghost use Rattle.model.specs.World.{owner_at};
ghost use Rattle.script.specs.Writing.{Writes};
ghost use Rattle.image_drawer.specs.Rectangles.{ends, starts};
ghost use Rattle.image_drawer.specs.Graph.{rectangle_start, joined, owner_line};

use crate::lines::{begin, push_number};
use model::Object;
use script::{LineText, Output, RunFault};

// The most banks in a chain.
const MOST: u64 = 16;

// Returns the owner of an object, or 0 if there is none with this number.
fn owner_in(objects: &[Object], number: u64) -> u64
    ensures { result ≡ owner_at objects.now number }
{
    match objects.get(number as usize) {
        Some(object) => object.owner,
        None => 0,
    }
}

// Returns the beginning of a bank's rectangle.
fn start_rectangle(bank: u64) -> LineText
    ensures text { result ≡ rectangle_start bank }
    ensures short { length result ≤ 100 }
{
    let mut line = LineText::new(b"subgraph cluster_");
    push_number(&mut line, bank);
    line.word(b"{ label=\"bank");
    line.number(bank);
    line.push(b"\" ");
    line
}

// Begins the rectangles of a bank and of the banks above it, at most `most` in all, the outermost first.
fn start_rectangles<W: Output>(
    objects: &[Object],
    bank: u64,
    most: u64,
    writer: &mut W,
) -> Result<(), RunFault>
    ensures { Writes (W.written writer.old) (W.written writer.new) result
        (starts (chain_within most objects.now bank)) }
{
    if most == 0 {
        return Ok(());
    }
    if bank == 0 {
        return writer.write_fully(start_rectangle(bank).as_bytes());
    }
    start_rectangles(objects, owner_in(objects, bank), most - 1, writer)?;
    writer.write_fully(start_rectangle(bank).as_bytes())
}

// Ends the rectangles of a bank and of the banks above it, at most `most` in all.
fn end_rectangles<W: Output>(
    objects: &[Object],
    bank: u64,
    most: u64,
    writer: &mut W,
) -> Result<(), RunFault>
    ensures { Writes (W.written writer.old) (W.written writer.new) result
        (ends (chain_within most objects.now bank)) }
{
    if most == 0 {
        return Ok(());
    }
    writer.write_fully(b" }")?;
    if bank == 0 {
        return Ok(());
    }
    end_rectangles(objects, owner_in(objects, bank), most - 1, writer)
}

// Writes the line that puts an object into the rectangles of its owner and of the banks above it.
fn draw_joined<W: Output>(
    objects: &[Object],
    owner: u64,
    number: u64,
    writer: &mut W,
) -> Result<(), RunFault>
    ensures { Writes (W.written writer.old) (W.written writer.new) result (owner_line objects.now (owner, number)) }
{
    start_rectangles(objects, owner, MOST, writer)?;
    writer.write_fully(begin(number).as_bytes())?;
    end_rectangles(objects, owner, MOST, writer)?;
    writer.write_fully(b"\n")
}

/// Writes the line that puts an object into the rectangles of the banks that own it, unless the object owns itself.
pub(crate) fn draw_owner<W: Output>(
    objects: &[Object],
    owner: u64,
    number: u64,
    writer: &mut W,
) -> Result<(), RunFault>
    ensures { Writes (W.written writer.old) (W.written writer.new) result
        (flat_map (owner_line objects.now) (joined owner number)) }
{
    if owner == number {
        Ok(())
    } else {
        draw_joined(objects, owner, number, writer)
    }
}
