// The graph of a description.
ghost use Rattle.std.specs.List.{flat_map};
ghost use Rattle.script.specs.Writing.{Writes};
ghost use Rattle.image_drawer.specs.Graph.{arrow_line, arrow_lines, box_lines, graph_text, owner_line, owner_lines};

use crate::part::Part;
use description::Description;
use model::Object;
use script::{Output, RunFault};

// Writes the boxes of these objects, in order.
fn draw_boxes<P: Part, W: Output>(parts: &[P], writer: &mut W) -> Result<(), RunFault>
    ensures { Writes (W.written writer.old) (W.written writer.new) result
        (flat_map P.box_of parts.now) }
{
    for part in parts {
        part.draw_box(writer)?;
    }
    Ok(())
}

// Writes the lines that put all parts into the rectangles of the banks that own them.
fn draw_owners<P: Part, W: Output>(
    objects: &[Object],
    parts: &[P],
    writer: &mut W,
) -> Result<(), RunFault>
    ensures { Writes (W.written writer.old) (W.written writer.new) result
        (flat_map (owner_line objects.now) (flat_map P.owner_of parts.now)) }
{
    for part in parts {
        part.draw_owner(objects, writer)?;
    }
    Ok(())
}

// Writes the arrows of these objects.
fn draw_arrows<P: Part, W: Output>(parts: &[P], writer: &mut W) -> Result<(), RunFault>
    ensures { Writes (W.written writer.old) (W.written writer.new) result
        (flat_map arrow_line (flat_map P.arrows_of parts.now)) }
{
    for part in parts {
        part.draw_arrows(writer)?;
    }
    Ok(())
}

// Writes the boxes of all objects.
fn draw_all_boxes<W: Output>(description: &Description, writer: &mut W) -> Result<(), RunFault>
    ensures { Writes (W.written writer.old) (W.written writer.new) result
        (box_lines description.now) }
{
    draw_boxes(description.banks.as_slice(), writer)?;
    draw_boxes(description.processes.as_slice(), writer)?;
    draw_boxes(description.nodes.as_slice(), writer)?;
    draw_boxes(description.pages.as_slice(), writer)
}

// Writes the lines that put all objects into the rectangles of the banks that own them.
fn draw_all_owners<W: Output>(
    objects: &[Object],
    description: &Description,
    writer: &mut W,
) -> Result<(), RunFault>
    ensures { Writes (W.written writer.old) (W.written writer.new) result
        (owner_lines objects.now description.now) }
{
    draw_owners(objects, description.banks.as_slice(), writer)?;
    draw_owners(objects, description.processes.as_slice(), writer)?;
    draw_owners(objects, description.nodes.as_slice(), writer)?;
    draw_owners(objects, description.pages.as_slice(), writer)
}

// Writes the arrows of all objects.
fn draw_all_arrows<W: Output>(description: &Description, writer: &mut W) -> Result<(), RunFault>
    ensures { Writes (W.written writer.old) (W.written writer.new) result
        (arrow_lines description.now) }
{
    draw_arrows(description.processes.as_slice(), writer)?;
    draw_arrows(description.nodes.as_slice(), writer)
}

/// Writes the graph of a description in DOT: a box for each object that it names, in the rectangle of the bank that owns
/// it, and an arrow for each capability that names an object. `objects` are all objects of the image: by their owners
/// the rectangle of each bank stands in that of its owner, also where the description leaves that bank out.
///
/// Returns `Err(RunFault::Write)` if the writer fails or accepts no bytes; then it accepted only a beginning of the
/// text. It takes no memory.
pub fn draw<W: Output>(
    objects: &[Object],
    description: &Description,
    writer: &mut W,
) -> Result<(), RunFault>
    ensures { Writes (W.written writer.old) (W.written writer.new) result
        (graph_text objects.now description.now) }
{
    writer.write_fully(
        b"digraph eros {\ngraph [rankdir=LR newrank=true]\nnode [fontsize=10 height=0 margin=0.05]\n\
          edge [fontsize=8]\n",
    )?;
    draw_all_boxes(description, writer)?;
    draw_all_owners(objects, description, writer)?;
    draw_all_arrows(description, writer)?;
    writer.write_fully(b"}\n")
}
