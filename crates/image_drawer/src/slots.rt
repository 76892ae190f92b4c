// Drawing registers and slots.
ghost use Rattle.std.specs.Prelude.{◌≡◌, ◌≤◌, length, unwrap_or};
ghost use Rattle.std.specs.List.{flat_map};
ghost use Rattle.model.specs.declared.capability.Capability.TheVariants.{Void};
ghost use Rattle.script.specs.Writing.{Writes};
ghost use Rattle.image_drawer.specs.Graph.{arrow_line, arrows_at, place_in, plain_line, plain_lines};

use crate::arrow::{Place, draw_arrow};
use crate::lines::push_number;
use description::SlotEntry;
use model::Capability;
use script::{LineText, Output, RunFault};

/// Returns the capability, or void if there is none.
pub(crate) fn held(capability: Option<Capability>) -> Capability
    ensures { result ≡ unwrap_or capability Void }
{
    match capability {
        Some(capability) => capability,
        None => Capability::Void,
    }
}

// Writes the line in its holder's box for a capability that names no object. Writes nothing for
// void.
fn draw_plain<W: Output>(
    name: &[u8],
    index: u64,
    capability: Capability,
    writer: &mut W,
) -> Result<(), RunFault>
    requires { length name.now ≤ 8 }
    ensures { Writes (W.written writer.old) (W.written writer.new) result
        (plain_line name.now index capability) }
{
    match capability {
        Capability::Number(_) | Capability::Discrim => {
            let mut line = LineText::new(b"\\n");
            line.push(name);
            push_number(&mut line, index);
            line.capability(capability);
            writer.write_fully(line.as_bytes())
        }
        _ => Ok(()),
    }
}

/// Writes a line for each of these capabilities that names no object and isn't void.
pub(crate) fn draw_plain_slots<W: Output>(
    name: &[u8],
    slots: &[SlotEntry],
    writer: &mut W,
) -> Result<(), RunFault>
    requires { length name.now ≤ 8 }
    ensures { Writes (W.written writer.old) (W.written writer.new) result
        (plain_lines name.now slots.now) }
{
    for slot in slots {
        draw_plain(name, slot.index, held(slot.capability), writer)?;
    }
    Ok(())
}

// Returns the place of a slot of a node, or of a register of a process.
fn place_in(is_node: bool, index: u64) -> Place
    ensures { result ≡ place_in is_node index }
{
    if is_node {
        Place::Slot(index)
    } else {
        Place::Register(index)
    }
}

/// Writes the arrows of all slots of a node, or of all registers of a process.
pub(crate) fn draw_slots<W: Output>(
    holder: u64,
    is_node: bool,
    slots: &[SlotEntry],
    writer: &mut W,
) -> Result<(), RunFault>
    ensures { Writes (W.written writer.old) (W.written writer.new) result
        (flat_map arrow_line (arrows_at holder (place_in is_node) slots.now)) }
{
    for slot in slots {
        let place = place_in(is_node, slot.index);
        draw_arrow(holder, place, held(slot.capability), writer)?;
    }
    Ok(())
}
