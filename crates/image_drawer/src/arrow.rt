// Arrows: one for each capability that names an object.
ghost use Rattle.std.specs.Prelude.{◌≡◌, ◌+◌, ◌≤◌, ◌++◌, length};
ghost use Rattle.std.specs.List.{flat_map};
ghost use Rattle.model.specs.Capability.{access_bits};
ghost use Rattle.script.specs.Writing.{Writes};
ghost use Rattle.image_drawer.specs.Graph.{arrow_line, arrow_of, kind_text, place_text, style_text};

use crate::lines::{begin, push_number};
use bitflags::Flags;
use model::{Access, Capability};
use script::{LineText, Output, RunFault};

/// Where a capability is held.
#[derive(Clone, Copy)]
pub enum Place {
    /// The address space of a process.
    Space,
    /// A register of a process.
    Register(u64),
    /// A slot of a node.
    Slot(u64),
}

/// A capability that names an object, with its holder.
#[derive(Clone, Copy)]
pub struct Arrow {
    /// The number of the process or node that holds the capability.
    pub holder: u64,
    pub place: Place,
    pub capability: Capability,
    /// The number of the object that the capability names.
    pub target: u64,
}

// Appends the short name of a place: `r4` is register 4, and `s0` slot 0.
fn push_place(line: &mut LineText, place: Place)
    requires { length line.old ≤ 100 }
    ensures text { line.new ≡ line.old ++ place_text place }
    ensures short { length line.new ≤ length line.old + 21 }
{
    match place {
        Place::Space => line.push(b"space"),
        Place::Register(index) => {
            line.push(b"r");
            push_number(line, index);
        }
        Place::Slot(index) => {
            line.push(b"s");
            push_number(line, index);
        }
    }
}

// Appends what the boxes don't show: the height of a space, the key of a start capability, or `resume`.
#[tactic(auto, using(std::proofs::Common::append_assoc))]
fn push_kind(line: &mut LineText, capability: Capability)
    requires { length line.old ≤ 200 }
    ensures text { line.new ≡ line.old ++ kind_text capability }
    ensures short { length line.new ≤ length line.old + 28 }
{
    match capability {
        Capability::Space { height, .. } => line.named(b"height", u64::from(height)),
        Capability::Start { key, .. } => line.named(b"start", u64::from(key)),
        Capability::Resume(_) => line.word(b"resume"),
        _ => {}
    }
}

// Returns the access of a capability.
fn access_of(capability: Capability) -> Access
    ensures { result.0 ≡ access_bits capability }
{
    match capability {
        Capability::Page { access, .. }
        | Capability::Node { access, .. }
        | Capability::Space { access, .. } => access,
        _ => Access::full(),
    }
}

// Appends the line style of an arrow, unless its access is full.
fn push_style(line: &mut LineText, access: Access)
    requires { length line.old ≤ 300 }
    ensures text { line.new ≡ line.old ++ style_text access.0 }
    ensures short { length line.new ≤ length line.old + 13 }
{
    if access == Access::READ_ONLY {
        line.push(b" style=dashed");
    } else if !access.is_empty() {
        line.push(b" style=dotted");
    }
}

impl Arrow {
    // Writes the line of an arrow.
    #[tactic(auto, using(crate::proofs::Texts::arrow_put), unfolding(crate::specs::Graph::arrow_line))]
    fn draw<W: Output>(self, writer: &mut W) -> Result<(), RunFault>
        ensures { Writes (W.written writer.old) (W.written writer.new) result (arrow_line self) }
    {
        let mut line = begin(self.holder);
        line.word(b"->");
        line.number(self.target);
        line.word(b"[label=\"");
        push_place(&mut line, self.place);
        push_kind(&mut line, self.capability);
        line.push(b"\"");
        push_style(&mut line, access_of(self.capability));
        line.push(b"]");
        line.print(writer)
    }
}

/// Writes the arrow of a capability, if it names an object.
pub(crate) fn draw_arrow<W: Output>(
    holder: u64,
    place: Place,
    capability: Capability,
    writer: &mut W,
) -> Result<(), RunFault>
    ensures { Writes (W.written writer.old) (W.written writer.new) result
        (flat_map arrow_line (arrow_of holder place capability)) }
{
    match capability.named() {
        None => Ok(()),
        Some(target) => Arrow {
            holder,
            place,
            capability,
            target,
        }
        .draw(writer),
    }
}
