// How each kind of entry is drawn.
ghost use Rattle.std.specs.Prelude.{◌≡◌, ℕ, ◌≤◌, List, [], ◌∷◌, ◌++◌, codes, decimal, length};
ghost use Rattle.std.specs.List.{flat_map};
ghost use Rattle.model.specs.Text.{spaced};
ghost use Rattle.script.specs.Writing.{Writes};
ghost use Rattle.image_drawer.specs.Graph.{arrow_line, bank_box, joined, next_line, node_arrows, node_box};
ghost use Rattle.image_drawer.specs.Graph.{owner_line};
ghost use Rattle.image_drawer.specs.Graph.{page_box, process_arrows, process_box, word_of_state};
ghost use Rattle.image_drawer.specs.declared.arrow.Arrow.{Arrow};

use crate::arrow::{Place, draw_arrow};
use crate::lines::begin;
use crate::owner::draw_owner;
use crate::slots::{draw_plain_slots, draw_slots, held};
use description::{BankEntry, NodeEntry, PageEntry, ProcessEntry};
use model::{Object, State};
use script::{LineText, Output, RunFault, state_word};

/// A part of the graph: an object's box, its owner, and its arrows.
pub(crate) trait Part {
    /// The line of the object's box.
    ghost box_of: { Self → List ℕ };

    /// The object's owner and number; empty if the object owns itself.
    ghost owner_of: { Self → List (ℕ × ℕ) };

    /// The object's arrows.
    ghost arrows_of: { Self → List Arrow };

    /// Writes the object's box.
    fn draw_box<W: Output>(&self, writer: &mut W) -> Result<(), RunFault>
        ensures { Writes (W.written writer.old) (W.written writer.new) result (box_of self.now) };

    /// Writes the line that puts the object into the rectangles of the banks that own it.
    fn draw_owner<W: Output>(&self, objects: &[Object], writer: &mut W) -> Result<(), RunFault>
        ensures { Writes (W.written writer.old) (W.written writer.new) result
            (flat_map (owner_line objects.now) (owner_of self.now)) };

    /// Writes the object's arrows.
    fn draw_arrows<W: Output>(&self, writer: &mut W) -> Result<(), RunFault>
        ensures { Writes (W.written writer.old) (W.written writer.new) result
            (flat_map arrow_line (arrows_of self.now)) };
}

impl Part for BankEntry {
    ghost box_of = { bank_box };

    ghost owner_of = { λ b. joined b.owner b.number };

    ghost arrows_of = { λ _. [] };

    #[tactic(auto, using(std::proofs::Common::append_assoc), unfolding(crate::specs::Graph::bank_box))]
    fn draw_box<W: Output>(&self, writer: &mut W) -> Result<(), RunFault> {
        let mut line = begin(self.number);
        line.word(b"[label=\"bank");
        line.number(self.number);
        line.push(b"\\nlimit");
        line.number(self.limit);
        line.push(b"\" shape=house]");
        line.print(writer)
    }

    fn draw_owner<W: Output>(&self, objects: &[Object], writer: &mut W) -> Result<(), RunFault> {
        draw_owner(objects, self.owner, self.number, writer)
    }

    fn draw_arrows<W: Output>(&self, _writer: &mut W) -> Result<(), RunFault> {
        Ok(())
    }
}

// Returns the word for a state, or an empty text.
fn word_of(state: Option<State>) -> &'static [u8]
    ensures word { result.now ≡ word_of_state state }
    ensures short { length result.now ≤ 9 }
{
    match state {
        Some(state) => state_word(state),
        None => b"",
    }
}

// Returns the beginning of a process's box, up to its registers.
fn begin_process(process: &ProcessEntry) -> LineText
    ensures text { result ≡ spaced (decimal process.now.root
        ∷ (codes "[label=\"" ++ spaced (codes "process" ∷ decimal process.now.root ∷ codes "annex"
        ∷ decimal process.now.annex ∷ [])
        ++ next_line (spaced (word_of_state process.now.state ∷ codes "key" ∷ decimal process.now.key ∷ []))) ∷ []) }
    ensures short { length result ≤ 200 }
{
    let mut line = begin(process.root);
    line.word(b"[label=\"process");
    line.number(process.root);
    line.named(b"annex", process.annex);
    line.push(b"\\n");
    line.push(word_of(process.state));
    line.named(b"key", process.key);
    line
}

impl Part for ProcessEntry {
    ghost box_of = { process_box };

    ghost owner_of = { λ p. joined p.owner p.root };

    ghost arrows_of = { process_arrows };

    fn draw_box<W: Output>(&self, writer: &mut W) -> Result<(), RunFault> {
        writer.write_fully(begin_process(self).as_bytes())?;
        draw_plain_slots(b"r", self.registers.as_slice(), writer)?;
        writer.write_fully(b"\" shape=ellipse]\n")
    }

    fn draw_owner<W: Output>(&self, objects: &[Object], writer: &mut W) -> Result<(), RunFault> {
        draw_owner(objects, self.owner, self.root, writer)
    }

    fn draw_arrows<W: Output>(&self, writer: &mut W) -> Result<(), RunFault> {
        draw_arrow(self.root, Place::Space, held(self.space), writer)?;
        draw_slots(self.root, false, self.registers.as_slice(), writer)
    }
}

// Returns the beginning of a node's box, up to its slots.
fn begin_node(number: u64) -> LineText
    ensures text { result
        ≡ spaced (decimal number ∷ (codes "[label=\"" ++ spaced (codes "node" ∷ decimal number ∷ [])) ∷ []) }
    ensures short { length result ≤ 100 }
{
    let mut line = begin(number);
    line.word(b"[label=\"node");
    line.number(number);
    line
}

impl Part for NodeEntry {
    ghost box_of = { node_box };

    ghost owner_of = { λ n. joined n.owner n.number };

    ghost arrows_of = { node_arrows };

    fn draw_box<W: Output>(&self, writer: &mut W) -> Result<(), RunFault> {
        writer.write_fully(begin_node(self.number).as_bytes())?;
        draw_plain_slots(b"s", self.slots.as_slice(), writer)?;
        writer.write_fully(b"\" shape=box]\n")
    }

    fn draw_owner<W: Output>(&self, objects: &[Object], writer: &mut W) -> Result<(), RunFault> {
        draw_owner(objects, self.owner, self.number, writer)
    }

    fn draw_arrows<W: Output>(&self, writer: &mut W) -> Result<(), RunFault> {
        draw_slots(self.number, true, self.slots.as_slice(), writer)
    }
}

impl Part for PageEntry {
    ghost box_of = { page_box };

    ghost owner_of = { λ p. joined p.owner p.number };

    ghost arrows_of = { λ _. [] };

    #[tactic(auto, using(std::proofs::Common::append_assoc), unfolding(crate::specs::Graph::page_box))]
    fn draw_box<W: Output>(&self, writer: &mut W) -> Result<(), RunFault> {
        let mut line = begin(self.number);
        line.word(b"[label=\"page");
        line.number(self.number);
        line.push(b"\" shape=note]");
        line.print(writer)
    }

    fn draw_owner<W: Output>(&self, objects: &[Object], writer: &mut W) -> Result<(), RunFault> {
        draw_owner(objects, self.owner, self.number, writer)
    }

    fn draw_arrows<W: Output>(&self, _writer: &mut W) -> Result<(), RunFault> {
        Ok(())
    }
}
