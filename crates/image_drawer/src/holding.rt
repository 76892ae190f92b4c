// Finding the holders of an object.
ghost use Rattle.std.specs.Prelude.{◌≡◌, ◌<◌, ◌^◌, ◌||◌, ◌==◌, ℕ, length, IfOk, IsTrue};
ghost use Rattle.std.specs.List.{All, list_any};
ghost use Rattle.collections.specs.Marks.{is_marked};
ghost use Rattle.model.specs.Sound.{object_count};
ghost use Rattle.description.specs.Described.{HasNumbers};
ghost use Rattle.image_drawer.specs.Graph.{boxes};
ghost use Rattle.image_drawer.specs.Part.{Adds, holders, holding_nodes, holding_processes, holds_in, is_listed};
ghost use Rattle.image_drawer.specs.Part.{names};

use collections::NumberSet;
use description::{BankEntry, Description, NodeEntry, PageEntry, ProcessEntry, SlotEntry};
use model::Capability;
use std::alloc::{AllocError, Global};

// Whether a capability names this object.
fn names(object: u64, capability: Option<Capability>) -> bool
    ensures { result ≡ names object capability }
{
    match capability {
        Some(capability) => match capability.named() {
            Some(named) => named == object,
            None => false,
        },
        None => false,
    }
}

fn holds_in(object: u64, slots: &[SlotEntry]) -> bool
    ensures { result ≡ holds_in object slots.now }
{
    slots.iter().any(|slot| names(object, slot.capability))
}

fn holds(object: u64, process: &ProcessEntry) -> bool
    ensures { result ≡ (names object process.now.space || holds_in object process.now.registers.items) }
{
    names(object, process.space) || holds_in(object, &process.registers)
}

// Returns the numbers of the processes that hold a capability to an object. This function and `holding_nodes`
// fail only if memory runs out.
fn holding_processes(
    alloc: Global,
    object: u64,
    processes: &[ProcessEntry],
) -> Result<Vec<u64>, AllocError>
    ensures { IfOk result (λ numbers. numbers.items ≡ holding_processes object processes.now) }
{
    let holding = processes.iter().filter(|process| holds(object, process));
    holding.map(|process| process.root).collect(alloc)
}

fn holding_nodes(alloc: Global, object: u64, nodes: &[NodeEntry]) -> Result<Vec<u64>, AllocError>
    ensures { IfOk result (λ numbers. numbers.items ≡ holding_nodes object nodes.now) }
{
    let holding = nodes.iter().filter(|node| holds_in(object, &node.slots));
    holding.map(|node| node.number).collect(alloc)
}

// Adds numbers to a set.
#[tactic(auto, using(crate::proofs::Listed::adds_none, crate::proofs::Listed::adds_more))]
fn mark(inside: &mut NumberSet, numbers: &[u64])
    requires { All (λ n. n < length inside.old) numbers.now }
    ensures { Adds numbers.now inside.old inside.new }
{
    for number in numbers {
        inside.set(*number as usize, true);
    }
}

fn has_bank(banks: &[BankEntry], number: u64) -> bool
    ensures { result ≡ list_any (λ b. b.number == number) banks.now }
{
    banks.iter().any(|bank| bank.number == number)
}

fn has_process(processes: &[ProcessEntry], number: u64) -> bool
    ensures { result ≡ list_any (λ p. p.root == number) processes.now }
{
    processes.iter().any(|process| process.root == number)
}

fn has_node(nodes: &[NodeEntry], number: u64) -> bool
    ensures { result ≡ list_any (λ n. n.number == number) nodes.now }
{
    nodes.iter().any(|node| node.number == number)
}

fn has_page(pages: &[PageEntry], number: u64) -> bool
    ensures { result ≡ list_any (λ p. p.number == number) pages.now }
{
    pages.iter().any(|page| page.number == number)
}

/// Whether the graph of a description has a box with this number.
#[tactic(auto, using(crate::proofs::Listed::box_listed))]
pub fn has_box(description: &Description, number: u64) -> bool
    ensures { result ≡ is_listed number (boxes description.now) }
{
    let is_bank = has_bank(&description.banks, number);
    let is_process = has_process(&description.processes, number);
    let is_node = has_node(&description.nodes, number);
    let is_page = has_page(&description.pages, number);
    is_bank || is_process || is_node || is_page
}

/// Returns the set of an object, and of the processes and nodes that hold a capability to it. Fails only if memory
/// runs out.
pub fn holders(
    alloc: Global,
    description: &Description,
    object: u64,
) -> Result<NumberSet, AllocError>
    requires few { object_count description.now.geometry < 2 ^ 64 }
    requires numbers { HasNumbers description.now }
    requires drawn { IsTrue (is_listed object (boxes description.now)) }
    ensures { IfOk result (λ inside. (n : ℕ) → is_marked inside n ≡ is_listed n (holders object description.now)) }
{
    let count = description.geometry.nodes + description.geometry.pages;
    let mut inside = NumberSet::new(alloc, count as usize)?;
    inside.set(object as usize, true);
    let mut numbers = holding_processes(alloc, object, &description.processes)?;
    let nodes = holding_nodes(alloc, object, &description.nodes)?;
    numbers.extend_from_slice(&nodes)?;
    mark(&mut inside, &numbers);
    Ok(inside)
}
