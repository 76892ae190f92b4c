// Restricting a description to the part that is drawn.
ghost use Rattle.std.specs.Prelude.{◌≡◌, ℕ, Bool, None, Some};
ghost use Rattle.std.specs.List.{AllZip, filter};
ghost use Rattle.collections.specs.Marks.{is_marked};
ghost use Rattle.image_drawer.specs.Part.{IsPart, IsPartOfNode, IsPartOfProcess, leads_inside, space_inside};

use collections::NumberSet;
use description::{Description, NodeEntry, ProcessEntry, SlotEntry};
use model::Capability;

// Whether a number is in a set. A number out of range isn't.
fn has(inside: &NumberSet, number: u64) -> bool
    ensures { result ≡ is_marked inside.now number }
{
    inside.next(number as usize) == Some(number as usize)
}

// Whether a capability names nothing, or an object in the set.
fn leads_inside(inside: &NumberSet, capability: Option<Capability>) -> bool
    ensures { result ≡ leads_inside (is_marked inside.now) capability }
{
    match capability {
        Some(capability) => match capability.named() {
            Some(object) => has(inside, object),
            None => true,
        },
        None => true,
    }
}

// Returns the address space, or void if it names an object outside the set.
fn space_inside(inside: &NumberSet, space: Option<Capability>) -> Option<Capability>
    ensures { result ≡ space_inside (is_marked inside.now) space }
{
    if leads_inside(inside, space) {
        space
    } else {
        Some(Capability::Void)
    }
}

// Removes the slots whose capabilities name objects outside the set.
fn restrict_slots(inside: &NumberSet, slots: &mut Vec<SlotEntry>)
    ensures { slots.new.items
        ≡ filter (λ s. leads_inside (is_marked inside.now) s.capability) slots.old.items }
{
    slots.retain(|slot| leads_inside(inside, slot.capability));
}

// An entry that can be restricted to a set.
trait Restricted {
    /// The second entry is the first one restricted to a set. The function says which numbers are
    /// in the set.
    ghost IsPartOf: { (ℕ → Bool) → Self → Self → Type 0 };

    /// Removes the capabilities that name objects outside a set.
    fn restrict(&mut self, inside: &NumberSet)
        ensures { IsPartOf (is_marked inside.now) self.old self.new };
}

impl Restricted for ProcessEntry {
    ghost IsPartOf = { IsPartOfProcess };

    fn restrict(&mut self, inside: &NumberSet) {
        self.space = space_inside(inside, self.space);
        restrict_slots(inside, &mut self.registers);
    }
}

impl Restricted for NodeEntry {
    ghost IsPartOf = { IsPartOfNode };

    fn restrict(&mut self, inside: &NumberSet) {
        restrict_slots(inside, &mut self.slots);
    }
}

#[tactic(auto, using(description::proofs::Pairs::zip_set, description::proofs::Pairs::zip_whole))]
fn restrict_all<T: Restricted>(inside: &NumberSet, entries: &mut [T])
    ensures { AllZip (T.IsPartOf (is_marked inside.now)) entries.old entries.new }
{
    for entry in entries.iter_mut() {
        entry.restrict(inside);
    }
}

/// Restricts a description to a set of objects: removes all other objects, and the capabilities that name them. The
/// graph of the result has the boxes of the set, and the arrows between them.
pub fn restrict(description: &mut Description, inside: &NumberSet)
    ensures { IsPart (is_marked inside.now) description.old description.new }
{
    description.banks.retain(|bank| has(inside, bank.number));
    description
        .processes
        .retain(|process| has(inside, process.root));
    description.nodes.retain(|node| has(inside, node.number));
    description.pages.retain(|page| has(inside, page.number));
    restrict_all(inside, description.processes.as_mut_slice());
    restrict_all(inside, description.nodes.as_mut_slice());
}
