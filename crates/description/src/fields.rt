// Finding the first malformed field, or the first index that occurs twice.
ghost use Rattle.std.specs.Prelude.{◌≡◌, ◌↔◌, map, IsTrue, MatchOption};
ghost use Rattle.std.specs.List.{All};
ghost use Rattle.description.specs.Described.{AreSlots, AreWords, HasFields, IsProcessEntry, IsSomeCapability};
ghost use Rattle.description.specs.Described.{IsSpaceEntry};
ghost use Rattle.description.specs.FieldFlaws.{BreaksField, BreaksIndexed, BreaksProcess, BreaksSlots, IsFirst};
ghost use Rattle.description.specs.FieldFlaws.{process_of};

use crate::flaw::{Indexed, Part, SlotFlaw};
use crate::indexed::find_indexed;
use crate::{Description, NodeEntry, PageEntry, ProcessEntry, SlotEntry, WordEntry};
use model::{Capability, SLOTS, WORDS};

// Keys of start capabilities have 16 bits, so they are below this.
const KEYS: u64 = 1 << 16;

/// Whether there is a capability, and it is well formed. `None` stands for a text that isn't a capability's.
pub fn is_capability(capability: Option<Capability>) -> bool
    ensures { IsTrue result ↔ IsSomeCapability capability }
{
    match capability {
        Some(capability) => capability.is_well_formed(),
        None => false,
    }
}

// Whether there is a capability, and it is well formed and may be an address space.
fn is_space(space: Option<Capability>) -> bool
    ensures { IsTrue result ↔ IsSpaceEntry space }
{
    match space {
        Some(space) => space.is_well_formed() && space.may_be_space(),
        None => false,
    }
}

// Returns the index of the first slot whose text isn't a capability's, or `None`.
fn first_text(slots: &[SlotEntry]) -> Option<usize>
    ensures { MatchOption result
        (All (λ s. IsSomeCapability s.capability) slots.now)
        (λ i. IsFirst (λ s. IsSomeCapability s.capability) (λ s. IsSomeCapability s.capability → ⊥) slots.now i) }
{
    for (i, slot) in slots.iter().enumerate() {
        if !is_capability(slot.capability) {
            return Some(i);
        }
    }
    None
}

// Returns the first flaw of a list of slots, or `None`. An index must be from `first` to 31.
#[tactic(auto, unfolding(crate::specs::FieldFlaws::BreaksSlots))]
fn bad_slots(first: u64, slots: &[SlotEntry]) -> Option<SlotFlaw>
    ensures { MatchOption result (AreSlots first slots.now) (λ flaw. BreaksSlots first slots.now flaw) }
{
    if let Some(flaw) = find_indexed(first, SLOTS as u64, slots) {
        return Some(SlotFlaw::Index(flaw));
    }
    match first_text(slots) {
        Some(i) => Some(SlotFlaw::Text(i)),
        None => None,
    }
}

// Returns the first flaw of the words of a page, or `None`.
#[tactic(auto, using(crate::proofs::FieldFlaws::are_words))]
fn bad_words(words: &[WordEntry]) -> Option<Indexed>
    ensures { MatchOption result (AreWords words.now)
        (λ flaw. BreaksIndexed 0 512 (map (λ w. w.index) words.now) flaw) }
{
    find_indexed(0, WORDS as u64, words)
}

// Returns the first malformed field of a process, or `None`. `k` is the index of the process.
#[tactic(auto, unfolding(crate::specs::FieldFlaws::BreaksProcess))]
fn bad_process(k: usize, process: &ProcessEntry) -> Option<Part>
    ensures { MatchOption result (IsProcessEntry process.now)
        (λ part. (process_of part ≡ k) × BreaksProcess process.now part) }
{
    if process.state.is_none() {
        return Some(Part::State(k));
    }
    if process.key >= KEYS {
        return Some(Part::Key(k));
    }
    if !is_space(process.space) {
        return Some(Part::Space(k));
    }
    match bad_slots(1, &process.registers) {
        Some(flaw) => Some(Part::Registers(k, flaw)),
        None => None,
    }
}

// Returns the first malformed field of the first process that has one, or `None`.
fn bad_processes(processes: &[ProcessEntry]) -> Option<Part>
    ensures { MatchOption result (All IsProcessEntry processes.now)
        (λ part. IsFirst IsProcessEntry (λ p. BreaksProcess p part) processes.now (process_of part)) }
{
    for (k, process) in processes.iter().enumerate() {
        if let Some(part) = bad_process(k, process) {
            return Some(part);
        }
    }
    None
}

// Returns the index of the first node whose slots have a flaw, with the flaw, or `None`.
fn bad_nodes(nodes: &[NodeEntry]) -> Option<(usize, SlotFlaw)>
    ensures { MatchOption result (All (λ n. AreSlots 0 n.slots.items) nodes.now)
        (λ bad. IsFirst (λ n. AreSlots 0 n.slots.items) (λ n. BreaksSlots 0 n.slots.items bad.1) nodes.now bad.0) }
{
    for (k, node) in nodes.iter().enumerate() {
        if let Some(flaw) = bad_slots(0, &node.slots) {
            return Some((k, flaw));
        }
    }
    None
}

// Returns the index of the first page whose words have a flaw, with the flaw, or `None`.
fn bad_pages(pages: &[PageEntry]) -> Option<(usize, Indexed)>
    ensures { MatchOption result (All (λ p. AreWords p.words.items) pages.now)
        (λ bad. IsFirst (λ p. AreWords p.words.items)
        (λ p. BreaksIndexed 0 512 (map (λ w. w.index) p.words.items) bad.1) pages.now bad.0) }
{
    for (k, page) in pages.iter().enumerate() {
        if let Some(flaw) = bad_words(&page.words) {
            return Some((k, flaw));
        }
    }
    None
}

/// Returns the first field that is malformed or occurs twice, or `None`. Processes come first, then nodes, then
/// pages. In a process the order is state, key, space, registers. In a list an index out of range comes first,
/// then one that occurs twice, then a text that isn't a capability's.
pub(crate) fn misfilled(description: &Description) -> Option<Part>
    ensures { MatchOption result (HasFields description.now) (λ part. BreaksField description.now part) }
{
    if let Some(part) = bad_processes(&description.processes) {
        return Some(part);
    }
    if let Some((k, flaw)) = bad_nodes(&description.nodes) {
        return Some(Part::Slots(k, flaw));
    }
    match bad_pages(&description.pages) {
        Some((k, flaw)) => Some(Part::Words(k, flaw)),
        None => None,
    }
}
