// Finding the first capability that fails a test.
ghost use Rattle.std.specs.Prelude.{◌≡◌, ◌↔◌, false, IsTrue, MatchOption};
ghost use Rattle.std.specs.List.{All};
ghost use Rattle.model.specs.declared.capability.Capability.{Capability};
ghost use Rattle.description.specs.FieldFlaws.{IsFirst};
ghost use Rattle.model.specs.Keepable.{IsTarget};
ghost use Rattle.description.specs.Broken.{OneOfNodes, OneOfProcess};
ghost use Rattle.description.specs.Broken.{AllHave, AllIn, AllOfProcess, FirstLacks, IfNamed, LacksIt, OneOf};

use crate::{Description, Held, NodeEntry, ProcessEntry, SlotEntry};
use model::{Capability, Geometry};
use std::marker::Model;

/// A test on capabilities.
pub trait Naming {
    /// Whether a capability passes.
    ghost Passes: { Self → Capability → Type 0 };

    fn passes(&self, capability: Capability) -> bool
        ensures { IsTrue result ↔ Passes self.now capability };
}

/// The test whether the number that a capability names is one for its kind of object.
#[derive(Drop)]
pub(crate) struct OfItsKind {
    geometry: Geometry,
}

impl Model for OfItsKind {
    ghost use Rattle.model.specs.declared.geometry.Geometry.{Geometry};

    ghost Value = { Geometry };

    ghost view = { λ k. k.geometry };
}

impl OfItsKind {
    pub(crate) fn new(geometry: Geometry) -> OfItsKind
        ensures { result ≡ geometry }
    {
        OfItsKind { geometry }
    }
}

impl Naming for OfItsKind {
    ghost Passes = { λ g c. IsTarget g c };

    fn passes(&self, capability: Capability) -> bool {
        self.geometry.has_target(capability)
    }
}

// Whether there is no capability, or it passes.
fn may_pass<N: Naming>(naming: &N, capability: Option<Capability>) -> bool
    ensures passes { IsTrue result → IfNamed (N.Passes naming.now) capability }
    ensures fails { result ≡ false → LacksIt (N.Passes naming.now) capability }
{
    match capability {
        Some(capability) => naming.passes(capability),
        None => true,
    }
}

// Returns the index of the first slot whose capability fails the test, or `None`.
fn first_failing<N: Naming>(naming: &N, slots: &[SlotEntry]) -> Option<usize>
    ensures { MatchOption result (AllIn (N.Passes naming.now) slots.now)
        (λ i. OneOf (N.Passes naming.now) slots.now i) }
{
    for (i, slot) in slots.iter().enumerate() {
        if !may_pass(naming, slot.capability) {
            return Some(i);
        }
    }
    None
}

// Returns the first capability of a process that fails the test, or `None`. The address space comes first,
// then the registers.
#[tactic(auto, unfolding(crate::specs::Broken::OneOfProcess))]
fn failing_in_process<N: Naming>(naming: &N, k: usize, process: &ProcessEntry) -> Option<Held>
    ensures { MatchOption result (AllOfProcess (N.Passes naming.now) process.now)
        (λ at. OneOfProcess (N.Passes naming.now) k process.now at) }
{
    if !may_pass(naming, process.space) {
        return Some(Held::Space(k));
    }
    match first_failing(naming, &process.registers) {
        Some(i) => Some(Held::Register(k, i)),
        None => None,
    }
}

// Returns the index of the first process with a capability that fails the test, with the capability's place, or
// `None`.
fn failing_in_processes<N: Naming>(naming: &N, processes: &[ProcessEntry]) -> Option<(usize, Held)>
    ensures { MatchOption result (All (AllOfProcess (N.Passes naming.now)) processes.now)
        (λ bad. IsFirst (AllOfProcess (N.Passes naming.now))
        (λ p. OneOfProcess (N.Passes naming.now) bad.0 p bad.1) processes.now bad.0) }
{
    for (k, process) in processes.iter().enumerate() {
        if let Some(at) = failing_in_process(naming, k, process) {
            return Some((k, at));
        }
    }
    None
}

// Returns the first slot of the nodes whose capability fails the test, or `None`.
fn failing_in_nodes<N: Naming>(naming: &N, nodes: &[NodeEntry]) -> Option<Held>
    ensures { MatchOption result (All (λ n. AllIn (N.Passes naming.now) n.slots.items) nodes.now)
        (λ at. OneOfNodes (N.Passes naming.now) nodes.now at) }
{
    for (k, node) in nodes.iter().enumerate() {
        if let Some(i) = first_failing(naming, &node.slots) {
            return Some(Held::Slot(k, i));
        }
    }
    None
}

/// Returns the first capability of a description that fails the test, or `None`. Processes come first, then nodes.
pub fn failing<N: Naming>(naming: &N, description: &Description) -> Option<Held>
    ensures { MatchOption result (AllHave (N.Passes naming.now) description.now)
        (λ at. FirstLacks (N.Passes naming.now) description.now at) }
{
    if let Some((_, at)) = failing_in_processes(naming, &description.processes) {
        return Some(at);
    }
    failing_in_nodes(naming, &description.nodes)
}
