// Invocations through gates: start and resume capabilities.
ghost use Rattle.std.specs.Prelude.{◌≡◌, ◌+◌, ◌<◌, ◌^◌, ◌≤◌, ◌∷◌, ℕ, [], length, take, true, ◌||◌, IfSome, None, OnOk};
ghost use Rattle.std.specs.Prelude.{IsTrue};
ghost use Rattle.model.specs.declared.command.Command.TheVariants as command;
ghost use Rattle.model.specs.Frame.{header_at};
ghost use Rattle.model.specs.Invoke.{after_gate, can_start};
ghost use Rattle.model.specs.Keepable.{AreCurrent, AreKeepable};
ghost use Rattle.model.specs.Text.{Fits};
ghost use Rattle.model.specs.World.{annex_at, is_process, is_running_process};
ghost use Rattle.capability.specs.Parts.{AreSound, KeepsRest, MayFetch, Prepares, frames_of, objects_in};
ghost use Rattle.std.specs.List.{All};
ghost use Rattle.space_bank.specs.Banks.{AreCounted};
ghost use Rattle.gate.specs.Invoke.{entered, gate_capability, received, written_through, IsRequested, IsKernelObject};
ghost use Rattle.gate.specs.Invoke.{Invoked};
ghost use Rattle.gate.specs.Plan.{FitsCap};

use crate::delivery::deliver;
use crate::reading::{all_sent, fetch_process};
use capability::{Caller, Frames, PresentFrames, objects, roots};
use model::{Capability, Invocation, Message, Operation, Refusal, ResultCode, State};
use space_bank::Banks;

/// An invoked gate: its process, its key, and whether it works only once.
#[derive(Clone, Copy)]
pub struct Gate {
    pub process: u64,
    pub key: u16,
    pub is_resume: bool,
}

/// Returns the gate of a start or resume capability, or `None` for any other.
pub fn gate_of(capability: Capability) -> Option<Gate>
    ensures gate { IfSome result (λ gate. capability ≡ gate_capability gate) }
    ensures key { IfSome result (λ gate. gate.is_resume ≡ true → gate.key ≡ 0) }
    ensures object { result ≡ None → IsKernelObject capability }
{
    match capability {
        Capability::Start { process, key } => Some(Gate {
            process,
            key,
            is_resume: false,
        }),
        Capability::Resume(process) => Some(Gate {
            process,
            key: 0,
            is_resume: true,
        }),
        _ => None,
    }
}

// Returns the message that a gate receives. For a call the last capability is the right to answer.
fn message(invocation: &Invocation, sent: [Capability; 4], key: u16) -> Message
    ensures words { result.words ≡ invocation.now.words }
    ensures key { result.key ≡ key }
    ensures capabilities { result.capabilities ≡ received invocation.now sent }
{
    let words = invocation.words;
    let mut capabilities = sent;
    if let Operation::Call = invocation.operation {
        capabilities[3] = Capability::Resume(invocation.process);
    }
    Message {
        words,
        key,
        capabilities,
    }
}

// Returns how many objects an invocation through a gate writes: the receiver, its annex and, unless it is a
// send, the process that invokes.
fn written_count(operation: Operation) -> usize
    ensures within { result ≤ 3 }
    ensures written { (process receiver annex : ℕ)
        → take result (receiver ∷ annex ∷ process ∷ []) ≡ written_through operation process receiver annex }
{
    match operation {
        Operation::Send => 2,
        Operation::Call | Operation::Return => 3,
    }
}

// Fetches and announces what an invocation through a gate writes.
#[tactic(auto, using(crate::proofs::Effects::all_through))]
fn announce_gate<F: PresentFrames>(
    store: &mut F,
    invocation: &Invocation,
    receiver: u64,
    annex: u64,
) -> Result<(), Refusal>
    requires may { MayFetch F.IsUsable F.parts store.old }
    requires process { invocation.now.process < length (F.parts store.old).headers }
    requires receiver { receiver < length (F.parts store.old).headers }
    requires annex { annex < length (F.parts store.old).headers }
    ensures fetched { OnOk result (F.IsFetched store.new invocation.now.process
        × F.IsFetched store.new receiver × F.IsFetched store.new annex) }
    ensures announced { OnOk result
        (F.IsAnnounced store.new receiver × F.IsAnnounced store.new annex
        × ((invocation.now.operation ≡ Operation.Send → ⊥)
        → F.IsAnnounced store.new invocation.now.process)) }
    ensures prepares { Prepares F.parts F.ContinuesTo store.old store.new
        (written_through invocation.now.operation invocation.now.process receiver annex) result }
{
    let all = [receiver, annex, invocation.process];
    store.prepare(&all, &all[..written_count(invocation.operation)])
}

// Changes the state of the process that invokes: one that calls waits, and one that returns is available.
fn set_state_at_gate<F: PresentFrames>(store: &mut F, invocation: &Invocation)
    requires process { IsTrue (is_process
        (objects_in (F.parts store.old)) invocation.now.process) }
    requires fetched { F.IsFetched store.old invocation.now.process }
    requires announced { (invocation.now.operation ≡ Operation.Send → ⊥)
        → F.IsAnnounced store.old invocation.now.process }
    ensures objects { objects_in (F.parts store.new)
        ≡ after_gate (objects_in (F.parts store.old)) invocation.now }
    ensures current { AreCurrent (frames_of (F.parts store.old))
        → AreCurrent (frames_of (F.parts store.new)) }
    ensures keepable { (age : ℕ)
        → AreKeepable (F.parts store.old).geometry age (frames_of (F.parts store.old))
        → AreKeepable (F.parts store.old).geometry age (frames_of (F.parts store.new)) }
    ensures headers { (F.parts store.new).headers ≡ (F.parts store.old).headers }
    ensures snapshots { KeepsRest F.parts F.IsFetched F.IsAnnounced F.ContinuesTo store.old store.new }
{
    match invocation.operation {
        Operation::Call => roots::set_state(store, invocation.process, State::Waiting),
        Operation::Return => roots::set_state(store, invocation.process, State::Available),
        Operation::Send => {}
    }
}

// Sends the message through the gate. A resume capability is consumed at the end, so a copy of it that was
// sent arrives void.
fn enter<F: PresentFrames>(
    store: &mut F,
    invocation: &Invocation,
    gate: Gate,
    annex: u64,
    sent: [Capability; 4],
)
    requires process { IsTrue (is_process
        (objects_in (F.parts store.old)) invocation.now.process) }
    requires receiver { IsTrue (is_process
        (objects_in (F.parts store.old)) gate.process) }
    requires annex { annex ≡ annex_at (objects_in (F.parts store.old)) gate.process }
    requires calls { (header_at (F.parts store.old).headers gate.process).calls < u64.MAX }
    requires current { AreCurrent (frames_of (F.parts store.old)) }
    requires fetched { F.IsFetched store.old invocation.now.process
        × F.IsFetched store.old gate.process × F.IsFetched store.old annex }
    requires announced { F.IsAnnounced store.old gate.process × F.IsAnnounced store.old annex
        × ((invocation.now.operation ≡ Operation.Send → ⊥)
        → F.IsAnnounced store.old invocation.now.process) }
    ensures objects { objects_in (F.parts store.new)
        ≡ entered (objects_in (F.parts store.old)) invocation.now gate sent }
    ensures current { AreCurrent (frames_of (F.parts store.new)) }
    ensures keepable { (age : ℕ) → age + 1 < 2 ^ 64
        → All (FitsCap (F.parts store.old).geometry) (received invocation.now sent)
        → AreKeepable (F.parts store.old).geometry age (frames_of (F.parts store.old))
        → AreKeepable (F.parts store.old).geometry (age + 1) (frames_of (F.parts store.new)) }
    ensures snapshots { KeepsRest F.parts F.IsFetched F.IsAnnounced F.ContinuesTo store.old store.new }
{
    set_state_at_gate(store, invocation);
    let message = message(invocation, sent, gate.key);
    deliver(store, gate.process, message);
    if gate.is_resume {
        objects::consume(store, gate.process);
    }
}

// Whether a gate can be entered: it resumes a process, or its process is available, or a process returns to
// itself.
fn can_enter<F: Frames>(store: &F, invocation: &Invocation, gate: Gate) -> bool
    requires fetched { F.IsFetched store.now gate.process }
    requires process { IsTrue (is_process
        (objects_in (F.parts store.now)) gate.process) }
    ensures { result ≡ (gate.is_resume || can_start
        (objects_in (F.parts store.now)) invocation.now gate.process) }
{
    if gate.is_resume || roots::state(store, gate.process) == State::Available {
        return true;
    }
    invocation.operation == Operation::Return && invocation.process == gate.process
}

/// Carries out an invocation by a running process through a gate. For a start capability the process must be
/// available, or return to itself; otherwise it returns `Stalled`.
pub fn invoke_gate<F: PresentFrames>(
    store: &mut F,
    banks: &Banks,
    invocation: &Invocation,
    caller: Caller,
    gate: Gate,
) -> Result<Option<ResultCode>, Refusal>
    requires usable { F.IsUsable store.old }
    requires sound { AreSound (F.parts store.old) }
    requires running { IsTrue (is_running_process
        (objects_in (F.parts store.old)) invocation.now.process) }
    requires counted { AreCounted (F.parts store.old).geometry
        (objects_in (F.parts store.old)) banks.now }
    requires fits { Fits (command.Invoke invocation.now) }
    requires few { length (F.parts store.old).headers < 2 ^ 64 }
    requires requested { IsRequested (objects_in (F.parts store.old)) invocation.now caller }
    requires fetched { F.IsFetched store.old caller.annex }
    requires gate { caller.invoked ≡ gate_capability gate }
    requires key { gate.is_resume ≡ true → gate.key ≡ 0 }
    ensures { Invoked F.parts F.ContinuesTo store.old store.new invocation.now result }
{
    let sent = all_sent(store, invocation, caller.annex);
    let annex = fetch_process(store, banks, gate.process)?;
    if !can_enter(store, invocation, gate) {
        return Err(Refusal::Stalled);
    }
    announce_gate(store, invocation, gate.process, annex)?;
    enter(store, invocation, gate, annex, sent);
    Ok(None)
}
