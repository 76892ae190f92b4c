// Carries out planned orders.
ghost use Rattle.std.specs.Prelude.{◌≡◌, ℕ, ◌+◌, ◌<◌, ◌≤◌, ◌^◌, drop, length, IsTrue};
ghost use Rattle.std.specs.List.{All};
ghost use Rattle.model.specs.declared.command.Invocation.{Invocation};
ghost use Rattle.model.specs.Keepable.{AreCurrent, AreKeepable};
ghost use Rattle.model.specs.World.{annex_at, is_process, is_running_process};
ghost use Rattle.model_laws.proofs.SoundOrders.{IsNow};
ghost use Rattle.capability.specs.Changes.{changed};
ghost use Rattle.capability.specs.Parts.{AreSound, HaveTheirRoles, KeepsRest, frames_of, objects_in};
ghost use Rattle.space_bank.specs.Banks.{AreCounted, KeepsObjects};
ghost use Rattle.space_bank.specs.Planning.{writer_count};
ghost use Rattle.gate.specs.Ordering.{GoesOnBeside, IsPlanned, answered, finished, ordered_by, state_before};
ghost use Rattle.gate.specs.Plan.{FitsCap, MayChange, fetched_of};

use crate::change::make;
use crate::delivery::deliver;
use capability::{Caller, Change, OrderPlan, PresentFrames, Reply, roots};
use model::{Capability, Message, Operation, State};
use space_bank::Banks;

// Returns how many numbers an invocation of a kernel object writes, without those that its order writes.
fn writer_count(operation: Operation) -> usize
    ensures { result ≡ writer_count operation }
{
    match operation {
        Operation::Call => 2,
        Operation::Return => 1,
        Operation::Send => 0,
    }
}

// Makes the process available if it returns. This comes before the order.
fn set_state_before_order<F: PresentFrames>(store: &mut F, caller: Caller)
    requires process { IsTrue (is_process (objects_in (F.parts store.old)) caller.process) }
    requires fetched { F.IsFetched store.old caller.process }
    requires announced { (caller.operation ≡ Operation.Send → ⊥)
        → F.IsAnnounced store.old caller.process }
    ensures objects { objects_in (F.parts store.new)
        ≡ state_before caller.operation (objects_in (F.parts store.old)) caller.process }
    ensures current { AreCurrent (frames_of (F.parts store.old))
        → AreCurrent (frames_of (F.parts store.new)) }
    ensures keepable { (age : ℕ)
        → AreKeepable (F.parts store.old).geometry age (frames_of (F.parts store.old))
        → AreKeepable (F.parts store.old).geometry age (frames_of (F.parts store.new)) }
    ensures snapshots { KeepsRest F.parts F.IsFetched F.IsAnnounced F.ContinuesTo store.old store.new }
{
    match caller.operation {
        Operation::Return => roots::set_state(store, caller.process, State::Available),
        Operation::Call => {}
        Operation::Send => {}
    }
}

// Makes the change of an order. `listed[skip..]` has the numbers that the order writes.
fn change<F: PresentFrames>(store: &mut F, banks: &mut Banks, skip: usize, change: Change)
    requires sound { AreSound (F.parts store.old) }
    requires counted { AreCounted (F.parts store.old).geometry
        (objects_in (F.parts store.old)) banks.old }
    requires may { MayChange (F.parts store.old).geometry (objects_in (F.parts store.old))
        (drop skip banks.old.listed) change }
    requires within { skip ≤ length banks.old.listed }
    requires announced { All (F.IsAnnounced store.old) (drop skip banks.old.listed) }
    requires fetched { All (F.IsFetched store.old) (fetched_of change) }
    ensures objects { objects_in (F.parts store.new)
        ≡ changed (objects_in (F.parts store.old)) (drop skip banks.old.listed) change }
    ensures counted { AreCounted (F.parts store.old).geometry
        (objects_in (F.parts store.new)) banks.new }
    ensures current { AreCurrent (frames_of (F.parts store.new)) }
    ensures keepable { (age : ℕ) → age + 1 < 2 ^ 64
        → AreKeepable (F.parts store.old).geometry age (frames_of (F.parts store.old))
        → AreKeepable (F.parts store.old).geometry (age + 1) (frames_of (F.parts store.new)) }
    ensures snapshots { KeepsObjects F.parts F.IsFetched F.IsAnnounced F.ContinuesTo store.old store.new }
{
    match change {
        Change::Bank(made) => banks.carry_out(store, skip, made),
        _ => make(store, change),
    }
}

// Delivers the reply to a caller, if it is still a process and runs.
fn reply<F: PresentFrames>(store: &mut F, process: u64, reply: Reply)
    requires roles { HaveTheirRoles (frames_of (F.parts store.old)) }
    requires root { IsTrue (is_process (objects_in (F.parts store.old)) process)
        → F.IsFetched store.old process × F.IsAnnounced store.old process }
    requires annex { IsTrue (is_process (objects_in (F.parts store.old)) process)
        → F.IsFetched store.old (annex_at (objects_in (F.parts store.old)) process)
        × F.IsAnnounced store.old (annex_at (objects_in (F.parts store.old)) process) }
    ensures objects { objects_in (F.parts store.new)
        ≡ answered Operation.Call process (objects_in (F.parts store.old)) reply }
    ensures current { AreCurrent (frames_of (F.parts store.old))
        → AreCurrent (frames_of (F.parts store.new)) }
    ensures keepable { (age : ℕ) → FitsCap (F.parts store.old).geometry reply.capability
        → AreKeepable (F.parts store.old).geometry age (frames_of (F.parts store.old))
        → AreKeepable (F.parts store.old).geometry age (frames_of (F.parts store.new)) }
    ensures snapshots { KeepsRest F.parts F.IsFetched F.IsAnnounced F.ContinuesTo store.old store.new }
{
    if !roots::is_process(store, process) {
        return;
    }
    if !roots::is_running(store, process) {
        return;
    }
    let [first, second, third] = reply.words;
    let message = Message {
        words: [reply.code.number(), first, second, third],
        key: 0,
        capabilities: [
            reply.capability,
            Capability::Void,
            Capability::Void,
            Capability::Void,
        ],
    };
    deliver(store, process, message);
}

// Delivers the reply if the process called. This comes after the order.
fn answer<F: PresentFrames>(store: &mut F, caller: Caller, replying: Reply)
    requires roles { HaveTheirRoles (frames_of (F.parts store.old)) }
    requires root { caller.operation ≡ Operation.Call
        → IsTrue (is_process (objects_in (F.parts store.old)) caller.process)
        → F.IsFetched store.old caller.process × F.IsAnnounced store.old caller.process }
    requires annex { caller.operation ≡ Operation.Call
        → IsTrue (is_process (objects_in (F.parts store.old)) caller.process)
        → F.IsFetched store.old (annex_at (objects_in (F.parts store.old)) caller.process)
        × F.IsAnnounced store.old (annex_at (objects_in (F.parts store.old)) caller.process) }
    ensures objects { objects_in (F.parts store.new)
        ≡ answered caller.operation caller.process (objects_in (F.parts store.old)) replying }
    ensures current { AreCurrent (frames_of (F.parts store.old))
        → AreCurrent (frames_of (F.parts store.new)) }
    ensures keepable { (age : ℕ) → FitsCap (F.parts store.old).geometry replying.capability
        → AreKeepable (F.parts store.old).geometry age (frames_of (F.parts store.old))
        → AreKeepable (F.parts store.old).geometry age (frames_of (F.parts store.new)) }
    ensures snapshots { KeepsRest F.parts F.IsFetched F.IsAnnounced F.ContinuesTo store.old store.new }
{
    match caller.operation {
        Operation::Call => reply(store, caller.process, replying),
        Operation::Return => {}
        Operation::Send => {}
    }
}

/// Carries out an order that is planned and announced. First, a process that returns becomes available. Last,
/// a process that called gets the reply, if it is still a process and runs.
pub fn carry_out<F: PresentFrames>(
    store: &mut F,
    banks: &mut Banks,
    caller: Caller,
    plan: OrderPlan,
)
    requires sound { AreSound (F.parts store.old) }
    requires counted { AreCounted (F.parts store.old).geometry
        (objects_in (F.parts store.old)) banks.old }
    requires running { IsTrue (is_running_process
        (objects_in (F.parts store.old)) caller.process) }
    requires annex { caller.annex ≡ annex_at (objects_in (F.parts store.old)) caller.process }
    requires planned { (i : Invocation) × IsPlanned (F.parts store.old).geometry
        (objects_in (F.parts store.old)) i caller plan banks.old.listed }
    requires announced { All (F.IsAnnounced store.old) banks.old.listed }
    requires fetched { F.IsFetched store.old caller.process × F.IsFetched store.old caller.annex
        × All (F.IsFetched store.old) (fetched_of plan.change) }
    requires after { IsNow (F.parts store.old).geometry (ordered_by
        (objects_in (F.parts store.old)) caller
        (drop (writer_count caller.operation) banks.old.listed) plan) }
    ensures objects { objects_in (F.parts store.new)
        ≡ finished (objects_in (F.parts store.old)) caller
        (drop (writer_count caller.operation) banks.old.listed) plan }
    ensures current { AreCurrent (frames_of (F.parts store.new)) }
    ensures counted { AreCounted (F.parts store.old).geometry
        (objects_in (F.parts store.new)) banks.new }
    ensures keepable { (age : ℕ) → age + 1 < 2 ^ 64
        → FitsCap (F.parts store.old).geometry plan.reply.capability
        → AreKeepable (F.parts store.old).geometry age (frames_of (F.parts store.old))
        → AreKeepable (F.parts store.old).geometry (age + 1) (frames_of (F.parts store.new)) }
    ensures beside { GoesOnBeside F.parts F.ContinuesTo store.old store.new }
{
    set_state_before_order(store, caller);
    change(store, banks, writer_count(caller.operation), plan.change);
    answer(store, caller, plan.reply);
}
