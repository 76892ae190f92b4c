// Invocations of kernel objects: plan the order, announce what it writes, carry it out.
ghost use Rattle.std.specs.Prelude.{◌≡◌, ℕ, ◌<◌, ◌≤◌, ◌^◌, ◌++◌, length, slice_index, IfOk, OnOk, IsErrOf, IsTrue};
ghost use Rattle.std.specs.List.{All, Contains};
ghost use Rattle.model.specs.declared.command.Command.TheVariants as command;
ghost use Rattle.model.specs.Order.{IsNoBankOrder};
ghost use Rattle.model.specs.Text.{Fits};
ghost use Rattle.model.specs.World.{is_running_process};
ghost use Rattle.capability.specs.Changes.{written_of};
ghost use Rattle.capability.specs.Parts.{AreSound, MayFetch, Prepares, objects_in};
ghost use Rattle.space_bank.specs.Allocating.{numbers_of};
ghost use Rattle.space_bank.specs.Banks.{AreCounted};
ghost use Rattle.space_bank.specs.Planning.{writers};
ghost use Rattle.capability.specs.Parts.{FetchesOrFails};
ghost use Rattle.gate.specs.Invoke.{IsRequested, IsKernelObject, Invoked};
ghost use Rattle.gate.specs.Ordering.{IsPlanned};
ghost use Rattle.gate.specs.Plan.{fetched_of};

use crate::banking::requested_bank;
use crate::carrying::carry_out;
use crate::orders::plan;
use crate::reading::{fetch_named, needed_arguments};
use capability::{BankChange, Caller, Change, Frames, OrderPlan, PresentFrames};
use device::Failed;
use model::{Capability, Invocation, Refusal, ResultCode};
use space_bank::Banks;

// Lists the object that a change writes, if it writes one.
fn list_target(banks: &mut Banks, change: Change)
    requires { length banks.old.listed < banks.old.room }
    ensures { banks.new ≡ record banks.old { listed = banks.old.listed ++ written_of change } }
{
    match change.target() {
        Some(number) => banks.list(number),
        None => {}
    }
}

// Plans an order that isn't a bank's, and lists what it writes. First fetches what the order reads.
#[inline(always)]
fn plan_object_order<F: Frames>(
    store: &mut F,
    banks: &mut Banks,
    invocation: &Invocation,
    caller: Caller,
) -> Result<OrderPlan, Failed>
    requires usable { F.IsUsable store.old }
    requires sound { AreSound (F.parts store.old) }
    requires counted { AreCounted (F.parts store.old).geometry
        (objects_in (F.parts store.old)) banks.old }
    requires fits { Fits (command.Invoke invocation.now) }
    requires few { length (F.parts store.old).headers < 2 ^ 64 }
    requires requested { IsRequested (objects_in (F.parts store.old)) invocation.now caller }
    requires order { IsNoBankOrder caller.invoked (slice_index invocation.now.words 0) }
    requires fetched { F.IsFetched store.old caller.annex }
    requires listed { banks.old.listed ≡ writers caller.operation caller.process caller.annex }
    requires room { length banks.old.listed < banks.old.room }
    ensures planned { IfOk result
        (λ plan. IsPlanned (F.parts store.old).geometry (objects_in (F.parts store.old)) invocation.now caller plan
        banks.new.listed) }
    ensures kept { banks.new ≡ record banks.old { listed = banks.new.listed } }
    ensures fetches { FetchesOrFails F.parts F.ContinuesTo store.old store.new result }
{
    let arguments = needed_arguments(store, invocation, caller.annex, caller.invoked);
    fetch_named(store, banks, caller.invoked)?;
    let plan = plan(store, caller.invoked, invocation.words[0], arguments);
    list_target(banks, plan.change);
    Ok(plan)
}

// Plans the order of an invocation and lists every number that the invocation writes.
fn plan_order<F: Frames>(
    store: &mut F,
    banks: &mut Banks,
    invocation: &Invocation,
    caller: Caller,
) -> Result<OrderPlan, Failed>
    requires usable { F.IsUsable store.old }
    requires sound { AreSound (F.parts store.old) }
    requires running { IsTrue (is_running_process
        (objects_in (F.parts store.old)) invocation.now.process) }
    requires counted { AreCounted (F.parts store.old).geometry
        (objects_in (F.parts store.old)) banks.old }
    requires fits { Fits (command.Invoke invocation.now) }
    requires few { length (F.parts store.old).headers < 2 ^ 64 }
    requires requested { IsRequested (objects_in (F.parts store.old)) invocation.now caller }
    requires fetched { F.IsFetched store.old caller.annex }
    ensures planned { IfOk result
        (λ plan. IsPlanned (F.parts store.old).geometry (objects_in (F.parts store.old)) invocation.now caller plan
        banks.new.listed) }
    ensures kept { banks.new ≡ record banks.old { listed = banks.new.listed } }
    ensures fetches { FetchesOrFails F.parts F.ContinuesTo store.old store.new result }
{
    banks.list_writers(caller);
    // Most calls are of pages. This lets the compiler specialize the planning for pages.
    if let Capability::Page { .. } = caller.invoked {
        return plan_object_order(store, banks, invocation, caller);
    }
    match requested_bank(caller.invoked, invocation.words[0]) {
        Some((bank, order)) => {
            let arguments = needed_arguments(store, invocation, caller.annex, caller.invoked);
            Ok(banks.plan(store, bank, order, arguments))
        }
        None => plan_object_order(store, banks, invocation, caller),
    }
}

// Returns the process, its annex, and the numbers of new objects.
fn with_new(caller: Caller, made: BankChange) -> [u64; 4]
    ensures count { length result ≡ 4 }
    ensures process { slice_index result 0 ≡ caller.process }
    ensures annex { slice_index result 1 ≡ caller.annex }
    ensures new { All (Contains result) (numbers_of made) }
    ensures known { (count : ℕ) → caller.process < count → caller.annex < count
        → All (λ n. n < count) (numbers_of made) → All (λ n. n < count) result }
{
    let Caller { process, annex, .. } = caller;
    match made {
        BankChange::Make { number, .. } => [process, annex, number, number],
        BankChange::MakeProcess {
            root,
            annex: new_annex,
            ..
        } => [process, annex, root, new_annex],
        BankChange::GiveUp { .. } | BankChange::Transfer { .. } => [process, annex, process, annex],
    }
}

// Returns the process, its annex, and the numbers that must be fetched for a change.
fn fetched_by(caller: Caller, change: Change) -> [u64; 4]
    ensures count { length result ≡ 4 }
    ensures process { slice_index result 0 ≡ caller.process }
    ensures annex { slice_index result 1 ≡ caller.annex }
    ensures new { All (Contains result) (fetched_of change) }
    ensures known { (count : ℕ) → caller.process < count → caller.annex < count
        → All (λ n. n < count) (fetched_of change) → All (λ n. n < count) result }
{
    match change {
        Change::Bank(made) => with_new(caller, made),
        _ => {
            let target = change.target().unwrap_or(caller.process);
            [caller.process, caller.annex, target, target]
        }
    }
}

// Announces the listed numbers. Fetches the process, its annex, and what the change needs.
fn announce_order<F: PresentFrames>(
    store: &mut F,
    listed: &[u64],
    caller: Caller,
    change: Change,
) -> Result<(), Refusal>
    requires may { MayFetch F.IsUsable F.parts store.old }
    requires process { caller.process < length (F.parts store.old).headers }
    requires annex { caller.annex < length (F.parts store.old).headers }
    requires known { All (λ n. n < length (F.parts store.old).headers) listed.now }
    requires new { All (λ n. n < length (F.parts store.old).headers) (fetched_of change) }
    ensures fetched { OnOk result (F.IsFetched store.new caller.process × F.IsFetched store.new caller.annex
        × All (F.IsFetched store.new) (fetched_of change)) }
    ensures announced { OnOk result (All (F.IsAnnounced store.new) listed.now) }
    ensures prepares { Prepares F.parts F.ContinuesTo store.old store.new listed.now result }
{
    let fetched = fetched_by(caller, change);
    store.prepare(&fetched, listed)
}

/// Carries out an invocation of a kernel object by a running process, and returns the order's code. A `call`
/// gets the reply, unless the order freed the caller.
pub fn invoke_order<F: PresentFrames>(
    store: &mut F,
    banks: &mut Banks,
    invocation: &Invocation,
    caller: Caller,
) -> Result<Option<ResultCode>, Refusal>
    requires usable { F.IsUsable store.old }
    requires sound { AreSound (F.parts store.old) }
    requires running { IsTrue (is_running_process
        (objects_in (F.parts store.old)) invocation.now.process) }
    requires counted { AreCounted (F.parts store.old).geometry
        (objects_in (F.parts store.old)) banks.old }
    requires fits { Fits (command.Invoke invocation.now) }
    requires few { length (F.parts store.old).headers < 2 ^ 64 }
    requires requested { IsRequested (objects_in (F.parts store.old)) invocation.now caller }
    requires fetched { F.IsFetched store.old caller.annex }
    requires object { IsKernelObject caller.invoked }
    ensures invoked { Invoked F.parts F.ContinuesTo store.old store.new invocation.now result }
    ensures stalled { IsErrOf result Refusal.Stalled → ⊥ }
    ensures counted { (F.parts store.new).failures ≡ (F.parts store.old).failures
        → AreCounted (F.parts store.new).geometry (objects_in (F.parts store.new)) banks.new }
{
    let plan = plan_order(store, banks, invocation, caller)?;
    announce_order(store, banks.listed(), caller, plan.change)?;
    carry_out(store, banks, caller, plan);
    Ok(Some(plan.reply.code))
}
