// Invocations of capabilities.
ghost use Rattle.std.specs.Prelude.{◌≡◌, IsTrue};
ghost use Rattle.model.specs.Invoke.{invoke};
ghost use Rattle.model.specs.World.{is_process};
ghost use Rattle.capability.specs.Parts.{AreSound, objects_in};
ghost use Rattle.space_bank.specs.Banks.{AreCounted};
ghost use Rattle.gate.specs.Invoke.{Invoked, TellsState};

use crate::gates::{gate_of, invoke_gate};
use crate::kernel_object::invoke_order;
use crate::reading::{fetch_process, numbers_fit};
use capability::{Caller, PresentFrames, objects, roots};
use model::{Invocation, Refusal, ResultCode};
use space_bank::Banks;

/// Carries out the invocation of a capability by a process (EROS, KeyKOS: call, return and send).
///
/// The invoked and the sent capabilities are read before anything changes. A start or resume capability is a
/// gate: the message goes to another process, and the result is `None`. A resume capability works once: every
/// copy of it is void afterwards. Any other capability is a kernel object: its order is carried out, a `call`
/// gets the reply, and the result is the order's code. `banks` is updated. The allocation count of a number
/// rises by one if its object is freed.
///
/// A refusal other than `Fault` changes nothing. `NotRunning`: the process doesn't run. `Stalled`: the
/// process of the start capability isn't available. `LogFull`: with what the invocation writes, more numbers
/// would be touched than a log half has slots. `Fault`: the device failed, and the objects are unknown. There
/// is no other refusal.
pub fn invoke<F: PresentFrames>(
    store: &mut F,
    banks: &mut Banks,
    invocation: &Invocation,
) -> Result<Option<ResultCode>, Refusal>
    requires usable { F.IsUsable store.old }
    requires sound { AreSound (F.parts store.old) }
    requires process { IsTrue (is_process
        (objects_in (F.parts store.old)) invocation.now.process) }
    requires counted { AreCounted (F.parts store.old).geometry
        (objects_in (F.parts store.old)) banks.old }
    ensures state { TellsState (objects_in (F.parts store.old)) invocation.now result }
    ensures invoked { Invoked F.parts F.ContinuesTo store.old store.new invocation.now result }
    ensures counted { (F.parts store.new).failures ≡ (F.parts store.old).failures
        → AreCounted (F.parts store.new).geometry (objects_in (F.parts store.new)) banks.new }
{
    // For the proof: these two calls bring in invariants of the invocation and of the object table.
    invocation.can_be_spelt();
    numbers_fit(store);
    let process = invocation.process;
    let annex = fetch_process(store, banks, process)?;
    if !roots::is_running(store, process) {
        return Err(Refusal::NotRunning);
    }
    let caller = Caller {
        process,
        annex,
        operation: invocation.operation,
        invoked: objects::slot(store, annex, invocation.register.index()),
    };
    match gate_of(caller.invoked) {
        Some(gate) => invoke_gate(store, banks, invocation, caller, gate),
        None => invoke_order(store, banks, invocation, caller),
    }
}
