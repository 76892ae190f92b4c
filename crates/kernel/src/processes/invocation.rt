// The step of an invocation.
ghost use Rattle.std.specs.Prelude.{ℕ, ◌≡◌, ◌≤◌, ◌^◌, IfOk};
ghost use Rattle.model.specs.declared.command.Command.TheVariants as command;
ghost use Rattle.model.specs.declared.answer.Answer.TheVariants.{Done, Refused};
ghost use Rattle.model.specs.Keepable.{IsSoundFrames};
ghost use Rattle.capability.specs.Parts.{OnlyFetches, frames_of, objects_in};
ghost use Rattle.space_bank.specs.Banks.{AreCounted};
ghost use Rattle.kernel.specs.Machine.{MakesNoDeviceCall, NeedsNoDeviceCall, Performs, answer_with, code_with};

use crate::age::is_worn;
use crate::processes::early::early;
use capability::{Frames, PresentFrames, roots};
use device::Failed;
use model::{Invocation, Refusal, ResultCode};
use space_bank::Banks;

// Returns the refusal of an invocation at the greatest age: `Worn` if the process runs, else why it
// can't act.
#[inline(never)]
fn refuse_worn<F: Frames>(store: &mut F, invocation: &Invocation) -> Refusal
    requires usable { F.IsUsable store.old }
    requires sound { (age : ℕ) × IsSoundFrames (F.parts store.old).geometry age (frames_of (F.parts store.old)) }
    ensures serves { (age : ℕ) → IsSoundFrames (F.parts store.old).geometry age (frames_of (F.parts store.old))
        → 2 ^ 62 ≤ age
        → Performs age (F.parts store.old) (command.Invoke invocation.now) (Refused result) age (F.parts store.new) }
    ensures untouched { NeedsNoDeviceCall result → store.new ≡ store.old }
    ensures snapshots { OnlyFetches F.parts F.ContinuesTo store.old store.new }
{
    match early(store, invocation.process) {
        Ok(why) => match why {
            Some(refusal) => refusal,
            None => Refusal::Worn,
        },
        Err(Failed) => Refusal::Fault,
    }
}

/// Carries out an invocation by a process, and raises `age` by one. Returns the result code of the order, or
/// `None` if the capability was a start or resume capability. `banks` keeps the usage of each bank.
///
/// A refusal changes no object. It is the first that applies: `NoProcess` (the store is untouched),
/// `NotRunning`, `Worn` at the greatest age, `Stalled`, `LogFull`.
///
/// `Fault` if the device failed: then nothing is said of the objects.
pub fn invoke<F: PresentFrames>(
    store: &mut F,
    banks: &mut Banks,
    age: &mut u64,
    invocation: &Invocation,
) -> Result<Option<ResultCode>, Refusal>
    requires usable { F.IsUsable store.old }
    requires sound { IsSoundFrames (F.parts store.old).geometry age.old
        (frames_of (F.parts store.old)) }
    requires counted { AreCounted (F.parts store.old).geometry
        (objects_in (F.parts store.old)) banks.old }
    ensures serves { Performs age.old (F.parts store.old) (command.Invoke invocation.now)
        (answer_with result) age.new (F.parts store.new) }
    ensures untouched { MakesNoDeviceCall (answer_with result) → store.new ≡ store.old }
    ensures code { IfOk result
        (λ code. code ≡ code_with (F.parts store.old).geometry (objects_in (F.parts store.old)) invocation.now Done) }
    ensures later { age.old ≤ age.new }
    ensures counted { (F.parts store.new).failures ≡ (F.parts store.old).failures
        → AreCounted (F.parts store.new).geometry (objects_in (F.parts store.new)) banks.new }
    ensures continues { F.ContinuesTo store.old store.new }
{
    if is_worn(*age) {
        return Err(refuse_worn(store, invocation));
    }
    if !roots::is_process(store, invocation.process) {
        return Err(Refusal::NoProcess);
    }
    let code = gate::invoke(store, banks, invocation)?;
    *age += 1;
    Ok(code)
}
