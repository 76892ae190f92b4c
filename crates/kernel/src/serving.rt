// The commands of a machine that is up.
ghost use Rattle.std.specs.Prelude.{◌≡◌, ◌≢◌, false, IfOk};
ghost use Rattle.model.specs.declared.command.Command.TheVariants as command;
ghost use Rattle.model.specs.declared.command.Command.TheVariants.{Invoke};
ghost use Rattle.model.specs.declared.command.Invocation.{Invocation};
ghost use Rattle.model.specs.Step.{opens};
ghost use Rattle.kernel.specs.Power as power;
ghost use Rattle.kernel.specs.Machine.{MakesNoDeviceCall, answer_of, answer_with};
ghost use Rattle.recovery.specs.Live.{IsSomeUp, disk_at};
ghost use Rattle.kernel.specs.Standing.{HasCode, HasNoneToMove, IsCaused, ServesUp, done_with};

use crate::{checkpoints, journaling, processes};
use checkpoint::ObjectStore;
use device::Device;
use model::{Answer, Command, Invocation, Refusal, ResultCode};
use recovery::Live;
use std::alloc::Global;

// Evicts an object from memory. Refused with `BadNumber` if no object has the number; this makes no
// device call.
#[inline(never)]
fn evict<D: Device, S: ObjectStore<D>>(live: &mut Live<S>, number: u64) -> Result<Answer, Refusal>
    requires { IsSomeUp D.disk S.view S.parts live.old }
    ensures serves { ServesUp D.disk S.view S.parts live.old (command.Evict number) (answer_of result) live.new }
    ensures cause { IsCaused (disk_at D.disk S.view S.parts live.old)
        (disk_at D.disk S.view S.parts live.new) (answer_of result) }
    ensures untouched { MakesNoDeviceCall (answer_of result)
        → (S.view live.new.store).beneath ≡ (S.view live.old.store).beneath }
    ensures no_fault { IfOk result (λ answer. answer ≢ Answer.Refused Refusal.Fault) }
{
    if number >= live.store.table().count() {
        return Err(Refusal::BadNumber);
    }
    live.store.evict(number)?;
    Ok(Answer::Done)
}

/// Serves a command that neither invokes nor opens the device, over the store of a machine that is
/// up. Only `Show` takes memory. `Fault` exactly if the device failed.
#[tactic(auto, using(crate::proofs::Acts::caused))]
#[inline(always)]
pub fn serve<D: Device, S: ObjectStore<D>>(
    alloc: Global,
    live: &mut Live<S>,
    command: Command,
) -> Result<Answer, Refusal>
    requires up { IsSomeUp D.disk S.view S.parts live.old }
    requires goes_on { opens command ≡ false }
    requires other { (i : Invocation) → command ≡ Invoke i → ⊥ }
    ensures serves { ServesUp D.disk S.view S.parts live.old command (answer_of result) live.new }
    ensures cause { IsCaused (disk_at D.disk S.view S.parts live.old)
        (disk_at D.disk S.view S.parts live.new) (answer_of result) }
    ensures untouched { MakesNoDeviceCall (answer_of result)
        → (S.view live.new.store).beneath ≡ (S.view live.old.store).beneath }
    ensures none_to_move { HasNoneToMove D.disk S.view S.parts (power.Up live.old) command
        → (S.view live.new.store).beneath ≡ (S.view live.old.store).beneath }
    ensures no_fault { IfOk result (λ answer. answer ≢ Answer.Refused Refusal.Fault) }
{
    match command {
        Command::Load { process, address } => { processes::load(&mut live.store, process, address) }
        Command::Store {
            process,
            address,
            value,
        } => processes::store(&mut live.store, process, address, value),
        Command::Show { number } => { processes::show(alloc, &mut live.store, &live.banks, number) }
        Command::Evict { number } => evict::<D, S>(live, number),
        Command::Checkpoint => checkpoints::checkpoint::<D, S>(live),
        Command::Stabilize { count } => checkpoints::stabilize::<D, S>(live, count),
        Command::Commit => checkpoints::commit::<D, S>(live),
        Command::Migrate { count } => checkpoints::migrate::<D, S>(live, count),
        Command::Journal { number } => journaling::journal::<D, S>(live, number),
        Command::Invoke(_) => unreachable!(),
        Command::Restart | Command::Cut => unreachable!(),
    }
}

/// Carries out an invocation, over the store of a machine that is up.
#[tactic(auto, using(crate::proofs::Acts::caused))]
pub fn invoke<D: Device, S: ObjectStore<D>>(
    live: &mut Live<S>,
    invocation: &Invocation,
) -> Result<Option<ResultCode>, Refusal>
    requires { IsSomeUp D.disk S.view S.parts live.old }
    ensures serves { ServesUp D.disk S.view S.parts live.old (command.Invoke invocation.now)
        (answer_with result) live.new }
    ensures cause { IsCaused (disk_at D.disk S.view S.parts live.old)
        (disk_at D.disk S.view S.parts live.new) (answer_with result) }
    ensures untouched { MakesNoDeviceCall (answer_with result)
        → (S.view live.new.store).beneath ≡ (S.view live.old.store).beneath }
    ensures code { IfOk result
        (λ code. HasCode D.disk S.view S.parts (power.Up live.old) (command.Invoke invocation.now) (done_with code)) }
{
    processes::invoke(&mut live.store, &mut live.banks, &mut live.age, invocation)
}
