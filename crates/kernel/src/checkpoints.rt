// The stages of a checkpoint (KeyKOS: freeze, log, commit and migrate). None of them takes memory.
ghost use Rattle.std.specs.Prelude.{◌≡◌, ◌≢◌, IfOk};
ghost use Rattle.model.specs.declared.command.Command.TheVariants as command;
ghost use Rattle.kernel.specs.Machine.{MakesNoDeviceCall, answer_of};
ghost use Rattle.recovery.specs.Live.{IsSomeUp, disk_at};
ghost use Rattle.kernel.specs.Standing.{IsCaused, ServesUp};

use crate::age::is_worn;
use checkpoint::ObjectStore;
use device::Device;
use model::{Answer, Refusal};
use recovery::Live;

/// Begins a checkpoint: freezes all objects, and raises the age by one.
///
/// Refused with the first that applies: `Worn` at the greatest age, `CheckpointRunning` if a
/// checkpoint is frozen already, `MigrationPending` if the last one isn't home.
#[inline(never)]
pub fn checkpoint<D: Device, S: ObjectStore<D>>(live: &mut Live<S>) -> Result<Answer, Refusal>
    requires { IsSomeUp D.disk S.view S.parts live.old }
    ensures serves { ServesUp D.disk S.view S.parts live.old command.Checkpoint (answer_of result) live.new }
    ensures cause { IsCaused (disk_at D.disk S.view S.parts live.old)
        (disk_at D.disk S.view S.parts live.new) (answer_of result) }
    ensures only_reads { MakesNoDeviceCall (answer_of result) → ⊥ }
    ensures no_fault { IfOk result (λ answer. answer ≢ Answer.Refused Refusal.Fault) }
{
    if is_worn(live.age) {
        return Err(Refusal::Worn);
    }
    let size = live.store.freeze()?;
    live.age += 1;
    live.frozen_age = live.age;
    Ok(Answer::Frozen(size))
}

/// Writes up to `count` frozen objects to the log. Refused with `NoCheckpoint` if nothing is
/// frozen. `Fault` if the device failed.
#[inline(never)]
pub fn stabilize<D: Device, S: ObjectStore<D>>(
    live: &mut Live<S>,
    count: u64,
) -> Result<Answer, Refusal>
    requires { IsSomeUp D.disk S.view S.parts live.old }
    ensures serves { ServesUp D.disk S.view S.parts live.old (command.Stabilize count) (answer_of result) live.new }
    ensures cause { IsCaused (disk_at D.disk S.view S.parts live.old)
        (disk_at D.disk S.view S.parts live.new) (answer_of result) }
    ensures only_reads { MakesNoDeviceCall (answer_of result) → ⊥ }
    ensures no_fault { IfOk result (λ answer. answer ≢ Answer.Refused Refusal.Fault) }
{
    let left = live.store.stabilize(count)?;
    Ok(Answer::Left(left))
}

/// Makes the frozen state the saved one. Refused with `NoCheckpoint` if nothing is frozen, and with
/// `NotStable` while frozen objects are pending. `Fault` if the device failed: then either state may
/// be saved.
#[inline(never)]
pub fn commit<D: Device, S: ObjectStore<D>>(live: &mut Live<S>) -> Result<Answer, Refusal>
    requires { IsSomeUp D.disk S.view S.parts live.old }
    ensures serves { ServesUp D.disk S.view S.parts live.old command.Commit (answer_of result) live.new }
    ensures cause { IsCaused (disk_at D.disk S.view S.parts live.old)
        (disk_at D.disk S.view S.parts live.new) (answer_of result) }
    ensures only_reads { MakesNoDeviceCall (answer_of result) → ⊥ }
    ensures no_fault { IfOk result (λ answer. answer ≢ Answer.Refused Refusal.Fault) }
{
    let generation = live.store.commit(live.frozen_age)?;
    Ok(Answer::Committed(generation))
}

/// Copies `count` saved objects home. If all of them are home already it makes no call of the
/// device. `Fault` if the device failed.
#[inline(never)]
pub fn migrate<D: Device, S: ObjectStore<D>>(
    live: &mut Live<S>,
    count: u64,
) -> Result<Answer, Refusal>
    requires { IsSomeUp D.disk S.view S.parts live.old }
    ensures serves { ServesUp D.disk S.view S.parts live.old (command.Migrate count) (answer_of result) live.new }
    ensures none_to_move { (S.view live.old.store).snapshots.saved.entries ≡ 0
        → (S.view live.new.store).beneath ≡ (S.view live.old.store).beneath }
    ensures cause { IsCaused (disk_at D.disk S.view S.parts live.old)
        (disk_at D.disk S.view S.parts live.new) (answer_of result) }
    ensures only_reads { MakesNoDeviceCall (answer_of result) → ⊥ }
    ensures no_fault { IfOk result (λ answer. answer ≢ Answer.Refused Refusal.Fault) }
{
    let left = live.store.migrate(count)?;
    Ok(Answer::Left(left))
}
