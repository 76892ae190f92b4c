// Saving one page without a checkpoint. It takes no memory.
ghost use Rattle.std.specs.Prelude.{◌≡◌, ◌≢◌, IfOk};
ghost use Rattle.model.specs.declared.command.Command.TheVariants as command;
ghost use Rattle.kernel.specs.Machine.{MakesNoDeviceCall, answer_of};
ghost use Rattle.recovery.specs.Live.{IsSomeUp, disk_at};
ghost use Rattle.kernel.specs.Standing.{IsCaused, ServesUp};

use crate::age::is_worn;
use checkpoint::ObjectStore;
use device::Device;
use model::{Answer, Refusal};
use recovery::Live;

/// Saves the present words of a page without a checkpoint, and raises the age by one. The page's
/// saved owner and counts stay, and so do all other saved objects.
///
/// Refused with the first that applies:
/// - `Worn`: the age is the greatest;
/// - `CheckpointRunning`: a checkpoint is frozen;
/// - `MigrationPending`: a saved object isn't home;
/// - `BadNumber`: no object has the number;
/// - `NotJournaled(NotPage)`: the object isn't a page;
/// - `NotJournaled(Renewed)`: no page is saved at the number, or the saved one was freed since.
///
/// `Fault` if the device failed: then the old state may be saved, or the one with the page.
#[inline(never)]
pub fn journal<D: Device, S: ObjectStore<D>>(
    live: &mut Live<S>,
    number: u64,
) -> Result<Answer, Refusal>
    requires { IsSomeUp D.disk S.view S.parts live.old }
    ensures serves { ServesUp D.disk S.view S.parts live.old (command.Journal number) (answer_of result) live.new }
    ensures cause { IsCaused (disk_at D.disk S.view S.parts live.old)
        (disk_at D.disk S.view S.parts live.new) (answer_of result) }
    ensures untouched { MakesNoDeviceCall (answer_of result)
        → (S.view live.new.store).beneath ≡ (S.view live.old.store).beneath }
    ensures no_fault { IfOk result (λ answer. answer ≢ Answer.Refused Refusal.Fault) }
{
    if is_worn(live.age) {
        return Err(Refusal::Worn);
    }
    let age = live.store.saved().age + 1;
    let generation = live.store.journal(number, age)?;
    live.age += 1;
    Ok(Answer::Journaled(generation))
}
