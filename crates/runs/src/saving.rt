// Saving the present state of a machine.
ghost use Rattle.std.specs.Prelude.{Ok};
ghost use Rattle.model.specs.Text.{Fits};
ghost use Rattle.runs.specs.Saving.{CarriesOut, CarriesOutAll, Moves, Saves, commit_stages};

use checkpoint::ObjectStore;
use device::Device;
use kernel::Kernel;
use model::{Answer, Command, Refusal};

// Carries out a command. Returns its answer; a refusal is an error.
fn carry_out<D: Device, S: ObjectStore<D>>(
    kernel: &mut Kernel<D, S>,
    order: Command,
) -> Result<Answer, Refusal>
    requires { Fits order }
    ensures { CarriesOut D.disk S.view S.parts kernel.old order kernel.new result }
{
    let answer = kernel.step(order);
    if let Answer::Refused(refusal) = answer {
        return Err(refusal);
    }
    Ok(answer)
}

/// Commits the present state. It copies home what an earlier save left in the log, freezes the machine, writes
/// each frozen object to the log, and commits. Returns the answer to the commit.
///
/// Fails with the first refusal, and begins no stage after it.
pub fn commit_all<D: Device, S: ObjectStore<D>>(
    kernel: &mut Kernel<D, S>,
) -> Result<Answer, Refusal>
    ensures { CarriesOutAll D.disk S.view S.parts kernel.old commit_stages kernel.new result }
{
    carry_out(kernel, Command::Migrate { count: u64::MAX })?;
    carry_out(kernel, Command::Checkpoint)?;
    carry_out(kernel, Command::Stabilize { count: u64::MAX })?;
    carry_out(kernel, Command::Commit)
}

/// Copies each saved object home, and returns `committed`. Fails if the migration is refused.
pub fn migrate_all<D: Device, S: ObjectStore<D>>(
    kernel: &mut Kernel<D, S>,
    committed: Answer,
) -> Result<Answer, Refusal>
    ensures { Moves D.disk S.view S.parts (Ok committed) kernel.old kernel.new result }
{
    match carry_out(kernel, Command::Migrate { count: u64::MAX }) {
        Ok(_) => Ok(committed),
        Err(refusal) => Err(refusal),
    }
}

/// Saves the present state: does what `commit_all` does, then copies each saved object home. Returns the answer to
/// the commit.
///
/// Fails with the first refusal, and begins no stage after it.
pub fn save<D: Device, S: ObjectStore<D>>(kernel: &mut Kernel<D, S>) -> Result<Answer, Refusal>
    ensures { Saves D.disk S.view S.parts kernel.old kernel.new result }
{
    let committed = commit_all(kernel)?;
    migrate_all(kernel, committed)
}
