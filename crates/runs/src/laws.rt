//! Laws of runs. Each is the contract of an empty function.

ghost use Rattle.runs.specs.Laws.{CrashesAreSurvived, CrashesInRunsAreSurvived, RunsAreConfined, SteadyRunsAgree};

use checkpoint::ObjectStore;
use device::Device;

/// If the machine is up and the device doesn't fail, the machine and the script determine what a run writes. It is
/// the same with every store and every device. Memory must not run out at `show`, `restart` and `cut`, the only
/// commands that can be answered `NoMemory`.
#[tactic(auto, using(crate::proofs::Agreeing::runs_agree))]
pub fn steady_runs_agree()
    ensures { SteadyRunsAgree }
{}

/// Take a run of invocations, loads and stores by processes of a closed set, or by those that they make from free
/// numbers. If the kernel is still up at the end, objects outside the set that weren't free are unchanged.
/// Exception: capabilities in them to members may be void (EROS: confinement).
pub fn runs_are_confined<D: Device, S: ObjectStore<D>>()
    ensures { RunsAreConfined D.disk S.view S.parts }
{}

/// The main theorem. After a crash at any moment of a turn, the image denotes one of two: a candidate of the
/// machine before the turn, or the state that the turn's command saves. A device that holds this image opens at
/// that state, unless the device fails or memory runs out.
pub fn crashes_are_survived<D: Device, S: ObjectStore<D>>()
    ensures { CrashesAreSurvived D.disk S.view S.parts }
{}

/// The main theorem for whole runs. After a crash at any moment of a run, the image denotes one of two: a state
/// that one of the turns may save, or a candidate of the machine after the last turn.
pub fn crashes_in_runs_are_survived<D: Device, S: ObjectStore<D>>()
    ensures { CrashesInRunsAreSurvived D.disk S.view S.parts }
{}
