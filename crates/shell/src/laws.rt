//! The law of sessions: the contract of an empty function.

ghost use Rattle.shell.specs.Laws.{SessionsAreRuns};

use crate::inspector::Inspector;
use checkpoint::ObjectStore;
use device::Device;
use script::Output;

/// A session of a shell is a run of each machine that the kernel stands for: the turns of its lines and saves, one
/// after another. So the laws of runs hold for sessions: a crash leaves a saved state, and processes are confined.
pub fn sessions_are_runs<D: Device, S: ObjectStore<D>, Q: Inspector<D, W>, W: Output>()
    ensures { (q : Q) → SessionsAreRuns D.disk S.view S.parts (Q.inspects q) }
{}
