// Why a process can't act.
ghost use Rattle.std.specs.Prelude.{ℕ, ◌≡◌, IfOk, IfSome};
ghost use Rattle.model.specs.Keepable.{IsSoundFrames};
ghost use Rattle.capability.specs.Parts.{FetchesOrFails, frames_of, objects_in};
ghost use Rattle.kernel.specs.Machine.{IsEarly, NeedsNoDeviceCall};

use capability::{Frames, roots};
use device::Failed;
use model::Refusal;

/// Returns why a process can't act: `NoProcess` or `NotRunning`, or `None` if it runs. `NoProcess`
/// leaves the store untouched. Fails exactly if the device fails.
#[tactic(auto, using(gate::proofs::Standing::keepable_most))]
pub fn early<F: Frames>(store: &mut F, process: u64) -> Result<Option<Refusal>, Failed>
    requires usable { F.IsUsable store.old }
    requires sound { (age : ℕ) × IsSoundFrames (F.parts store.old).geometry age (frames_of (F.parts store.old)) }
    ensures why { IfOk result (λ why. IsEarly (objects_in (F.parts store.old)) process why) }
    ensures untouched { IfOk result (λ why. IfSome why (λ reported. NeedsNoDeviceCall reported
        → store.new ≡ store.old)) }
    ensures fetches { FetchesOrFails F.parts F.ContinuesTo store.old store.new result }
{
    if !roots::is_process(store, process) {
        return Ok(Some(Refusal::NoProcess));
    }
    store.fetch(&[process])?;
    if roots::is_running(store, process) {
        return Ok(None);
    }
    Ok(Some(Refusal::NotRunning))
}
