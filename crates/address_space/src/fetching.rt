// Fetches objects before they are read.
ghost use Rattle.std.specs.Prelude.{◌≡◌, ◌<◌, length, IfOk, OnOk, IsTrue};
ghost use Rattle.model.specs.Sound.{MayBeHeld};
ghost use Rattle.model.specs.World.{is_process, root_at};
ghost use Rattle.capability.specs.Parts.{AreSound, objects_in};
ghost use Rattle.capability.specs.Parts.{FetchesOrFails};

use capability::{Capability, Frames, roots};
use device::Failed;

/// Fetches one object.
pub fn fetch_one<F: Frames>(frames: &mut F, number: u64) -> Result<(), Failed>
    requires known { number < length (F.parts frames.old).headers }
    requires usable { F.IsUsable frames.old }
    requires sound { AreSound (F.parts frames.old) }
    ensures fetched { OnOk result (F.IsFetched frames.new number) }
    ensures fetches { FetchesOrFails F.parts F.ContinuesTo frames.old frames.new result }
{
    frames.fetch(&[number])
}

/// Returns the address space of a process, or void if its capability is stale.
#[tactic(auto, using(capability::proofs::FrameLists::process_known, crate::proofs::Known::space_held))]
pub fn space_of<F: Frames>(frames: &mut F, process: u64) -> Result<Capability, Failed>
    requires usable { F.IsUsable frames.old }
    requires sound { AreSound (F.parts frames.old) }
    requires process { IsTrue (is_process (objects_in (F.parts frames.old)) process) }
    ensures held { IfOk result (MayBeHeld (objects_in (F.parts frames.old))) }
    ensures space { IfOk result (λ space.
        space ≡ (root_at (objects_in (F.parts frames.old)) process).space) }
    ensures fetches { FetchesOrFails F.parts F.ContinuesTo frames.old frames.new result }
{
    fetch_one(frames, process)?;
    Ok(roots::space(frames, process))
}
