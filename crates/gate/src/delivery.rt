// Delivers messages to processes.
ghost use Rattle.std.specs.Prelude.{◌≡◌, ℕ, IsTrue};
ghost use Rattle.std.specs.List.{All};
ghost use Rattle.model.specs.Invoke.{deliver};
ghost use Rattle.model.specs.Keepable.{AreCurrent, AreKeepable};
ghost use Rattle.model.specs.World.{annex_at, is_process};
ghost use Rattle.capability.specs.Parts.{KeepsRest, frames_of, objects_in};
ghost use Rattle.gate.specs.Plan.{FitsCap};

use capability::{PresentFrames, objects};
use model::Message;

/// Delivers a message to a process, whose root and annex must be fetched and announced: words and key to the
/// root, capabilities to the last four registers. Afterwards the process runs.
#[inline(always)]
pub fn deliver<F: PresentFrames>(store: &mut F, process: u64, message: Message)
    requires process { IsTrue (is_process (objects_in (F.parts store.old)) process) }
    requires root_fetched { F.IsFetched store.old process }
    requires root_announced { F.IsAnnounced store.old process }
    requires annex_fetched { F.IsFetched store.old
        (annex_at (objects_in (F.parts store.old)) process) }
    requires annex_announced { F.IsAnnounced store.old
        (annex_at (objects_in (F.parts store.old)) process) }
    ensures objects { objects_in (F.parts store.new)
        ≡ deliver (objects_in (F.parts store.old)) process message }
    ensures headers { (F.parts store.new).headers ≡ (F.parts store.old).headers }
    ensures current { AreCurrent (frames_of (F.parts store.old))
        → AreCurrent (frames_of (F.parts store.new)) }
    ensures keepable { (age : ℕ) → All (FitsCap (F.parts store.old).geometry) message.capabilities
        → AreKeepable (F.parts store.old).geometry age (frames_of (F.parts store.old))
        → AreKeepable (F.parts store.old).geometry age (frames_of (F.parts store.new)) }
    ensures snapshots { KeepsRest F.parts F.IsFetched F.IsAnnounced F.ContinuesTo store.old store.new }
{
    let annex = objects::annex(store, process);
    objects::set_message(store, process, message.words, message.key);
    objects::set_last_slots(store, annex, &message);
}
