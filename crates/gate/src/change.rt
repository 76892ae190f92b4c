// The changes that orders make.
ghost use Rattle.std.specs.Prelude.{◌≡◌, ◌+◌, ◌<◌, ◌^◌, ℕ, Some, []};
ghost use Rattle.model.specs.Frame.{header_at};
ghost use Rattle.model.specs.Keepable.{AreCurrent, AreKeepable};
ghost use Rattle.capability.specs.Parts.{KeepsRest, frames_of, objects_in};
ghost use Rattle.capability.specs.Changes.{changed, target_of};
ghost use Rattle.gate.specs.Plan.{IsWithinObject, IsOfProcess, MayHold};

use capability::{Change, PresentFrames, objects, roots};

/// Makes a change in an object that is fetched and announced.
#[inline(always)]
pub fn make<F: PresentFrames>(store: &mut F, change: Change)
    requires within { IsWithinObject change }
    requires process { IsOfProcess (objects_in (F.parts store.old)) change }
    requires calls { (p : ℕ) → target_of change ≡ Some p
        → (header_at (F.parts store.old).headers p).calls < u64.MAX }
    requires current { AreCurrent (frames_of (F.parts store.old)) }
    requires fetched { (n : ℕ) → target_of change ≡ Some n → F.IsFetched store.old n }
    requires announced { (n : ℕ) → target_of change ≡ Some n → F.IsAnnounced store.old n }
    ensures objects { objects_in (F.parts store.new)
        ≡ changed (objects_in (F.parts store.old)) [] change }
    ensures current { AreCurrent (frames_of (F.parts store.new)) }
    ensures keepable { (age : ℕ) → age + 1 < 2 ^ 64
        → MayHold (F.parts store.old).geometry (objects_in (F.parts store.old)) change
        → AreKeepable (F.parts store.old).geometry age (frames_of (F.parts store.old))
        → AreKeepable (F.parts store.old).geometry (age + 1) (frames_of (F.parts store.new)) }
    ensures snapshots { KeepsRest F.parts F.IsFetched F.IsAnnounced F.ContinuesTo store.old store.new }
{
    match change {
        Change::Nothing => {}
        Change::Word { page, index, word } => objects::set_word(store, page, index, word),
        Change::Slot { node, slot, held } => objects::set_slot(store, node, slot, held),
        Change::Register {
            annex,
            register,
            held,
            ..
        } => objects::set_slot(store, annex, register, held),
        Change::RootWord {
            process,
            index,
            word,
        } => roots::set_word(store, process, index, word),
        Change::SetState { process, state } => {
            roots::set_state(store, process, state);
            objects::consume(store, process);
        }
        Change::Space { process, held } => roots::set_space(store, process, held),
        Change::Bank(_) => unreachable!(),
    }
}
