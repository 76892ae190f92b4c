// The roots of processes, read and changed.
ghost use Rattle.std.specs.Prelude.{◌≡◌, ◌<◌, ℕ, IsTrue, slice_index};
ghost use Rattle.model.specs.declared.object.Content.TheVariants as content;
ghost use Rattle.model.specs.Frame.{held_at};
ghost use Rattle.model.specs.Keepable.{IsKeptCap};
ghost use Rattle.model.specs.Order.{with_root_word, with_space};
ghost use Rattle.model.specs.Sound.{IsSpace};
ghost use Rattle.model.specs.World.{root_at, is_process, is_running_process, with_root, with_state};
ghost use Rattle.capability.specs.Objects.{live_cap};
ghost use Rattle.capability.specs.Parts.{Edits, HaveTheirRoles, frames_of, objects_in};

use crate::present::{Frames, PresentFrames, RootChange};
use model::{Cap, Capability, ContentRef, Role, Root, State};

/// Whether a number is a process. Only its role in the table is read, so it needn't be fetched.
#[tactic(auto, using(crate::proofs::Roles::process_by_role, crate::proofs::Roles::role_there))]
pub fn is_process<F: Frames>(store: &F, number: u64) -> bool
    requires { HaveTheirRoles (frames_of (F.parts store.now)) }
    ensures { result ≡ is_process (objects_in (F.parts store.now)) number }
{
    matches!(store.table().header(number).role, Role::Root)
}

// The root of a process, which must be fetched.
#[inline(always)]
fn root<F: Frames>(store: &F, process: u64) -> &Root<Cap>
    requires fetched { F.IsFetched store.now process }
    requires process { IsTrue (is_process (objects_in (F.parts store.now)) process) }
    ensures { held_at (F.parts store.now).contents process ≡ content.Root result.now }
{
    match store.frame(process) {
        ContentRef::Root(root) => root,
        _ => unreachable!(),
    }
}

/// A word of the last message to a process. Its root must be fetched.
#[tactic(auto, using(crate::proofs::FrameLists::content_there))]
pub fn word<F: Frames>(store: &F, process: u64, index: usize) -> u64
    requires fetched { F.IsFetched store.now process }
    requires process { IsTrue (is_process (objects_in (F.parts store.now)) process) }
    requires within { index < 4 }
    ensures { result ≡ slice_index (root_at
        (objects_in (F.parts store.now)) process).words index }
{
    root(store, process).words[index]
}

/// The key of the last message to a process. Its root must be fetched.
#[tactic(auto, using(crate::proofs::FrameLists::content_there))]
pub fn key<F: Frames>(store: &F, process: u64) -> u16
    requires fetched { F.IsFetched store.now process }
    requires process { IsTrue (is_process (objects_in (F.parts store.now)) process) }
    ensures { result ≡ (root_at (objects_in (F.parts store.now)) process).key }
{
    root(store, process).key
}

/// The state of a process. Its root must be fetched.
#[tactic(auto, using(crate::proofs::FrameLists::content_there))]
pub fn state<F: Frames>(store: &F, process: u64) -> State
    requires fetched { F.IsFetched store.now process }
    requires process { IsTrue (is_process (objects_in (F.parts store.now)) process) }
    ensures { result ≡ (root_at (objects_in (F.parts store.now)) process).state }
{
    root(store, process).state
}

/// Whether a process runs. Its root must be fetched.
pub fn is_running<F: Frames>(store: &F, process: u64) -> bool
    requires fetched { F.IsFetched store.now process }
    requires process { IsTrue (is_process (objects_in (F.parts store.now)) process) }
    ensures { result ≡ is_running_process (objects_in (F.parts store.now)) process }
{
    match state(store, process) {
        State::Running => true,
        State::Available | State::Waiting => false,
    }
}

/// The address space of a process, or void if it is stale. Its root must be fetched.
#[tactic(auto, using(crate::proofs::FrameLists::content_there))]
pub fn space<F: Frames>(store: &F, process: u64) -> Capability
    requires fetched { F.IsFetched store.now process }
    requires process { IsTrue (is_process (objects_in (F.parts store.now)) process) }
    ensures { result ≡ (root_at (objects_in (F.parts store.now)) process).space }
{
    store.table().conveyed(root(store, process).space)
}

/// Sets a word in the root of a process, which must be fetched and announced.
pub fn set_word<F: PresentFrames>(store: &mut F, process: u64, index: usize, word: u64)
    requires fetched { F.IsFetched store.old process }
    requires announced { F.IsAnnounced store.old process }
    requires process { IsTrue (is_process (objects_in (F.parts store.old)) process) }
    requires within { index < 4 }
    ensures { Edits F.parts F.IsFetched F.IsAnnounced F.ContinuesTo store.old store.new
        (with_root (objects_in (F.parts store.old)) process
        (with_root_word (root_at (objects_in (F.parts store.old)) process) index word))
        (λ age. Unit {0}) }
{
    store.change_root(process, RootChange::Word { index, word });
}

/// Sets the state of a process. Its root must be fetched and announced.
pub fn set_state<F: PresentFrames>(store: &mut F, process: u64, state: State)
    requires fetched { F.IsFetched store.old process }
    requires announced { F.IsAnnounced store.old process }
    requires process { IsTrue (is_process (objects_in (F.parts store.old)) process) }
    ensures { Edits F.parts F.IsFetched F.IsAnnounced F.ContinuesTo store.old store.new
        (with_state (objects_in (F.parts store.old)) process state)
        (λ age. Unit {0}) }
{
    store.change_root(process, RootChange::State(state));
}

/// Sets the address space of a process to a capability, with its object's present count, so it is live. Its
/// root must be fetched and announced.
pub fn set_space<F: PresentFrames>(store: &mut F, process: u64, capability: Capability)
    requires fetched { F.IsFetched store.old process }
    requires announced { F.IsAnnounced store.old process }
    requires process { IsTrue (is_process (objects_in (F.parts store.old)) process) }
    ensures { Edits F.parts F.IsFetched F.IsAnnounced F.ContinuesTo store.old store.new
        (with_root (objects_in (F.parts store.old)) process
        (with_space (root_at (objects_in (F.parts store.old)) process) capability))
        (λ age. IsKeptCap (F.parts store.old).geometry age (live_cap (F.parts store.old).headers capability)
        × IsSpace capability) }
{
    let held = store.table().live_cap(capability);
    store.change_root(process, RootChange::Space(held));
}
