// Whether each process has one root and one annex.
ghost use Rattle.std.specs.Prelude.{◌≡◌, ◌↔◌, ℕ, ◌<◌, true, false, length, IfOk, IsTrue};
ghost use Rattle.model.specs.Frame.{frame_at};
ghost use Rattle.model.specs.Object.{is_waiting as state_waits};
ghost use Rattle.capability.specs.Parts.{MayFetch, OnlyReads, frames_of};
ghost use Rattle.capability.specs.Consistency.{AreWholeProcesses, IsAnnexFor, role_at};
ghost use Rattle.recovery.specs.Noted.{AreNoted, AreTaken, is_taken, noted_in, waits_at, IsTaking};

use crate::consistency::table::{has_role, owner};
use capability::Frames;
use model::{ContentRef, Refusal, Role, State};
use std::alloc::{AllocError, Global};

/// The note of a process's root, which needn't stay in memory.
#[derive(Clone, Copy)]
pub struct Noted {
    /// Whether the process waits.
    pub is_waiting: bool,
    /// The number of its annex.
    pub annex: u64,
}

// Whether a state is that of a waiting process.
fn waits(state: State) -> bool
    ensures { result ≡ state_waits state }
{
    matches!(state, State::Waiting)
}

// Returns the note of a fetched object, or `None` if it isn't a root.
#[tactic(auto, using(crate::proofs::Tables::content_read))]
fn note_there<F: Frames>(store: &F, number: u64) -> Option<Noted>
    requires { F.IsFetched store.now number }
    ensures { result ≡ noted_in (frame_at (frames_of (F.parts store.now)) number).content }
{
    match store.frame(number) {
        ContentRef::Root(root) => Some(Noted {
            is_waiting: waits(root.state),
            annex: root.annex,
        }),
        _ => None,
    }
}

// Returns the note of an object, or `None` if it isn't a root. Fetches roots only.
fn read_note<F: Frames>(store: &mut F, number: u64) -> Result<Option<Noted>, Refusal>
    requires known { number < length (F.parts store.old).headers }
    requires may { MayFetch F.IsUsable F.parts store.old }
    ensures note { IfOk result (λ note.
        note ≡ noted_in (frame_at (frames_of (F.parts store.old)) number).content) }
    ensures only_reads { OnlyReads F.parts F.ContinuesTo store.old store.new result }
{
    if !has_role(store, number, Role::Root) {
        return Ok(None);
    }
    store.fetch(&[number])?;
    Ok(note_there(store, number))
}

/// Returns the notes of all roots, by number, and `None` for other objects. Each root is fetched, one at a
/// time.
#[tactic(auto, using(capability::proofs::FrameLists::length_in, crate::proofs::Notes::noted_whole))]
pub fn read_notes<F: Frames>(alloc: Global, store: &mut F) -> Result<Vec<Option<Noted>>, Refusal>
    requires may { MayFetch F.IsUsable F.parts store.old }
    ensures notes { IfOk result (λ notes.
        AreNoted (frames_of (F.parts store.old)) notes.items) }
    ensures only_reads { OnlyReads F.parts F.ContinuesTo store.old store.new result }
{
    let count = store.table().count();
    let mut notes = Vec::with_capacity(alloc, count as usize)?;
    for number in 0..count {
        notes.push_reserved(read_note(store, number)?);
    }
    Ok(notes)
}

/// Whether a number is the root of a waiting process.
pub(crate) fn is_waiting(notes: &[Option<Noted>], number: u64) -> bool
    ensures { result ≡ waits_at notes.now number }
{
    match notes.get(number as usize) {
        Some(Some(note)) => note.is_waiting,
        _ => false,
    }
}

/// Whether an object is an annex with the owner of a root.
pub fn is_annex_for<F: Frames>(store: &F, root: u64, annex: u64) -> bool
    ensures { IsTrue result ↔ IsAnnexFor (frames_of (F.parts store.now)) root annex }
{
    has_role(store, annex, Role::Annex) && owner(store, annex) == owner(store, root)
}

// Marks the annex of a root as taken. Returns whether it is an annex for this root, and no other root took
// it.
#[tactic(auto, using(crate::proofs::Tables::annex_known))]
fn take_annex<F: Frames>(store: &F, taken: &mut [bool], root: u64, annex: u64) -> bool
    requires { length taken.old ≡ length (F.parts store.now).headers }
    ensures yes { IsTrue result → IsTaking (frames_of (F.parts store.now)) root annex
        taken.old taken.new }
    ensures refused { result ≡ false → IsAnnexFor (frames_of (F.parts store.now)) root annex
        → is_taken taken.old annex ≡ true }
{
    if !is_annex_for(store, root, annex) {
        return false;
    }
    if taken[annex as usize] {
        return false;
    }
    taken[annex as usize] = true;
    true
}

// Marks the annexes of all roots as taken. Returns whether each is an annex for its root, and none is taken
// twice.
#[tactic(auto, using(capability::proofs::FrameLists::length_in))]
fn take_annexes<F: Frames>(store: &F, notes: &[Option<Noted>], taken: &mut [bool]) -> bool
    requires size { length taken.old ≡ length (F.parts store.now).headers }
    requires none { (a : ℕ) → is_taken taken.old a ≡ false }
    requires notes { AreNoted (frames_of (F.parts store.now)) notes.now }
    ensures yes { IsTrue result → AreTaken (frames_of (F.parts store.now))
        (length (F.parts store.now).headers) taken.new }
    ensures refused { result ≡ false → AreWholeProcesses (frames_of (F.parts store.now)) → ⊥ }
{
    for (root, note) in notes.iter().enumerate() {
        if let Some(note) = note {
            if !take_annex(store, taken, root as u64, note.annex) {
                return false;
            }
        }
    }
    true
}

// Whether each annex is taken.
#[tactic(auto, using(crate::proofs::Tables::annex_known))]
fn are_all_taken<F: Frames>(store: &F, taken: &[bool]) -> bool
    requires { length taken.now ≡ length (F.parts store.now).headers }
    ensures { IsTrue result ↔ ((a : ℕ) → role_at (frames_of (F.parts store.now)) a ≡ Role.Annex
        → is_taken taken.now a ≡ true) }
{
    for (number, is_taken) in taken.iter().enumerate() {
        if has_role(store, number as u64, Role::Annex) && !*is_taken {
            return false;
        }
    }
    true
}

// Whether each process has one root and one annex. At first `taken` must mark nothing.
#[tactic(auto, using(crate::proofs::Taking::whole_taken, crate::proofs::Taking::taken_whole))]
fn are_matched<F: Frames>(store: &F, notes: &[Option<Noted>], taken: &mut [bool]) -> bool
    requires size { length taken.old ≡ length (F.parts store.now).headers }
    requires none { (a : ℕ) → is_taken taken.old a ≡ false }
    requires notes { AreNoted (frames_of (F.parts store.now)) notes.now }
    ensures { IsTrue result ↔ AreWholeProcesses (frames_of (F.parts store.now)) }
{
    if !take_annexes(store, notes, taken) {
        return false;
    }
    are_all_taken(store, taken)
}

/// Whether each root names an annex with its owner, and each annex has exactly one root. Fails only if memory
/// runs out.
pub(crate) fn are_whole<F: Frames>(
    alloc: Global,
    store: &F,
    notes: &[Option<Noted>],
) -> Result<bool, AllocError>
    requires { AreNoted (frames_of (F.parts store.now)) notes.now }
    ensures { IfOk result (λ whole.
        IsTrue whole ↔ AreWholeProcesses (frames_of (F.parts store.now))) }
{
    let mut taken = Vec::new(alloc);
    taken.resize(store.table().count() as usize, false)?;
    Ok(are_matched(store, notes, &mut taken))
}
