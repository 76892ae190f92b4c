// Finding a root and an annex that don't match.
ghost use Rattle.std.specs.Prelude.{◌≡◌, ℕ, ◌<◌, ◌≤◌, Some, IfNone, IfSome};
ghost use Rattle.capability.specs.Parts.{frames_of};
ghost use Rattle.recovery.specs.Noted.{AreNoted};
ghost use Rattle.image_explainer.specs.Breaking.{HasRoot, IsFirstUnmatched, IsMatched, IsUnmatched};
ghost use Rattle.image_explainer.specs.Finding.{MatchesOr, annex_noted};

use crate::fault::Unmatched;
use capability::Frames;
use model::Role;
use recovery::{Noted, has_role, is_annex_for};

// Returns the annex of the root with this number, or `None` if the object is no root. `notes` has the
// annexes of all roots.
fn annex_of(notes: &[Option<Noted>], number: usize) -> Option<u64>
    ensures { result ≡ annex_noted notes.now number }
{
    match notes.get(number) {
        Some(Some(note)) => Some(note.annex),
        _ => None,
    }
}

// Returns the first root from number `from` on that names this annex, or `None`.
fn root_of(notes: &[Option<Noted>], from: usize, annex: u64) -> Option<usize>
    ensures some { IfSome result (λ root. (from ≤ root) × (annex_noted notes.now root ≡ Some annex)) }
    ensures first { IfSome result (λ root. (p : ℕ) → from ≤ p → p < root → annex_noted notes.now p ≡ Some annex → ⊥) }
    ensures none { IfNone result ((p : ℕ) → from ≤ p → annex_noted notes.now p ≡ Some annex → ⊥) }
{
    for root in from..notes.len() {
        if annex_of(notes, root) == Some(annex) {
            return Some(root);
        }
    }
    None
}

// Returns what is wrong with a root: its annex doesn't match, or a later root names the same annex. Returns
// `None` if nothing is wrong.
fn flaw_of_root<F: Frames>(store: &F, notes: &[Option<Noted>], root: usize) -> Option<Unmatched>
    requires { AreNoted (frames_of (F.parts store.now)) notes.now }
    ensures found { IfSome result (IsUnmatched (frames_of (F.parts store.now))) }
    ensures first { let frames = frames_of (F.parts store.now) in
        IfSome result (λ u. ((p : ℕ) → p < root → IsMatched frames p) → IsFirstUnmatched frames u) }
    ensures none { IfNone result (IsMatched (frames_of (F.parts store.now)) root) }
{
    let annex = annex_of(notes, root)?;
    if !is_annex_for(store, root as u64, annex) {
        return Some(Unmatched::Annex {
            root: root as u64,
            annex,
        });
    }
    match root_of(notes, root + 1, annex) {
        Some(second) => Some(Unmatched::Shared {
            first: root as u64,
            second: second as u64,
            annex,
        }),
        None => None,
    }
}

// Returns the flaw of the first root that has one, or `None`.
fn find_root<F: Frames>(store: &F, notes: &[Option<Noted>]) -> Option<Unmatched>
    requires { AreNoted (frames_of (F.parts store.now)) notes.now }
    ensures found { IfSome result (IsUnmatched (frames_of (F.parts store.now))) }
    ensures first { IfSome result (IsFirstUnmatched (frames_of (F.parts store.now))) }
    ensures none { IfNone result ((p : ℕ) → IsMatched (frames_of (F.parts store.now)) p) }
{
    for root in 0..notes.len() {
        match flaw_of_root(store, notes, root) {
            Some(flaw) => return Some(flaw),
            None => {}
        }
    }
    None
}

// Returns the flaw of an annex that no root names; `None` for any other object.
fn flaw_of_annex<F: Frames>(store: &F, notes: &[Option<Noted>], annex: u64) -> Option<Unmatched>
    requires { AreNoted (frames_of (F.parts store.now)) notes.now }
    ensures found { IfSome result (IsUnmatched (frames_of (F.parts store.now))) }
    ensures rootless { IfSome result (λ u. u ≡ Unmatched.Rootless annex) }
    ensures none { IfNone result (HasRoot (frames_of (F.parts store.now)) annex) }
{
    if !has_role(store, annex, Role::Annex) {
        return None;
    }
    match root_of(notes, 0, annex) {
        Some(_) => None,
        None => Some(Unmatched::Rootless { annex }),
    }
}

// Returns the flaw of the first annex that no root names, or `None`.
fn find_annex<F: Frames>(store: &F, notes: &[Option<Noted>]) -> Option<Unmatched>
    requires { AreNoted (frames_of (F.parts store.now)) notes.now }
    ensures found { IfSome result (IsUnmatched (frames_of (F.parts store.now))) }
    ensures first { let frames = frames_of (F.parts store.now) in
        IfSome result (λ u. ((p : ℕ) → IsMatched frames p) → IsFirstUnmatched frames u) }
    ensures none { IfNone result ((a : ℕ) → HasRoot (frames_of (F.parts store.now)) a) }
{
    for annex in 0..store.table().count() {
        match flaw_of_annex(store, notes, annex) {
            Some(flaw) => return Some(flaw),
            None => {}
        }
    }
    None
}

/// Returns the first root or annex that doesn't match, or `None`. Roots come first, then annexes, both by number.
#[tactic(auto, using(crate::proofs::Matching::matches))]
pub(crate) fn find_unmatched<F: Frames>(store: &F, notes: &[Option<Noted>]) -> Option<Unmatched>
    requires { AreNoted (frames_of (F.parts store.now)) notes.now }
    ensures { MatchesOr (frames_of (F.parts store.now)) result }
{
    match find_root(store, notes) {
        Some(flaw) => Some(flaw),
        None => find_annex(store, notes),
    }
}
