// Whether each capability names no object, is stale, or names an object with the role for it.
ghost use Rattle.std.specs.Prelude.{◌≡◌, ◌↔◌, ◌<◌, Some, false, [], length, IfOk, IsTrue};
ghost use Rattle.std.specs.List.{All};
ghost use Rattle.model.specs.Capability.{named};
ghost use Rattle.model.specs.Frame.{frame_at};
ghost use Rattle.model.specs.Keepable.{caps_in};
ghost use Rattle.capability.specs.Parts.{HaveTheirRoles, MayFetch, OnlyReads, frames_of};
ghost use Rattle.capability.specs.Consistency.{AreNamed, IsNamed, NamesItsRole};
ghost use Rattle.recovery.specs.Noted.{AreNoted};
ghost use Rattle.recovery.specs.Roles.{role_for};

use crate::consistency::processes::{Noted, is_waiting};
use crate::consistency::table::has_role;
use capability::Frames;
use model::{Cap, Capability, ContentRef, Refusal, Role};

// The role that the object of a capability must have; free if the capability names no object. It compiles to
// a table.
fn role_for(capability: Capability) -> Role
    ensures { result ≡ role_for capability }
{
    match capability {
        Capability::Page { .. } => Role::Page,
        Capability::Node { .. } => Role::Node,
        Capability::Space { .. } => Role::Node,
        Capability::Process(_) => Role::Root,
        Capability::Start { .. } => Role::Root,
        Capability::Resume(_) => Role::Root,
        Capability::Bank(_) => Role::Bank,
        Capability::Void => Role::Free,
        Capability::Number(_) => Role::Free,
        Capability::Discrim => Role::Free,
    }
}

// Whether object `number`, which a capability names, has the role for this capability.
#[inline(always)]
fn is_for<F: Frames>(
    store: &F,
    notes: &[Option<Noted>],
    capability: Capability,
    number: u64,
) -> bool
    requires notes { AreNoted (frames_of (F.parts store.now)) notes.now }
    requires named { named capability ≡ Some number }
    ensures { IsTrue result ↔ NamesItsRole (frames_of (F.parts store.now)) capability }
{
    if let Capability::Resume(_) = capability {
        return is_waiting(notes, number);
    }
    has_role(store, number, role_for(capability))
}

/// Whether the object that a capability names has the role for it.
#[inline(always)]
pub fn names_its_role<F: Frames>(store: &F, notes: &[Option<Noted>], capability: Capability) -> bool
    requires { AreNoted (frames_of (F.parts store.now)) notes.now }
    ensures { IsTrue result ↔ NamesItsRole (frames_of (F.parts store.now)) capability }
{
    match capability.named() {
        Some(number) => is_for(store, notes, capability, number),
        None => true,
    }
}

/// Whether the count of a capability is at most its object's and, if they are equal, the object has the role
/// for the capability.
#[inline(always)]
pub fn is_named<F: Frames>(store: &F, notes: &[Option<Noted>], held: Cap) -> bool
    requires { AreNoted (frames_of (F.parts store.now)) notes.now }
    ensures { IsTrue result ↔ IsNamed (frames_of (F.parts store.now)) held }
{
    let Some(number) = held.what.named() else {
        return held.count == 0;
    };
    let current = store.table().current_count(held.what);
    if held.count == current {
        return is_for(store, notes, held.what, number);
    }
    held.count < current
}

// Whether `is_named` holds of all these capabilities.
#[tactic(auto, using(crate::proofs::Named::named_more))]
fn are_all_named<F: Frames>(store: &F, notes: &[Option<Noted>], held: &[Cap]) -> bool
    requires { AreNoted (frames_of (F.parts store.now)) notes.now }
    ensures { IsTrue result ↔ All (IsNamed (frames_of (F.parts store.now))) held.now }
{
    for capability in held {
        if !is_named(store, notes, *capability) {
            return false;
        }
    }
    true
}

// Whether `is_named` holds of each capability of a fetched object.
#[tactic(auto, using(crate::proofs::Named::held_named, crate::proofs::Tables::content_read))]
fn holds_named<F: Frames>(store: &F, notes: &[Option<Noted>], number: u64) -> bool
    requires fetched { F.IsFetched store.now number }
    requires notes { AreNoted (frames_of (F.parts store.now)) notes.now }
    ensures { let frames = frames_of (F.parts store.now) in
        IsTrue result ↔ All (IsNamed frames) (caps_in (frame_at frames number).content) }
{
    match store.frame(number) {
        ContentRef::Node(slots) => are_all_named(store, notes, &slots[..]),
        ContentRef::Root(root) => is_named(store, notes, root.space),
        ContentRef::Annex(registers) => are_all_named(store, notes, &registers[..]),
        _ => true,
    }
}

// Whether an object of this role may hold capabilities.
#[tactic(auto, using(crate::proofs::Tables::header_read, crate::proofs::Named::role_holds_none))]
fn may_hold<F: Frames>(store: &F, number: u64) -> bool
    requires { HaveTheirRoles (frames_of (F.parts store.now)) }
    ensures { result ≡ false → caps_in (frame_at (frames_of (F.parts store.now)) number).content ≡ [] }
{
    matches!(
        store.table().header(number).role,
        Role::Node | Role::Root | Role::Annex
    )
}

// Whether `is_named` holds of each capability of an object. Fetches the object if it may hold some.
fn has_named<F: Frames>(
    store: &mut F,
    notes: &[Option<Noted>],
    number: u64,
) -> Result<bool, Refusal>
    requires known { number < length (F.parts store.old).headers }
    requires may { MayFetch F.IsUsable F.parts store.old }
    requires notes { AreNoted (frames_of (F.parts store.old)) notes.now }
    ensures named { let frames = frames_of (F.parts store.old) in IfOk result (λ named.
        IsTrue named ↔ All (IsNamed frames) (caps_in (frame_at frames number).content)) }
    ensures only_reads { OnlyReads F.parts F.ContinuesTo store.old store.new result }
{
    if !may_hold(store, number) {
        return Ok(true);
    }
    store.fetch(&[number])?;
    Ok(holds_named(store, notes, number))
}

/// Whether `is_named` holds of each capability of every object. Objects are fetched one at a time.
pub(crate) fn are_named<F: Frames>(store: &mut F, notes: &[Option<Noted>]) -> Result<bool, Refusal>
    requires may { MayFetch F.IsUsable F.parts store.old }
    requires notes { AreNoted (frames_of (F.parts store.old)) notes.now }
    ensures named { IfOk result (λ named. IsTrue named ↔ AreNamed (frames_of (F.parts store.old))) }
    ensures only_reads { OnlyReads F.parts F.ContinuesTo store.old store.new result }
{
    for number in 0..store.table().count() {
        if !has_named(store, notes, number)? {
            return Ok(false);
        }
    }
    Ok(true)
}
