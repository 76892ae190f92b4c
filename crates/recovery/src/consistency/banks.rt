// Whether the banks form a tree that owns all objects, within their limits.
ghost use Rattle.std.specs.Prelude.{◌≡◌, ◌≢◌, ◌↔◌, ℕ, ◌<◌, ◌≤◌, length, slice_index, IfOk, IsTrue, MatchOption};
ghost use Rattle.std.specs.List.{Contains};
ghost use Rattle.model.specs.Bank.{chain};
ghost use Rattle.model.specs.Frame.{objects_of};
ghost use Rattle.capability.specs.Parts.{MayFetch, OnlyReads, frames_of};
ghost use Rattle.capability.specs.Consistency.{AreBanked, AreOwned, owner_of};
ghost use Rattle.recovery.specs.Consistency.{IsAboveLimit, IsUnbanked};
ghost use Rattle.capability.specs.Consistency.{role_at};

use crate::consistency::reason::Unbanked;
use crate::consistency::table::{has_role, owner};
use capability::Frames;
use model::{Refusal, Role};
use space_bank::{count_usages, is_in_chain, read_limits};
use std::alloc::Global;

// Whether number 0 is a bank that owns itself.
fn has_prime_bank<F: Frames>(store: &F) -> bool
    ensures { let frames = frames_of (F.parts store.now) in
        IsTrue result ↔ ((role_at frames 0 ≡ Role.Bank) × (owner_of frames 0 ≡ 0)) }
{
    has_role(store, 0, Role::Bank) && owner(store, 0) == 0
}

// Whether an object is free, or owned by a bank.
fn is_owned<F: Frames>(store: &F, number: u64) -> bool
    ensures { let frames = frames_of (F.parts store.now) in IsTrue result
        ↔ (role_at frames number ≢ Role.Free → role_at frames (owner_of frames number) ≡ Role.Bank) }
{
    has_role(store, number, Role::Free) || has_role(store, owner(store, number), Role::Bank)
}

// Whether an object isn't a bank, or is one whose chain of at most 16 banks reaches number 0.
fn is_reaching<F: Frames>(store: &F, number: u64) -> bool
    ensures { let frames = frames_of (F.parts store.now) in IsTrue result
        ↔ (role_at frames number ≡ Role.Bank → Contains (chain (objects_of frames) number) 0) }
{
    !has_role(store, number, Role::Bank) || is_in_chain(store, number, 0)
}

// Returns why the banks don't form a tree below number 0 that owns all objects, or `None` if they do.
fn find_unowned<F: Frames>(store: &F) -> Option<Unbanked>
    ensures { MatchOption result (AreOwned (frames_of (F.parts store.now)))
        (λ why. IsUnbanked (frames_of (F.parts store.now)) why) }
{
    if !has_prime_bank(store) {
        return Some(Unbanked::Prime);
    }
    for number in 0..store.table().count() {
        if !is_owned(store, number) {
            return Some(Unbanked::Owner {
                object: number,
                owner: owner(store, number),
            });
        }
        if !is_reaching(store, number) {
            return Some(Unbanked::Chain(number));
        }
    }
    None
}

// Returns the first bank whose usage is above its limit, or `None`.
fn find_above_limit<F: Frames>(store: &F, usages: &[u64], limits: &[u64]) -> Option<Unbanked>
    requires usages { length usages.now ≡ length (F.parts store.now).headers }
    requires limits { length limits.now ≡ length (F.parts store.now).headers }
    ensures { let frames = frames_of (F.parts store.now) in MatchOption result
        ((b : ℕ) → role_at frames b ≡ Role.Bank → slice_index usages.now b ≤ slice_index limits.now b)
        (λ why. IsAboveLimit frames usages.now limits.now why) }
{
    for number in 0..usages.len() {
        if has_role(store, number as u64, Role::Bank) && usages[number] > limits[number] {
            return Some(Unbanked::Limit {
                bank: number as u64,
                used: usages[number],
                limit: limits[number],
            });
        }
    }
    None
}

/// Returns the first object that no bank owns, or bank whose chain of at most 16 banks doesn't reach number
/// 0; else the first bank whose usage is above its limit; else `None`. Banks are fetched one at a time, for
/// their limits.
///
/// Returns `NoMemory` if memory ran out, and `Fault` exactly if the device failed. No object changes.
pub fn find_unbanked<F: Frames>(alloc: Global, store: &mut F) -> Result<Option<Unbanked>, Refusal>
    requires may { MayFetch F.IsUsable F.parts store.old }
    ensures found { let frames = frames_of (F.parts store.old) in IfOk result (λ found.
        MatchOption found (AreBanked frames) (λ why. IsUnbanked frames why)) }
    ensures only_reads { OnlyReads F.parts F.ContinuesTo store.old store.new result }
{
    match find_unowned(store) {
        Some(why) => Ok(Some(why)),
        None => {
            let count = store.table().count();
            let usages = count_usages(alloc, store, count)?;
            let limits = read_limits(alloc, store, count)?;
            Ok(find_above_limit(store, &usages, &limits))
        }
    }
}
