// Computes usages, limits, annexes and free numbers from the objects.
ghost use Rattle.std.specs.Prelude.{◌≡◌, ◌↔◌, ℕ, ◌+◌, ◌<◌, ◌≤◌, ◌^◌, false, length, map, slice_index, IfOk};
ghost use Rattle.std.specs.Prelude.{IsTrue};
ghost use Rattle.std.specs.List.{range_with_len};
ghost use Rattle.model.specs.Bank.{usage as usage_of};
ghost use Rattle.model.specs.Object.{is_bank as counts_as_bank, limit_in};
ghost use Rattle.model.specs.World.{content_at};
ghost use Rattle.model_laws.proofs.BankTree.{IsTree};
ghost use Rattle.capability.specs.Parts.{AreSound, FetchesOrFails, HaveTheirRoles, MayFetch, OnlyReads, frames_of, objects_in};
ghost use Rattle.space_bank.specs.Banks.{AreCounted};
ghost use Rattle.space_bank.specs.Counting.{AreKept, AreMarked, kept_number};

use crate::banks::Banks;
use crate::chains::shift;
use crate::walking::{is_free, owner};
use capability::{Frames, objects, roots};
use collections::NumberSet;
use device::Failed;
use model::{ContentRef, Refusal, Role};
use std::alloc::{AllocError, Global};

// Returns the limit of a fetched bank, or 0 for another object.
fn limit_there<F: Frames>(store: &F, number: u64) -> u64
    requires { F.IsFetched store.now number }
    ensures { result
        ≡ limit_in (content_at (objects_in (F.parts store.now)) number) }
{
    match store.frame(number) {
        ContentRef::Bank { limit } => limit,
        _ => 0,
    }
}

// Returns the number recorded for a fetched object of this role: a bank's limit or a process's annex.
fn number_there<F: Frames>(store: &F, number: u64, role: Role) -> u64
    requires { F.IsFetched store.now number }
    ensures { result ≡ kept_number role (content_at (objects_in (F.parts store.now)) number) }
{
    match role {
        Role::Bank => limit_there(store, number),
        Role::Root => objects::annex(store, number),
        _ => 0,
    }
}

// If an object has this role, fetches it and returns the number recorded for it, else 0.
fn read_number<F: Frames>(store: &mut F, number: u64, role: Role) -> Result<u64, Failed>
    requires known { number < length (F.parts store.old).headers }
    requires may { MayFetch F.IsUsable F.parts store.old }
    ensures kept { IfOk result (λ kept. kept
        ≡ kept_number role (content_at (objects_in (F.parts store.old)) number)) }
    ensures fetches { FetchesOrFails F.parts F.ContinuesTo store.old store.new result }
{
    if store.table().header(number).role != role {
        return Ok(0);
    }
    store.fetch(&[number])?;
    Ok(number_there(store, number, role))
}

/// Returns a number for each object below `count`: the limit of a bank or the annex of a process, if the
/// object has this role, else 0. Fetches the objects of this role, one at a time, and no others.
///
/// Returns `NoMemory` if memory ran out, and `Fault` exactly if the device failed. No object changes.
pub fn read_numbers<F: Frames>(
    alloc: Global,
    store: &mut F,
    count: u64,
    role: Role,
) -> Result<Vec<u64>, Refusal>
    requires known { count ≤ length (F.parts store.old).headers }
    requires may { MayFetch F.IsUsable F.parts store.old }
    ensures kept { let objects = objects_in (F.parts store.old) in
        IfOk result (λ kept. kept.items
        ≡ map (λ n. kept_number role (content_at objects n)) (range_with_len 0 count)) }
    ensures only_reads { OnlyReads F.parts F.ContinuesTo store.old store.new result }
{
    let mut kept = Vec::with_capacity(alloc, count as usize)?;
    for number in 0..count {
        kept.push_reserved(read_number(store, number, role)?);
    }
    Ok(kept)
}

/// Returns the limits of all banks below `count`, by number, and 0 for other objects. Fetches each bank, one at a
/// time, and no other object.
///
/// Returns `NoMemory` if memory ran out, and `Fault` exactly if the device failed. No object changes.
pub fn read_limits<F: Frames>(alloc: Global, store: &mut F, count: u64) -> Result<Vec<u64>, Refusal>
    requires known { count ≤ length (F.parts store.old).headers }
    requires may { MayFetch F.IsUsable F.parts store.old }
    ensures limits { let objects = objects_in (F.parts store.old) in
        IfOk result (λ limits. limits.items
        ≡ map (λ n. limit_in (content_at objects n)) (range_with_len 0 count)) }
    ensures only_reads { OnlyReads F.parts F.ContinuesTo store.old store.new result }
{
    read_numbers(alloc, store, count, Role::Bank)
}

// Returns which of the `count` numbers from `first` on are free.
fn free_numbers<F: Frames>(
    alloc: Global,
    store: &F,
    first: u64,
    count: u64,
) -> Result<NumberSet, AllocError>
    requires roles { HaveTheirRoles (frames_of (F.parts store.now)) }
    requires fits { first + count < 2 ^ 64 }
    ensures { IfOk result
        (AreMarked (objects_in (F.parts store.now)) first count) }
{
    let mut numbers = NumberSet::new(alloc, count as usize)?;
    for number in 0..count {
        numbers.set(number as usize, is_free(store, first + number));
    }
    Ok(numbers)
}

// Computes the usages of all banks. All of `usages` must be 0.
fn add_usages<F: Frames>(store: &F, usages: &mut [u64])
    requires roles { HaveTheirRoles (frames_of (F.parts store.now)) }
    requires tree { IsTree (objects_in (F.parts store.now)) }
    requires each { (b : ℕ)
        → IsTrue (counts_as_bank (content_at (objects_in (F.parts store.now)) b))
        → b < length usages.old }
    requires none { (b : ℕ) → slice_index usages.old b ≡ 0 }
    ensures size { length usages.new ≡ length usages.old }
    ensures counted { (b : ℕ)
        → IsTrue (counts_as_bank (content_at (objects_in (F.parts store.now)) b))
        → slice_index usages.new b ≡ usage_of (objects_in (F.parts store.now)) b }
{
    for number in 1..store.table().count() {
        if !is_free(store, number) {
            shift(usages, store, owner(store, number), 1, 0);
        }
    }
}

/// Returns the usages of all banks, by number, from the table alone. The banks must form a tree. Fails only
/// if memory runs out.
pub fn count_usages<F: Frames>(alloc: Global, store: &F, count: u64) -> Result<Vec<u64>, AllocError>
    requires roles { HaveTheirRoles (frames_of (F.parts store.now)) }
    requires tree { IsTree (objects_in (F.parts store.now)) }
    requires each { (b : ℕ)
        → IsTrue (counts_as_bank (content_at (objects_in (F.parts store.now)) b))
        → b < count }
    ensures size { IfOk result (λ usages. length usages.items ≡ count) }
    ensures counted { IfOk result (λ usages. (b : ℕ)
        → IsTrue (counts_as_bank (content_at (objects_in (F.parts store.now)) b))
        → slice_index usages.items b ≡ usage_of (objects_in (F.parts store.now)) b) }
{
    let mut usages = Vec::new(alloc);
    usages.resize(count as usize, 0)?;
    add_usages(store, &mut usages);
    Ok(usages)
}

impl Banks {
    /// Computes the free numbers, usages, limits and annexes. Fetches each bank for its limit and each
    /// process for its annex, one at a time, and no other object.
    ///
    /// Allocates all memory that orders will need; no later call allocates. Returns `NoMemory` if memory ran
    /// out, and `Fault` exactly if the device failed. No object changes.
    pub fn count<F: Frames>(alloc: Global, store: &mut F) -> Result<Banks, Refusal>
        requires usable { F.IsUsable store.old }
        requires sound { AreSound (F.parts store.old) }
        ensures counted { IfOk result (AreCounted (F.parts store.old).geometry
            (objects_in (F.parts store.old))) }
        ensures only_reads { OnlyReads F.parts F.ContinuesTo store.old store.new result }
    {
        let nodes = store.geometry().nodes;
        let limits = read_numbers(alloc, store, nodes, Role::Bank)?;
        let annexes = read_numbers(alloc, store, nodes, Role::Root)?;
        Ok(Banks::with_numbers(alloc, store, limits, annexes)?)
    }

    // Computes the free numbers and the usages, and returns them with these limits and annexes.
    fn with_numbers<F: Frames>(
        alloc: Global,
        store: &F,
        limits: Vec<u64>,
        annexes: Vec<u64>,
    ) -> Result<Banks, AllocError>
        requires sound { AreSound (F.parts store.now) }
        requires kept { AreKept (objects_in (F.parts store.now))
            (F.parts store.now).geometry.nodes limits.items annexes.items }
        ensures { IfOk result (AreCounted (F.parts store.now).geometry
            (objects_in (F.parts store.now))) }
    {
        let geometry = store.geometry();
        let room = store.table().count().saturating_add(2);
        Ok(Banks {
            limits,
            annexes,
            listed: Vec::with_capacity(alloc, room as usize)?,
            usages: count_usages(alloc, store, geometry.nodes)?,
            nodes: free_numbers(alloc, store, 0, geometry.nodes)?,
            pages: free_numbers(alloc, store, geometry.nodes, geometry.pages)?,
        })
    }
}
