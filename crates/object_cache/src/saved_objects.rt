// Receives the saved objects as a device is opened.
ghost use Rattle.std.specs.Prelude.{◌≡◌, ◌<◌, ◌≤◌, List, Some, is_some, length, option_map, true, ℕ, IfOk, IsSome};
ghost use Rattle.cache_entries.specs.Entries.{entry_at};
ghost use Rattle.cache_entries.specs.Order.{EntriesState};
ghost use Rattle.layout.specs.Frame.{content_of};
ghost use Rattle.model.specs.declared.frame.Frame.{Frame};
ghost use Rattle.object_cache.specs.StoreState.{AreAll, AreInserted, AreTaken, HaveRoom, HoldBodies, IsUnkept};
ghost use Rattle.object_cache.specs.StoreState.{with_body};

use crate::policy::{Policy, capacity_for_all};
use cache_entries::Entries;
use layout::{Body, Scratch};
use migrator::Intake;
use model::{ContentRef, Geometry, ObjectHeader};
use std::alloc::{AllocError, Global};
use std::marker::{Model, PhantomData};

/// The headers of the saved objects and, if the policy keeps all bodies in memory, entries with the bodies.
#[derive(Drop)]
pub(crate) struct SavedObjects<P: Policy> {
    headers: Vec<ObjectHeader>,
    entries: Option<Entries>,
    /// For how many objects there is memory.
    count: usize,
    policy: PhantomData<P>,
}

impl<P: Policy> Model for SavedObjects<P> {
    ghost use Rattle.std.specs.Prelude.{◌≡◌, length, is_some, Some};
    ghost use Rattle.cache_entries.specs.Order.{EntriesState};
    ghost use Rattle.object_cache.specs.StoreState.{TakenState, HaveRoom};

    ghost Value = { TakenState };

    ghost view = { λ s. record { headers = s.headers.items; entries = s.entries; count = s.count } };

    ghost invariant = { λ s. (is_some s.entries ≡ P.KEEPS_ALL)
        × ((e : EntriesState) → s.entries ≡ Some e → HaveRoom e (length s.headers.items) s.count) };
}

// Adds an entry with a free body for each number below `count`.
fn insert_all(entries: &mut Entries, count: usize)
    requires { AreInserted entries.old 0 count }
    ensures { AreInserted entries.new count count }
{
    for number in 0..count {
        entries.insert(number as u64, ContentRef::Free);
    }
}

// Drops frozen copies, number by number, up to the first number without an entry. Returns whether all numbers
// have entries.
fn drop_all_kept(entries: &mut Entries, count: usize) -> bool
    requires { length entries.old.at ≡ count }
    ensures each { length entries.new.at ≡ count }
    ensures most { entries.new.most ≡ entries.old.most }
    ensures unkept { result ≡ true → (n : ℕ) → n < count → IsUnkept (entry_at entries.new.at n) }
{
    for number in 0..count {
        if !entries.holds(number as u64) {
            return false;
        }
        entries.drop_kept(number as u64);
    }
    true
}

// Returns entries for all numbers, without frozen copies. Uses `memory` if that has as many entries. Fails
// only if memory runs out.
fn all_entries(
    alloc: Global,
    count: usize,
    memory: &mut Option<Entries>,
) -> Result<Entries, AllocError>
    requires few { count ≤ 8192 }
    ensures { IfOk result (λ entries. HaveRoom entries 0 count) }
{
    let capacity = capacity_for_all(count);
    if let Some(mut entries) = memory.take() {
        if entries.fits(capacity, count) && drop_all_kept(&mut entries, count) {
            return Ok(entries);
        }
        drop(entries);
    }
    let mut entries = Entries::new(alloc, capacity, count)?;
    insert_all(&mut entries, count);
    Ok(entries)
}

// Returns entries for all numbers if the policy keeps all bodies in memory, else `None`. Fails only if memory
// runs out.
fn first_entries<P: Policy>(
    alloc: Global,
    count: usize,
    memory: &mut Option<Entries>,
) -> Result<Option<Entries>, AllocError>
    requires few { count ≤ 8192 }
    ensures some { IfOk result (λ entries. is_some entries ≡ P.KEEPS_ALL) }
    ensures room { IfOk result (λ entries. (e : EntriesState) → entries ≡ Some e → HaveRoom e 0 count) }
{
    if !P::KEEPS_ALL {
        return Ok(None);
    }
    let entries = all_entries(alloc, count, memory)?;
    Ok(Some(entries))
}

// Puts a body that was read into its object's entry, if there are entries.
fn keep_body(entries: &mut Option<Entries>, number: u64, body: &Body, scratch: &Scratch)
    requires { (e : EntriesState) → entries.old ≡ Some e → IsSome (entry_at e.at number) }
    ensures { entries.new ≡ option_map
        (with_body number (content_of body.now scratch.now.slots scratch.now.words)) entries.old }
{
    if let Some(entries) = entries {
        entries.put(number, body.content(scratch));
    }
}

impl<P: Policy> Intake for SavedObjects<P> {
    ghost use Rattle.object_cache.specs.StoreState.{AreTaken};

    type Memory = Option<Entries>;

    ghost Took = { AreTaken };

    ghost room = { λ s. s.count };

    fn new(
        alloc: Global,
        geometry: Geometry,
        memory: &mut Option<Entries>,
    ) -> Result<Self, AllocError> {
        let count = (geometry.nodes + geometry.pages) as usize;
        let headers = Vec::with_capacity(alloc, count)?;
        let entries = first_entries::<P>(alloc, count, memory)?;
        Ok(SavedObjects {
            headers,
            entries,
            count,
            policy: PhantomData,
        })
    }

    fn take(
        &mut self,
        _alloc: Global,
        read: (ObjectHeader, Body),
        scratch: &Scratch,
    ) -> Result<(), AllocError> {
        let number = self.headers.len();
        self.headers.push(read.0)?;
        keep_body(&mut self.entries, number as u64, &read.1, scratch);
        Ok(())
    }
}

impl<P: Policy> SavedObjects<P> {
    /// Returns the headers and the entries. If the policy doesn't keep all bodies, the entries are empty, and
    /// made in `memory` if possible. Fails if memory runs out, or if fewer frames were taken than there are
    /// numbers.
    pub(crate) fn into_parts(
        self,
        alloc: Global,
        setting: P::Setting,
        memory: &mut Option<Entries>,
    ) -> Result<(Vec<ObjectHeader>, Entries), AllocError>
        requires few { length self.headers ≤ 8192 }
        ensures headers { IfOk result (λ parts. parts.0.items ≡ self.headers) }
        ensures most { IfOk result (λ parts. parts.1.most ≡ P.most_for setting (length self.headers)) }
        ensures bodies { IfOk result (λ parts. (fs : List Frame) → AreTaken self fs → HoldBodies parts.1 fs) }
        ensures whole { IfOk result (λ parts. P.KEEPS_ALL ≡ true → (fs : List Frame) → AreTaken self fs
            → AreAll parts.1) }
    {
        let SavedObjects {
            headers,
            entries,
            count,
            ..
        } = self;
        match entries {
            Some(entries) => {
                if headers.len() != count {
                    drop(entries);
                    return Err(AllocError);
                }
                Ok((headers, entries))
            }
            None => {
                let capacity = P::capacity(setting, headers.len());
                let entries = Entries::renew(alloc, memory, capacity, headers.len())?;
                Ok((headers, entries))
            }
        }
    }
}
