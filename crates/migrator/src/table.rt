// The slots of objects in a half of the log.
ghost use Rattle.std.specs.Prelude.{◌≡◌, ◌+◌, ◌<◌, ◌≤◌, [], ◌∷◌, None, Some, length, map, drop, replicate};
ghost use Rattle.std.specs.Prelude.{vec_capacity, slice_set, IfSome, IfOk};
ghost use Rattle.migrator.specs.Table.{place_at, slot_of, slot_for, is_held, has_slot, has_frame, taken_count};
ghost use Rattle.migrator.specs.Table.{whole_count, entries_from, entries_of};

use collections::NumberSet;
use layout::Entry;
use std::alloc::{AllocError, Global};
use std::marker::Model;

/// Where the frame of an object is in a half of the log.
#[derive(Clone, Copy)]
pub enum Place {
    /// In no slot.
    Nowhere,
    /// In this slot, but a write failed: the slot may hold any bytes.
    Torn(u64),
    /// In this slot, and valid.
    Whole(u64),
}

impl Place {
    // Returns the slot of this place, if it has one.
    fn slot(self) -> Option<u64>
        ensures { result ≡ slot_of self }
    {
        match self {
            Place::Nowhere => None,
            Place::Torn(slot) => Some(slot),
            Place::Whole(slot) => Some(slot),
        }
    }

    // Returns how many slots this place takes: 0 or 1.
    fn slots(self) -> u64
        ensures count { result ≡ has_slot self }
        ensures few { result ≤ 1 }
    {
        match self {
            Place::Nowhere => 0,
            Place::Torn(_) => 1,
            Place::Whole(_) => 1,
        }
    }

    // Returns how many valid frames this place has: 0 or 1.
    fn frames(self) -> u64
        ensures count { result ≡ has_frame self }
        ensures few { result ≤ 1 }
    {
        match self {
            Place::Nowhere => 0,
            Place::Torn(_) => 0,
            Place::Whole(_) => 1,
        }
    }
}

/// The places of all objects in a half of the log, by number. No two objects have the same slot, and the slots in use
/// are the first ones of the half.
#[derive(Drop)]
pub(crate) struct Table {
    places: Vec<Place>,
    /// Which objects have a slot.
    held: NumberSet,
    /// How many objects have a slot.
    taken: u64,
    /// How many objects have a valid frame in their slot.
    whole: u64,
}

impl Model for Table {
    ghost use Rattle.std.specs.Prelude.{◌≡◌, List, map};
    ghost use Rattle.migrator.specs.declared.table.Place.{Place};
    ghost use Rattle.migrator.specs.Table.{IsTable, is_held, taken_count, whole_count};

    ghost Value = { List Place };

    ghost view = { λ t. t.places.items };

    ghost invariant = { λ t. IsTable t.places.items
        × (t.held ≡ map is_held t.places.items)
        × (t.taken ≡ taken_count t.places.items)
        × (t.whole ≡ whole_count t.places.items) };
}

// Returns the places of `count` objects without slots. Fails only if memory runs out.
fn blank_places(alloc: Global, count: usize) -> Result<Vec<Place>, AllocError>
    ensures { IfOk result (λ places. places.items ≡ replicate count Place.Nowhere) }
{
    let mut places = Vec::with_capacity(alloc, count)?;
    places.resize(count, Place::Nowhere)?;
    Ok(places)
}

// Sets the place of each object that has a slot to `Nowhere`.
fn clear_places(places: &mut [Place], held: &mut NumberSet, taken: u64)
    requires held { held.old ≡ map is_held places.old }
    requires taken { taken ≡ taken_count places.old }
    ensures places { places.new ≡ replicate (length places.old) Place.Nowhere }
    ensures held { held.new ≡ map is_held places.new }
{
    for _ in 0..taken {
        match held.next(0) {
            None => unreachable!(),
            Some(number) => {
                places[number] = Place::Nowhere;
                held.set(number, false);
            }
        }
    }
}

// Returns the entry of the first object with a slot whose number is at least `from`, or `None`.
#[tactic(auto, using(crate::proofs::Tables::next_held))]
fn next_entry(places: &[Place], held: &NumberSet, from: usize) -> Option<Entry>
    requires held { held.now ≡ map is_held places.now }
    ensures some { IfSome result (λ entry. entries_from from (drop from places.now)
        ≡ entry ∷ entries_from (entry.object + 1) (drop (entry.object + 1) places.now)) }
    ensures known { IfSome result (λ entry. entry.object < length places.now) }
    ensures none { result ≡ None → entries_from from (drop from places.now) ≡ [] }
{
    let number = held.next(from)?;
    let slot = places[number].slot()?;
    Some(Entry {
        object: number as u64,
        slot,
    })
}

// Appends to `into` the entries of all objects that have a slot.
#[tactic(auto, unfolding(crate::specs::Table::entries_of))]
fn list_entries(places: &[Place], held: &NumberSet, taken: u64, into: &mut Vec<Entry>)
    requires held { held.now ≡ map is_held places.now }
    requires taken { taken ≡ taken_count places.now }
    requires none { into.old.items ≡ [] }
    requires room { taken ≤ vec_capacity into.old }
    ensures entries { into.new.items ≡ entries_of places.now }
    ensures room { vec_capacity into.new ≡ vec_capacity into.old }
{
    let mut from = 0;
    for _ in 0..taken {
        match next_entry(places, held, from) {
            None => unreachable!(),
            Some(entry) => {
                into.push_reserved(entry);
                from = entry.object as usize + 1;
            }
        }
    }
}

impl Table {
    /// Returns a table of `count` objects without slots. Fails only if memory runs out.
    pub(crate) fn new(alloc: Global, count: usize) -> Result<Table, AllocError>
        ensures { IfOk result (λ table. table ≡ replicate count Place.Nowhere) }
    {
        let places = blank_places(alloc, count)?;
        let held = NumberSet::new(alloc, count)?;
        Ok(Table {
            places,
            held,
            taken: 0,
            whole: 0,
        })
    }

    /// The place of an object.
    pub(crate) fn place(&self, number: u64) -> Place
        requires { number < length self.now }
        ensures { result ≡ place_at self.now number }
    {
        self.places[number as usize]
    }

    /// How many objects have a slot.
    pub(crate) fn taken(&self) -> u64
        ensures { result ≡ taken_count self.now }
    {
        self.taken
    }

    /// How many objects have a valid frame in their slot.
    pub(crate) fn whole(&self) -> u64
        ensures { result ≡ whole_count self.now }
    {
        self.whole
    }

    /// Returns the slot of an object; if it has none, the next free slot.
    pub(crate) fn slot_for(&self, number: u64) -> u64
        requires { number < length self.now }
        ensures { result ≡ slot_for self.now number }
    {
        match self.place(number) {
            Place::Nowhere => self.taken,
            Place::Torn(slot) => slot,
            Place::Whole(slot) => slot,
        }
    }

    /// Sets the place of an object: its own slot, or the next free one.
    pub(crate) fn set(&mut self, number: u64, place: Place)
        requires known { number < length self.old }
        requires slot { slot_of place ≡ Some (slot_for self.old number) }
        ensures { self.new ≡ slice_set self.old number place }
    {
        let old = self.place(number);
        self.taken = self.taken + place.slots() - old.slots();
        self.whole = self.whole + place.frames() - old.frames();
        self.places[number as usize] = place;
        self.held.set(number as usize, true);
    }

    /// Sets the place of every object to `Nowhere`.
    pub(crate) fn clear(&mut self)
        ensures { self.new ≡ replicate (length self.old) Place.Nowhere }
    {
        clear_places(&mut self.places, &mut self.held, self.taken);
        self.taken = 0;
        self.whole = 0;
    }

    /// Puts the entries of all objects that have a slot into an empty list, in the order of their numbers.
    pub(crate) fn list(&self, into: &mut Vec<Entry>)
        requires none { into.old.items ≡ [] }
        requires room { taken_count self.now ≤ vec_capacity into.old }
        ensures entries { into.new.items ≡ entries_of self.now }
        ensures room { vec_capacity into.new ≡ vec_capacity into.old }
    {
        list_entries(&self.places, &self.held, self.taken, into);
    }
}
