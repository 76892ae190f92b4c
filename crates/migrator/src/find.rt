// Finds the slot of an object in a directory.
ghost use Rattle.std.specs.Prelude.{◌≡◌, ◌<◌, ◌≤◌, ℕ, length};
ghost use Rattle.layout.specs.Directory.{AreRising, IsDirectory, entry_at};
ghost use Rattle.layout.specs.Image.{frame_slot_in, slot_beside, slot_in};
ghost use Rattle.layout.specs.Frames.{IsObject};

use crate::whole::is_whole;
use home_ranges::Home;
use layout::{Entry, Superblock};

// Returns the index of the first entry whose number is at least `number`, or how many entries there are if none is. A
// binary search.
fn first_from(entries: &[Entry], number: u64) -> usize
    requires { AreRising entries.now }
    ensures within { result ≤ length entries.now }
    ensures below { (i : ℕ) → i < result → (entry_at entries.now i).object < number }
    ensures from { (i : ℕ) → result ≤ i → i < length entries.now
        → number ≤ (entry_at entries.now i).object }
{
    let mut low = 0;
    let mut high = entries.len();
    while low < high {
        let middle = low + (high - low) / 2;
        if entries[middle].object < number {
            low = middle + 1;
        } else {
            high = middle;
        }
    }
    low
}

/// Returns the slot of an object's entry, or `None` if it has none.
pub(crate) fn find(entries: &[Entry], number: u64) -> Option<u64>
    requires { AreRising entries.now }
    ensures { result ≡ slot_in entries.now number }
{
    let at = first_from(entries, number);
    if at < entries.len() && entries[at].object == number {
        Some(entries[at].slot)
    } else {
        None
    }
}

// Returns the slot of the first entry that shares the home of an object, or `None` if no entry does.
fn find_beside(plan: &Superblock, entries: &[Entry], number: u64) -> Option<u64>
    requires directory { IsDirectory plan.now.geometry entries.now }
    requires object { IsObject plan.now.geometry number }
    ensures { result ≡ slot_beside plan.now entries.now number }
{
    let home = Home::new(plan);
    let at = first_from(entries, home.first(number));
    if at < entries.len() && home.place(entries[at].object) == home.place(number) {
        Some(entries[at].slot)
    } else {
        None
    }
}

/// Returns the slot that contains the frame of an object, or `None` if none does. In a sealed version this is the slot
/// of the first entry in its cluster, else that of its own entry if it has one. A page can only have its own.
pub(crate) fn find_frame_slot(plan: &Superblock, entries: &[Entry], number: u64) -> Option<u64>
    requires directory { IsDirectory plan.now.geometry entries.now }
    requires object { IsObject plan.now.geometry number }
    ensures { result ≡ frame_slot_in plan.now entries.now number }
{
    if is_whole(plan.shape(number)) {
        return find(entries, number);
    }
    if plan.version().row().sealed {
        return find_beside(plan, entries, number);
    }
    match find(entries, number) {
        Some(slot) => Some(slot),
        None => find_beside(plan, entries, number),
    }
}
