// The directory of a checkpoint.
ghost use Rattle.std.specs.Prelude.{◌≡◌, ◌+◌, ◌*◌, ◌<◌, ◌≤◌, ◌↔◌, List, length, IsTrue, OnOk, IfErr};
ghost use Rattle.std.specs.List.{All};
ghost use Rattle.layout.specs.declared.directory.Entry.{Entry};
ghost use Rattle.layout.specs.Directory.{directory_bytes, IsEntry, AreRising, HaveOwnSlots, IsDirectory, AllFitting};

use crate::bad_image::BadImage;
use crate::bytes::{number_at, put_number};
use model::Geometry;

/// How many bytes an entry takes.
pub const ENTRY_BYTES: usize = 16;

/// The greatest number of slots of a log half.
pub const MAX_LOG: usize = 4096;

/// An entry of a directory: an object, and its slot in a log half.
#[derive(Clone, Copy)]
pub struct Entry {
    pub object: u64,
    pub slot: u64,
}

// Whether an entry has an object and a slot of a device of this geometry.
fn is_entry(geometry: Geometry, entry: Entry) -> bool
    ensures { IsTrue result ↔ IsEntry geometry entry }
{
    let is_object = entry.object < geometry.nodes || entry.object - geometry.nodes < geometry.pages;
    is_object && entry.slot < geometry.log
}

// Whether the numbers of the objects rise from entry to entry.
fn are_rising(entries: &[Entry]) -> bool
    ensures { IsTrue result ↔ AreRising entries.now }
{
    for i in 1..entries.len() {
        if entries[i - 1].object >= entries[i].object {
            return false;
        }
    }
    true
}

// Whether no slot comes twice.
fn have_own_slots(entries: &[Entry]) -> bool
    requires { All (λ e. e.slot < MAX_LOG) entries.now }
    ensures { IsTrue result ↔ HaveOwnSlots entries.now }
{
    let mut used = [false; MAX_LOG];
    for entry in entries {
        let slot = entry.slot as usize;
        if used[slot] {
            return false;
        }
        used[slot] = true;
    }
    true
}

// Whether entries are a directory: objects and slots exist on the device, the objects rise, and no slot comes twice.
fn is_directory(geometry: Geometry, entries: &[Entry]) -> bool
    requires { geometry.log ≤ MAX_LOG }
    ensures { IsTrue result ↔ IsDirectory geometry entries.now }
{
    entries.iter().all(|entry| is_entry(geometry, *entry))
        && are_rising(entries)
        && have_own_slots(entries)
}

/// Writes a directory into `into`, 16 bytes for each entry.
#[tactic(auto, using(crate::proofs::Directories::no_entry))]
pub fn encode_directory(entries: &[Entry], into: &mut [u8])
    requires { length into.old ≡ 16 * length entries.now }
    ensures { into.new ≡ directory_bytes entries.now }
{
    for (i, entry) in entries.iter().enumerate() {
        let at = ENTRY_BYTES * i;
        put_number(into, at, entry.object);
        put_number(into, at + 8, entry.slot);
    }
}

// Fills `into` with the entries in the bytes, 16 bytes for each, and doesn't check them.
fn read_entries(bytes: &[u8], into: &mut [Entry])
    requires { length bytes.now ≡ 16 * length into.old }
    ensures bytes { bytes.now ≡ directory_bytes into.new }
    ensures fits { AllFitting into.new }
{
    for i in 0..into.len() {
        let at = ENTRY_BYTES * i;
        into[i] = Entry {
            object: number_at(bytes, at),
            slot: number_at(bytes, at + 8),
        };
    }
}

/// Reads a directory of `into.len()` entries, 16 bytes for each. The numbers of the objects must rise and
/// exist on the device. No slot may come twice or lie outside a log half.
///
/// Returns `BadDirectory` if the bytes encode no such directory; then `into` may hold any entries.
#[tactic(auto, using(crate::proofs::Directories::directory_fits, crate::proofs::Directories::one_directory))]
pub fn decode_directory(
    bytes: &[u8],
    geometry: Geometry,
    into: &mut [Entry],
) -> Result<(), BadImage>
    requires size { length bytes.now ≡ 16 * length into.old }
    requires log { geometry.log ≤ MAX_LOG }
    ensures found { OnOk result (IsDirectory geometry into.new
        × (bytes.now ≡ directory_bytes into.new)) }
    ensures refused { IfErr result (λ e. (e ≡ BadImage.BadDirectory)
        × ((es : List Entry) → IsDirectory geometry es → bytes.now ≡ directory_bytes es → ⊥)) }
{
    read_entries(bytes, into);
    if is_directory(geometry, into) {
        Ok(())
    } else {
        Err(BadImage::BadDirectory)
    }
}
