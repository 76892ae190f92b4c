// A sector of a directory.
ghost use Rattle.std.specs.Prelude.{◌≡◌, ◌*◌, ◌≤◌, List, length, IfSome, IfNone};
ghost use Rattle.layout.specs.declared.directory.Entry.{Entry};
ghost use Rattle.layout.specs.Directory.{AllFitting};
ghost use Rattle.seal.specs.Seal.{seal_of};
ghost use Rattle.seal.specs.Sums.{sums_bytes};
ghost use Rattle.layout.specs.sealed.Directory.{entries_bytes, entry_numbers};

use crate::directory::Entry;
use crate::sealed::sector::{SEAL_AT, decode_sector, encode_sector};
use seal::{Sums, sums_at};

/// The greatest number of entries in a sector of a directory.
pub const SECTOR_ENTRIES: usize = 30;

// Fills `into` with the numbers of objects and slots, one after the other.
fn put_entries(entries: &[Entry], into: &mut [u64])
    requires { length into.old ≡ 2 * length entries.now }
    ensures { into.new ≡ entry_numbers entries.now }
{
    for (i, entry) in entries.iter().enumerate() {
        into[2 * i] = entry.object;
        into[2 * i + 1] = entry.slot;
    }
}

// Fills `into` with the entries that are encoded in these numbers.
fn take_entries(numbers: &[u64], into: &mut [Entry])
    requires { length numbers.now ≡ 2 * length into.old }
    ensures { numbers.now ≡ entry_numbers into.new }
{
    for i in 0..into.len() {
        into[i] = Entry {
            object: numbers[2 * i],
            slot: numbers[2 * i + 1],
        };
    }
}

/// Writes the 512 bytes of a directory's sector with at most 30 entries.
pub fn encode_entries(entries: &[Entry], into: &mut [u8])
    requires size { length into.old ≡ 512 }
    requires entries { length entries.now ≤ 30 }
    ensures { into.new ≡ entries_bytes entries.now }
{
    let mut numbers = [0; 2 * SECTOR_ENTRIES];
    let used = &mut numbers[..2 * entries.len()];
    put_entries(entries, used);
    encode_sector(used, into);
}

/// Reads the 512 bytes of a directory's sector with `into.len()` entries, at most 30, and returns its seal.
///
/// Returns `None` if the bytes encode no such sector: it isn't sealed, or a byte after the entries isn't 0. Then
/// `into` may hold any entries. The entries aren't checked.
pub fn decode_entries(bytes: &[u8], into: &mut [Entry]) -> Option<Sums>
    requires size { length bytes.now ≡ 512 }
    requires entries { length into.old ≤ 30 }
    ensures some { IfSome result (λ seal. (bytes.now ≡ entries_bytes into.new)
        × (seal_of bytes.now ≡ sums_bytes seal)) }
    ensures none { IfNone result ((es : List Entry) → length es ≡ length into.old → AllFitting es →
        bytes.now ≡ entries_bytes es → ⊥) }
{
    let mut numbers = [0; 2 * SECTOR_ENTRIES];
    let used = &mut numbers[..2 * into.len()];
    if !decode_sector(bytes, used) {
        return None;
    }
    take_entries(used, into);
    Some(sums_at(bytes, SEAL_AT))
}
