// Sealed rows of bytes.
ghost use Rattle.std.specs.Prelude.{◌≡◌, ◌≤◌, ◌%◌, ◌↔◌, length, IsTrue};
ghost use Rattle.seal.specs.Seal.{IsSealed, body_of};

use crate::sums::{SUMS_BYTES, put_sums, sums_at, sums_of};

/// Whether the last 24 bytes of a row of at most 4096 are the sums of the bytes before them.
pub fn is_sealed(row: &[u8]) -> bool
    requires whole { length row.now % 4 ≡ 0 }
    requires room { 24 ≤ length row.now }
    requires size { length row.now ≤ 4096 }
    ensures { IsTrue result ↔ IsSealed row.now }
{
    let body = row.len() - SUMS_BYTES;
    sums_at(row, body) == sums_of(&row[..body])
}

/// Seals a row of at most 4096 bytes: overwrites its last 24 bytes with the sums of the bytes before. No
/// other byte changes.
pub fn seal(row: &mut [u8])
    requires whole { length row.old % 4 ≡ 0 }
    requires room { 24 ≤ length row.old }
    requires size { length row.old ≤ 4096 }
    ensures sealed { IsSealed row.new }
    ensures body { body_of row.new ≡ body_of row.old }
{
    let body = row.len() - SUMS_BYTES;
    let sums = sums_of(&row[..body]);
    put_sums(row, body, sums);
}
