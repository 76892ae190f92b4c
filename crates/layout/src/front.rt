// The front of a frame: its role, its counts and its owner.
ghost use Rattle.std.specs.Prelude.{◌≡◌, ◌≤◌, ◌++◌, ◌↔◌, length, take, drop, IsTrue};
ghost use Rattle.model.specs.Keepable.{IsCount};
ghost use Rattle.model.specs.Object.{role_number};
ghost use Rattle.layout.specs.Frame.{front_numbers, role_in};

use crate::bytes::{number_at, put_number};
use model::{ObjectHeader, Role};

// Returns the role with a number, or `Free` if no role has it.
fn role_in(number: u64) -> Role
    ensures { result ≡ role_in number }
{
    match number {
        1 => Role::Page,
        2 => Role::Node,
        3 => Role::Root,
        4 => Role::Annex,
        5 => Role::Bank,
        _ => Role::Free,
    }
}

/// Whether both counts of a header are at most the age.
pub fn has_counts(header: ObjectHeader, age: u64) -> bool
    ensures { IsTrue result ↔ (IsCount age header.allocations × IsCount age header.calls) }
{
    header.allocations <= age && header.calls <= age
}

/// Writes the 32 bytes of the front of a frame. The bytes after them stay.
pub fn encode_front(header: ObjectHeader, into: &mut [u8])
    requires { 32 ≤ length into.old }
    ensures before { take 32 into.new ≡ front_numbers (role_number header.role) header }
    ensures after { drop 32 into.new ≡ drop 32 into.old }
{
    put_number(into, 0, header.role.number());
    put_number(into, 8, header.allocations);
    put_number(into, 16, header.calls);
    put_number(into, 24, header.owner);
}

/// Reads the first 32 bytes of a frame. Returns the first eight as one number, and the header. In a
/// frame the number is that of the role; if no role has it, the header's role is `Free`.
pub fn decode_front(bytes: &[u8]) -> (u64, ObjectHeader)
    requires { 32 ≤ length bytes.now }
    ensures bytes { bytes.now ≡ front_numbers result.0 result.1 ++ drop 32 bytes.now }
    ensures role { result.1.role ≡ role_in result.0 }
{
    let first = number_at(bytes, 0);
    let header = ObjectHeader {
        role: role_in(first),
        allocations: number_at(bytes, 8),
        calls: number_at(bytes, 16),
        owner: number_at(bytes, 24),
    };
    (first, header)
}
