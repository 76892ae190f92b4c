// The numbered gate of a header.
ghost use Rattle.std.specs.Prelude.{◌≡◌, ◌<◌, ◌≤◌, ℕ, length, IfSome, IfNone};
ghost use Rattle.layout.specs.sealed.Gate.{HasNumber, copies, numbered_gate_bytes, gate_numbers};

use byteorder::{ByteOrder, LittleEndian};

// How many copies of its number a gate has.
const COPIES: usize = 64;

// How many copies must agree, so that the gate has a number.
const MAJORITY: usize = 33;

/// Writes the 512 bytes of a gate's sector: 64 copies of a sequence number. Number 0 closes the gate.
pub fn encode_numbered_gate(sequence: u64, into: &mut [u8])
    requires { length into.old ≡ 512 }
    ensures { into.new ≡ numbered_gate_bytes sequence }
{
    LittleEndian::write_u64_into(&[sequence; COPIES], into);
}

// Fills `into` with the 64 numbers in 512 bytes.
fn read_numbers(bytes: &[u8], into: &mut [u64])
    requires bytes { length bytes.now ≡ 512 }
    requires numbers { length into.old ≡ 64 }
    ensures { into.new ≡ gate_numbers bytes.now }
{
    LittleEndian::read_u64_into(bytes, into);
}

// Returns how often a number occurs among numbers.
fn copies(number: u64, numbers: &[u64]) -> usize
    requires { length numbers.now ≡ 64 }
    ensures { result ≡ copies number numbers.now }
{
    let mut count = 0;
    for other in numbers {
        if *other == number {
            count += 1;
        }
    }
    count
}

// Returns the number that occurs at least 33 times in 64, if there is one and it isn't 0.
fn majority(numbers: &[u64]) -> Option<u64>
    requires { length numbers.now ≡ 64 }
    ensures some { IfSome result (λ n. (0 < n) × (33 ≤ copies n numbers.now)) }
    ensures none { IfNone result ((n : ℕ) → 0 < n → 33 ≤ copies n numbers.now → ⊥) }
{
    for number in numbers {
        if *number > 0 && copies(*number, numbers) >= MAJORITY {
            return Some(*number);
        }
    }
    None
}

/// Returns the number of a gate: the one that at least 33 of its 64 copies hold, if that isn't 0. Otherwise returns
/// `None`: the gate is closed, or a write of it was torn.
pub fn decode_numbered_gate(bytes: &[u8]) -> Option<u64>
    requires { length bytes.now ≡ 512 }
    ensures some { IfSome result (λ n. HasNumber bytes.now n) }
    ensures none { IfNone result ((n : ℕ) → HasNumber bytes.now n → ⊥) }
{
    let mut numbers = [0; COPIES];
    read_numbers(bytes, &mut numbers);
    majority(&numbers)
}
