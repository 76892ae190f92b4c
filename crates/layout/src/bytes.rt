// Numbers and zeros in bytes.
ghost use Rattle.std.specs.Prelude.{◌≡◌, ◌+◌, ◌-◌, ◌≤◌, ◌++◌, ◌↔◌, length, take, drop, IsTrue};
ghost use Rattle.layout.specs.Bytes.{number, zeros};

use byteorder::{ByteOrder, LittleEndian};

/// Returns the little-endian number in the eight bytes from `at` on.
#[tactic(auto, using(crate::proofs::Numbers::number_read, std::proofs::lemmas::List::take_rest))]
pub fn number_at(bytes: &[u8], at: usize) -> u64
    requires { at + 8 ≤ length bytes.now }
    ensures { drop at bytes.now ≡ number result ++ drop (at + 8) bytes.now }
{
    LittleEndian::read_u64(&bytes[at..])
}

/// Writes `n` little-endian into the eight bytes from `at` on. No other byte changes.
pub fn put_number(bytes: &mut [u8], at: usize, n: u64)
    requires { at + 8 ≤ length bytes.old }
    ensures before { take (at + 8) bytes.new ≡ take at bytes.old ++ number n }
    ensures after { drop (at + 8) bytes.new ≡ drop (at + 8) bytes.old }
{
    LittleEndian::write_u64(&mut bytes[at..], n);
}

/// Whether all bytes are 0.
#[tactic(auto, using(crate::proofs::Numbers::sum_more, crate::proofs::Numbers::ends_zeros))]
pub fn are_zeros(bytes: &[u8]) -> bool
    ensures { IsTrue result ↔ (bytes.now ≡ zeros (length bytes.now)) }
{
    let mut any = 0;
    for byte in bytes {
        any |= *byte;
    }
    any == 0
}

/// Whether all bytes from `at` on are 0.
pub fn is_blank_from(bytes: &[u8], at: usize) -> bool
    requires { at ≤ length bytes.now }
    ensures { IsTrue result ↔ (drop at bytes.now ≡ zeros (length bytes.now - at)) }
{
    are_zeros(&bytes[at..])
}

/// Whether all bytes from index `from` to before index `to` are 0.
pub fn is_blank_between(bytes: &[u8], from: usize, to: usize) -> bool
    requires order { from ≤ to }
    requires room { to ≤ length bytes.now }
    ensures { IsTrue result ↔ (take (to - from) (drop from bytes.now) ≡ zeros (to - from)) }
{
    are_zeros(&bytes[from..to])
}

/// Sets all bytes to 0.
#[tactic(auto, using(crate::proofs::Numbers::all_blank))]
pub fn blank(bytes: &mut [u8])
    ensures { bytes.new ≡ zeros (length bytes.old) }
{
    bytes.fill(0);
}

/// Sets the first `end` bytes to 0. No other byte changes.
pub fn blank_front(bytes: &mut [u8], end: usize)
    requires { end ≤ length bytes.old }
    ensures before { take end bytes.new ≡ zeros end }
    ensures after { drop end bytes.new ≡ drop end bytes.old }
{
    blank(&mut bytes[..end]);
}

/// Sets the bytes from `at` on to 0. No other byte changes.
pub fn blank_from(bytes: &mut [u8], at: usize)
    requires { at ≤ length bytes.old }
    ensures { bytes.new ≡ take at bytes.old ++ zeros (length bytes.old - at) }
{
    blank(&mut bytes[at..]);
}
