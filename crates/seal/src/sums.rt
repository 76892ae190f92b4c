// The sums of a row of bytes, and the bytes of sums.
ghost use Rattle.std.specs.Prelude.{◌≡◌, ◌+◌, ◌^◌, ◌<◌, ◌≤◌, ◌%◌, ◌++◌, length, take, drop};
ghost use Rattle.byteorder.specs.Endian.{little_bytes};
ghost use Rattle.seal.specs.Sums.{Fit, sums_bytes, sums_of};

use byteorder::{ByteOrder, LittleEndian};

/// How many bytes sums take.
pub const SUMS_BYTES: usize = 24;

/// The sums of a row of bytes. If two rows of one length differ in at most three 4-byte numbers, they have
/// different sums.
#[derive(Clone, Copy, PartialEq, Eq)]
pub struct Sums {
    /// The sum of all 4-byte numbers in the row.
    pub a: u64,
    /// The sum of these numbers, each times its place k, counted from the end: the last number has place 1.
    pub b: u64,
    /// The sum of these numbers, each times k (k + 1) / 2.
    pub c: u64,
}

/// Returns the sums of a row of at most 4096 bytes, whose length is a multiple of 4. Each sum is below 2^60.
pub fn sums_of(row: &[u8]) -> Sums
    requires whole { length row.now % 4 ≡ 0 }
    requires size { length row.now ≤ 4096 }
    ensures sums { result ≡ sums_of row.now }
    ensures fit { Fit result }
{
    let mut sums = Sums { a: 0, b: 0, c: 0 };
    for i in 0..row.len() / 4 {
        sums.a += LittleEndian::read_u32(&row[4 * i..]) as u64;
        sums.b += sums.a;
        sums.c += sums.b;
    }
    sums
}

/// Returns the sums in the 24 bytes from `at` on.
pub fn sums_at(bytes: &[u8], at: usize) -> Sums
    requires { at + 24 ≤ length bytes.now }
    ensures { drop at bytes.now ≡ sums_bytes result ++ drop (at + 24) bytes.now }
{
    Sums {
        a: LittleEndian::read_u64(&bytes[at..]),
        b: LittleEndian::read_u64(&bytes[at + 8..]),
        c: LittleEndian::read_u64(&bytes[at + 16..]),
    }
}

// Writes `n` little-endian into the eight bytes from `at` on. No other byte changes.
fn put_number(bytes: &mut [u8], at: usize, n: u64)
    requires { at + 8 ≤ length bytes.old }
    ensures { bytes.new ≡ (take at bytes.old ++ little_bytes 8 n) ++ drop (at + 8) bytes.old }
{
    LittleEndian::write_u64(&mut bytes[at..], n);
}

/// Writes sums into the 24 bytes from `at` on. No other byte changes.
pub fn put_sums(bytes: &mut [u8], at: usize, sums: Sums)
    requires { at + 24 ≤ length bytes.old }
    ensures { bytes.new ≡ (take at bytes.old ++ sums_bytes sums) ++ drop (at + 24) bytes.old }
{
    put_number(bytes, at, sums.a);
    put_number(bytes, at + 8, sums.b);
    put_number(bytes, at + 16, sums.c);
}
