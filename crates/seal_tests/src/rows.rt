// Rows of bytes, their sums and their seals.
use seal::{Sums, is_sealed, seal, sums_of};
use std::process::Abort;

// A row whose byte i is (first + step * i) modulo 256, and the sums of the row.
struct Row {
    first: u8,
    step: u8,
    sums: Sums,
}

// Rows as long as the body of a sealed sector.
const BODIES: &[Row] = &[
    Row {
        first: 0,
        step: 0,
        sums: Sums { a: 0, b: 0, c: 0 },
    },
    Row {
        first: 1,
        step: 1,
        sums: Sums {
            a: 251_104_362_958,
            b: 13_262_279_211_203,
            c: 497_754_940_672_376,
        },
    },
    Row {
        first: 250,
        step: 7,
        sums: Sums {
            a: 260_606_263_920,
            b: 15_744_545_587_538,
            c: 639_770_739_550_668,
        },
    },
];

// Rows of 4096 bytes. The second has the greatest sums that are possible.
const WORDS: &[Row] = &[
    Row {
        first: 9,
        step: 31,
        sums: Sums {
            a: 2_207_713_459_200,
            b: 1_131_940_376_910_336,
            c: 387_219_312_588_793_856,
        },
    },
    Row {
        first: 255,
        step: 0,
        sums: Sums {
            a: 4_398_046_510_080,
            b: 2_253_998_836_416_000,
            c: 770_867_602_054_272_000,
        },
    },
];

// The seal of 488 bytes 1, 2, 3, .. (modulo 256).
const SEAL: [u8; 24] = [
    206, 129, 252, 118, 58, 0, 0, 0, 195, 248, 112, 221, 15, 12, 0, 0, 120, 137, 108, 154, 180,
    196, 1, 0,
];

// Fills a row with bytes from `first` on, each greater by `step`.
fn fill(row: &mut [u8], first: u8, step: u8) {
    let mut byte = first;
    for it in row {
        *it = byte;
        byte = byte.wrapping_add(step);
    }
}

#[test]
fn sums_are_as_defined(rt: HostRuntime) {
    for row in BODIES {
        let mut bytes = [0; 488];
        fill(&mut bytes, row.first, row.step);
        assert!(rt; sums_of(&bytes) == row.sums, "488 bytes from {}", row.first);
    }
    for row in WORDS {
        let mut bytes = [0; 4096];
        fill(&mut bytes, row.first, row.step);
        assert!(rt;
            sums_of(&bytes) == row.sums,
            "4096 bytes from {}",
            row.first
        );
    }
}

#[test]
fn a_seal_shows_a_flipped_bit(rt: HostRuntime) {
    let mut row = [0; 512];
    assert!(rt; is_sealed(&row), "zeros");
    fill(&mut row, 1, 1);
    assert!(rt; !is_sealed(&row), "no seal");
    seal(&mut row);
    assert!(rt; &row[488..] == SEAL.as_slice(), "another seal");
    assert!(rt; row[487] == 232, "the body was changed");
    assert!(rt; is_sealed(&row), "sealed");
    for bit in 0..4096 {
        row[bit / 8] ^= 1 << (bit % 8);
        assert!(rt; !is_sealed(&row), "bit {bit}");
        row[bit / 8] ^= 1 << (bit % 8);
    }
}
