// Numbers in decimal.
ghost use Rattle.std.specs.Prelude.{◌≡◌, ◌≢◌, ℕ, ◌+◌, ◌*◌, ◌<◌, ◌≤◌, ◌^◌, IfSome, IfNone, decimal, take};
ghost use Rattle.std.specs.Str.Parse.{AllDigits, digits_value};
ghost use Rattle.script.specs.Reading.{first_end, first_word};

/// The number that a text begins with.
#[derive(Clone, Copy)]
pub struct Front {
    pub number: u64,
    /// How many bytes of the text the number takes.
    pub size: usize,
}

// A number below this one can take any further digit and stays below 2^64.
const TENTH: u64 = u64::MAX / 10;

// Returns the number with one more digit, or `None` if that is 2^64 or above.
#[inline(always)]
fn with_digit(number: u64, digit: u64) -> Option<u64>
    requires { digit < 10 }
    ensures some { IfSome result (λ n. (n < 2 ^ 64) × (n ≡ number * 10 + digit)) }
    ensures none { IfNone result (2 ^ 64 ≤ number * 10 + digit) }
{
    if number < TENTH {
        return Some(number * 10 + digit);
    }
    number.checked_mul(10)?.checked_add(digit)
}

// Returns the value of the first word of a text. Returns `None` if the word has a byte that is no digit, or if the
// value is 2^64 or above.
#[tactic(auto, using(crate::proofs::FirstWords::ends_here, crate::proofs::FirstWords::first_end_within))]
fn value_in_front(text: &[u8]) -> Option<Front>
    ensures size { IfSome result (λ front. front.size ≡ first_end text.now) }
    ensures found { IfSome result (λ front. (front.number < 2 ^ 64)
        × AllDigits 10 (first_word text.now) × (front.number ≡ digits_value 10 (first_word text.now))) }
    ensures none { IfNone result (AllDigits 10 (first_word text.now)
        → 2 ^ 64 ≤ digits_value 10 (first_word text.now)) }
{
    let mut number: u64 = 0;
    for (size, byte) in text.iter().enumerate() {
        if !byte.is_ascii_digit() {
            if *byte == b' ' {
                return Some(Front { number, size });
            }
            return None;
        }
        number = with_digit(number, u64::from(*byte - b'0'))?;
    }
    Some(Front {
        number,
        size: text.len(),
    })
}

/// Returns the number that a text begins with: its first word, in decimal without leading zeros. Returns `None` if
/// that word is no such number.
#[tactic(auto, using(crate::proofs::FirstWords::word_length, crate::proofs::Numbers::decimal_not_empty))]
#[inline(never)]
pub fn number_in_front(text: &[u8]) -> Option<Front>
    ensures size { IfSome result (λ front. front.size ≡ first_end text.now) }
    ensures found { IfSome result (λ front. (front.number < 2 ^ 64)
        × (first_word text.now ≡ decimal front.number)) }
    ensures none { IfNone result ((n : ℕ) → n < 2 ^ 64 → first_word text.now ≢ decimal n) }
{
    let front = value_in_front(text)?;
    if front.size == 0 {
        return None;
    }
    if front.size > 1 && text[0] == b'0' {
        return None;
    }
    Some(front)
}
