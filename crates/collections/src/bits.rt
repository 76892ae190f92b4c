// Bits in words of 64 bits. The bit of number n is bit n mod 64 of word n / 64.
ghost use Rattle.std.specs.Prelude.{◌≡◌, ◌≢◌, ℕ, ◌*◌, ◌/◌, ◌^◌, ◌<◌, ◌≤◌, length, slice_index, IfSome, None};
ghost use Rattle.std.specs.Int.{bit_at};
ghost use Rattle.collections.specs.Bits.{IsLowestFrom, IsFirstSet, HasNoneSet, IsFirstClear, HasNoneClear, IsBitPut};
ghost use Rattle.collections.specs.Bits.{SumsUp, bit_of, digit};

/// How many numbers have their bits in one word.
pub(crate) const WORD_BITS: usize = 64;

/// Whether the bit of a number is set.
#[tactic(auto, using(crate::proofs::Marks::read_bit))]
pub(crate) fn has_bit(words: &[u64], number: usize) -> bool
    requires { number / 64 < length words.now }
    ensures { bit_of words.now number ≡ digit result }
{
    words[number / WORD_BITS] >> (number % WORD_BITS) & 1 == 1
}

/// Sets or clears the bit of a number, and returns the word with this bit.
pub(crate) fn put_bit(words: &mut [u64], number: usize, set: bool) -> u64
    requires { number / 64 < length words.old }
    ensures put { IsBitPut words.old number (digit set) words.new }
    ensures word { result ≡ slice_index words.new (number / 64) }
{
    let word = with_bit(words[number / WORD_BITS], number % WORD_BITS, set);
    words[number / WORD_BITS] = word;
    word
}

/// Returns a word with one bit set or cleared.
#[tactic(auto, using(crate::proofs::Marks::set_here, crate::proofs::Marks::clear_here))]
fn with_bit(word: u64, bit: usize, set: bool) -> u64
    requires { bit < 64 }
    ensures here { bit_at result bit ≡ digit set }
    ensures others { (other : ℕ) → other < 64 → other ≢ bit
        → bit_at result other ≡ bit_at word other }
{
    if set {
        word | 1 << bit
    } else {
        word & !(1 << bit)
    }
}

/// Returns the lowest set bit of a word that isn't below `from`, or `None`.
#[tactic(auto, using(crate::proofs::Marks::none_from, crate::proofs::Marks::lowest_from))]
fn first_bit(word: u64, from: usize) -> Option<usize>
    requires { from < 64 }
    ensures some { IfSome result (λ bit. IsLowestFrom word from bit) }
    ensures none { result ≡ None → (other : ℕ) → from ≤ other → other < 64
        → bit_at word other ≡ 0 }
{
    let rest = word >> from;
    if rest == 0 {
        return None;
    }
    Some(from + rest.trailing_zeros() as usize)
}

/// Returns the least number that isn't below `from` and whose bit is set, or `None`. Goes word by word.
#[tactic(auto, using(crate::proofs::Marks::none_by_word, crate::proofs::Marks::none_past_all))]
fn first_set(words: &[u64], from: usize) -> Option<usize>
    requires { 64 * length words.now ≤ 2 ^ 64 }
    ensures some { IfSome result (λ number. IsFirstSet words.now from number) }
    ensures none { result ≡ None → HasNoneSet words.now from }
{
    for word in from / WORD_BITS..words.len() {
        let start = word * WORD_BITS;
        if let Some(bit) = first_bit(words[word], from.saturating_sub(start)) {
            return Some(start + bit);
        }
    }
    None
}

/// Returns the least number that isn't below `from` and whose bit is set, or `None`. Bit w of `summary` is
/// set if word w isn't 0, so words of 0 are skipped.
#[tactic(auto, using(crate::proofs::Marks::none_past_words, crate::proofs::Marks::later_fits))]
pub(crate) fn first_summed(words: &[u64], summary: &[u64], from: usize) -> Option<usize>
    requires few { 64 * length words.now ≤ 2 ^ 64 }
    requires few_summed { 64 * length summary.now ≤ 2 ^ 64 }
    requires summed { SumsUp words.now summary.now }
    ensures some { IfSome result (λ number. IsFirstSet words.now from number) }
    ensures none { result ≡ None → HasNoneSet words.now from }
{
    let word = from / WORD_BITS;
    if word >= words.len() {
        return None;
    }
    if let Some(bit) = first_bit(words[word], from % WORD_BITS) {
        return Some(word * WORD_BITS + bit);
    }
    let later = first_set(summary, word + 1)?;
    Some(later * WORD_BITS + words[later].trailing_zeros() as usize)
}

/// Returns the least number that isn't below `from` and whose bit is clear, or `None`. Goes word by word.
#[tactic(auto, using(crate::proofs::Marks::full_by_word))]
pub(crate) fn first_clear(words: &[u64], from: usize) -> Option<usize>
    requires { 64 * length words.now ≤ 2 ^ 64 }
    ensures some { IfSome result (λ number. IsFirstClear words.now from number) }
    ensures none { result ≡ None → HasNoneClear words.now from }
{
    for word in from / WORD_BITS..words.len() {
        let start = word * WORD_BITS;
        if let Some(bit) = first_bit(!words[word], from.saturating_sub(start)) {
            return Some(start + bit);
        }
    }
    None
}
