// Fast parsers of the parts of an invocation, each at an index of a line. If they return `None`, the general
// parser decides.
ghost use Rattle.std.specs.Prelude.{◌≡◌, ◌≢◌, ◌+◌, ◌-◌, ◌%◌, ◌/◌, ◌<◌, ◌≤◌, ℕ, List, [], Some, IfSome, length};
ghost use Rattle.std.specs.Prelude.{drop, take, slice_index_or};
ghost use Rattle.std.specs.Int.{IsInRange};
ghost use Rattle.std.specs.Str.Parse.{AllDigits, digits_value};
ghost use Rattle.model.specs.declared.command.Command.{Command};
ghost use Rattle.model.specs.Text.{Fits, command_words};
ghost use Rattle.script.specs.Order.{invoked};
ghost use Rattle.script.specs.Reading.{words_of, number_at, numbers_at, register_at, registers_at};

use crate::keyword::{four_at, operation_in};
use crate::words::register_of;
use model::{Operation, Register};

// The first and the last four bytes of `0 0 0 0`, each as one number.
const VOID_BEGIN: u64 = 0x2030_2030;

const VOID_END: u64 = 0x3020_3020;

// `0 ` and `9 `, each as one number.
const ZERO_AND_SPACE: u64 = 0x2030;

const NINE_AND_SPACE: u64 = 0x2039;

// The bytes of the first digit, the last digit and a space, as `u64` like the values of digits.
const FIRST_DIGIT: u64 = 48;

const LAST_DIGIT: u64 = 57;

const SPACE: u64 = 32;

/// A number in a text, and the index at which the next word begins.
#[derive(Clone, Copy)]
pub struct Short {
    pub number: u64,
    pub next: usize,
}

// Returns two bytes of a text, from index `at` on, as one little-endian number.
#[inline(always)]
fn two_at(text: &[u8], at: usize) -> u64
    requires { at + 1 < length text.now }
    ensures low { result % 256 ≡ slice_index_or text.now at 0 }
    ensures high { result / 256 ≡ slice_index_or text.now (at + 1) 0 }
{
    u64::from(text[at]) + u64::from(text[at + 1]) * 0x100
}

// Returns the value of the digit at an index, or `None` if the byte there is no digit.
#[inline(always)]
fn digit_at(text: &[u8], at: usize) -> Option<u64>
    requires { at < length text.now }
    ensures { IfSome result (λ digit. IsInRange 48 57 (slice_index_or text.now at 0)
        × (digit ≡ slice_index_or text.now at 0 - 48)) }
{
    let byte = u64::from(text[at]);
    if byte < FIRST_DIGIT || LAST_DIGIT < byte {
        return None;
    }
    Some(byte - FIRST_DIGIT)
}

// Returns where the search for digits from `at` on ends: 19 bytes later, or at the end of the text.
// A number of 19 digits is below 2^64.
#[inline(always)]
fn digits_end(text: &[u8], at: usize) -> usize
    requires { at < length text.now }
    ensures within { result ≤ length text.now }
    ensures few { result ≤ at + 19 }
{
    if text.len() - at > 19 {
        at + 19
    } else {
        text.len()
    }
}

// Returns the number whose digits begin at `at`, given the value `number` of those before `from`. If there are more
// than 19 digits, or no space follows them, `next` is beyond the text.
#[tactic(auto, using(crate::proofs::ShortNumbers::place_more))]
#[inline(never)]
fn digits_before(text: &[u8], at: usize, from: usize, number: u64) -> Short
    requires begun { (at < from) × (from ≤ length text.now) × (from ≤ at + 19) }
    requires digits { AllDigits 10 (take (from - at) (drop at text.now)) }
    requires value { number ≡ digits_value 10 (take (from - at) (drop at text.now)) }
    requires some { slice_index_or text.now at 0 ≢ 48 }
    ensures { result.next ≤ length text.now → number_at (words_of (drop at text.now))
        ≡ Some (result.number, words_of (drop result.next text.now)) }
{
    let mut number = number;
    for place in from..digits_end(text, at) {
        let byte = u64::from(text[place]);
        if byte < FIRST_DIGIT || LAST_DIGIT < byte {
            if byte == SPACE {
                return Short {
                    number,
                    next: place + 1,
                };
            }
            return Short {
                number,
                next: text.len() + 1,
            };
        }
        number = number * 10 + (byte - FIRST_DIGIT);
    }
    Short {
        number,
        next: text.len() + 1,
    }
}

// Returns the number at `at` if it has at least two digits and a space follows it. Otherwise `next` is beyond the
// text.
#[tactic(auto, using(crate::proofs::ShortNumbers::values_up_to_three))]
#[inline(never)]
fn longer_before(text: &[u8], at: usize) -> Short
    requires { at + 2 < length text.now }
    ensures { result.next ≤ length text.now → number_at (words_of (drop at text.now))
        ≡ Some (result.number, words_of (drop result.next text.now)) }
{
    let none = Short {
        number: 0,
        next: text.len() + 1,
    };
    let Some(first) = digit_at(text, at) else {
        return none;
    };
    if first == 0 {
        return none;
    }
    let Some(second) = digit_at(text, at + 1) else {
        return none;
    };
    let two = first * 10 + second;
    if text[at + 2] == b' ' {
        return Short {
            number: two,
            next: at + 3,
        };
    }
    let Some(third) = digit_at(text, at + 2) else {
        return none;
    };
    let three = two * 10 + third;
    if text.len() > at + 3 && text[at + 3] == b' ' {
        return Short {
            number: three,
            next: at + 4,
        };
    }
    digits_before(text, at, at + 3, three)
}

/// Returns the number at `at` if a space follows it. At least `behind` bytes must follow the byte at `at`; then
/// at least `behind - 2` follow the first byte of the next word.
#[inline(always)]
pub fn number_before(text: &[u8], at: usize, behind: usize) -> Option<Short>
    requires room { at + behind < length text.now }
    requires more { 2 ≤ behind }
    ensures reads { IfSome result (λ s. number_at (words_of (drop at text.now))
        ≡ Some (s.number, words_of (drop s.next text.now))) }
    ensures room { IfSome result (λ s. s.next + behind < length text.now + 2) }
{
    // Most numbers have one digit.
    let pair = two_at(text, at);
    if ZERO_AND_SPACE <= pair && pair <= NINE_AND_SPACE {
        return Some(Short {
            number: pair - ZERO_AND_SPACE,
            next: at + 2,
        });
    }
    let short = longer_before(text, at);
    if short.next > text.len() - behind + 1 {
        return None;
    }
    Some(short)
}

// A register in a text, and the index at which the next word begins.
#[derive(Clone, Copy)]
struct ShortRegister {
    register: Register,
    next: usize,
}

// Returns the register at `at` if a space follows its number.
#[tactic(auto, using(crate::proofs::ShortInvocations::register_reads))]
#[inline(always)]
fn register_before(text: &[u8], at: usize, behind: usize) -> Option<ShortRegister>
    requires room { at + behind < length text.now }
    requires more { 2 ≤ behind }
    ensures reads { IfSome result (λ s. register_at (words_of (drop at text.now))
        ≡ Some (s.register, words_of (drop s.next text.now))) }
    ensures room { IfSome result (λ s. s.next + behind < length text.now + 2) }
{
    let short = number_before(text, at, behind)?;
    Some(ShortRegister {
        register: register_of(short.number)?,
        next: short.next,
    })
}

// Returns the number whose digits begin at `at`, if it is the last word and has at most 19 digits. `number` is the
// value of the digits before `from`.
#[tactic(auto, using(crate::proofs::ShortNumbers::place_more, crate::proofs::ShortNumbers::digits_last))]
#[inline(never)]
fn last_digits(text: &[u8], at: usize, from: usize, number: u64) -> Option<u64>
    requires begun { (at < from) × (from ≤ length text.now) }
    requires digits { AllDigits 10 (take (from - at) (drop at text.now)) }
    requires value { number ≡ digits_value 10 (take (from - at) (drop at text.now)) }
    requires some { slice_index_or text.now at 0 ≢ 48 }
    ensures { IfSome result (λ n. number_at (words_of (drop at text.now)) ≡ Some (n, [])) }
{
    if text.len() - at > 19 {
        return None;
    }
    let mut number = number;
    for place in from..text.len() {
        let byte = u64::from(text[place]);
        if byte < FIRST_DIGIT || LAST_DIGIT < byte {
            return None;
        }
        number = number * 10 + (byte - FIRST_DIGIT);
    }
    Some(number)
}

// Returns the number at `at`, if it has two or more digits and is the last word.
#[tactic(auto, using(crate::proofs::ShortNumbers::values_up_to_three))]
#[inline(never)]
fn last_longer(text: &[u8], at: usize) -> Option<u64>
    requires { at + 1 < length text.now }
    ensures { IfSome result (λ n. number_at (words_of (drop at text.now)) ≡ Some (n, [])) }
{
    let first = digit_at(text, at)?;
    let second = digit_at(text, at + 1)?;
    if first == 0 {
        return None;
    }
    let two = first * 10 + second;
    if text.len() == at + 2 {
        return Some(two);
    }
    let number = two * 10 + digit_at(text, at + 2)?;
    if text.len() == at + 3 {
        return Some(number);
    }
    last_digits(text, at, at + 3, number)
}

/// Returns the number at `at`, if it is the last word.
#[tactic(auto, using(crate::proofs::ShortNumbers::last_one_found))]
#[inline(always)]
pub fn last_number(text: &[u8], at: usize) -> Option<u64>
    requires { at < length text.now }
    ensures { IfSome result (λ n. number_at (words_of (drop at text.now)) ≡ Some (n, [])) }
{
    if text.len() != at + 1 {
        return last_longer(text, at);
    }
    digit_at(text, at)
}

// Returns the register at `at`, if it is the last word.
#[inline(always)]
fn last_register(text: &[u8], at: usize) -> Option<Register>
    requires { at < length text.now }
    ensures { IfSome result (λ r. register_at (words_of (drop at text.now)) ≡ Some (r, [])) }
{
    register_of(last_number(text, at)?)
}

/// Returns the four registers at `at` if they are the last words. First it tries `0 0 0 0`, the most
/// frequent.
#[tactic(auto, using(crate::proofs::ShortInvocations::void_read, crate::proofs::ShortInvocations::registers_read))]
#[inline(always)]
pub fn last_registers(text: &[u8], at: usize) -> Option<[Register; 4]>
    requires { at + 6 < length text.now }
    ensures { IfSome result (λ r. registers_at (words_of (drop at text.now)) ≡ Some (r, [])) }
{
    if text.len() == at + 7
        && four_at(text, at) == VOID_BEGIN
        && four_at(text, at + 3) == VOID_END
    {
        let void = register_of(0)?;
        return Some([void, void, void, void]);
    }
    let first = register_before(text, at, 6)?;
    let second = register_before(text, first.next, 4)?;
    let third = register_before(text, second.next, 2)?;
    let fourth = last_register(text, third.next)?;
    Some([first.register, second.register, third.register, fourth])
}

// Four numbers in a text, and the index at which the next word begins.
#[derive(Clone, Copy)]
struct Shorts {
    numbers: [u64; 4],
    next: usize,
}

// Returns the four numbers at `at` if the line is long enough for four more words.
#[tactic(auto, using(crate::proofs::ShortInvocations::numbers_read))]
#[inline(always)]
fn numbers_before(text: &[u8], at: usize) -> Option<Shorts>
    requires { at + 14 < length text.now }
    ensures reads { IfSome result (λ s. numbers_at (words_of (drop at text.now))
        ≡ Some (s.numbers, words_of (drop s.next text.now))) }
    ensures room { IfSome result (λ s. s.next + 6 < length text.now) }
{
    let first = number_before(text, at, 14)?;
    let second = number_before(text, first.next, 12)?;
    let third = number_before(text, second.next, 10)?;
    let fourth = number_before(text, third.next, 8)?;
    Some(Shorts {
        numbers: [first.number, second.number, third.number, fourth.number],
        next: fourth.next,
    })
}

/// An invocation without the registers that it sends, and the index at which these begin.
#[derive(Clone, Copy)]
pub struct Order {
    pub operation: Operation,
    pub process: u64,
    pub register: Register,
    pub words: [u64; 4],
    pub next: usize,
}

/// Returns the first part of an invocation's line. `None` means that the general parser must decide.
#[inline(always)]
pub fn order_in(line: &[u8]) -> Option<Order>
    ensures reads { IfSome result (λ o. (sent : List ℕ)
        → registers_at (words_of (drop o.next line.now)) ≡ Some (sent, [])
        → (Fits (invoked o sent) × (words_of line.now ≡ command_words (invoked o sent)))) }
    ensures room { IfSome result (λ o. o.next + 6 < length line.now) }
{
    let named = operation_in(line)?;
    let process = number_before(line, named.next, 18)?;
    let register = register_before(line, process.next, 16)?;
    let four = numbers_before(line, register.next)?;
    let words = four.numbers;
    Some(Order {
        operation: named.operation,
        process: process.number,
        register: register.register,
        words,
        next: four.next,
    })
}
