// Finding a number, or an entry's index, that is out of range or occurs twice.
ghost use Rattle.std.specs.Prelude.{◌≡◌, ◌↔◌, ℕ, ◌<◌, ◌≤◌, List, length, map, slice_index, take, IsTrue};
ghost use Rattle.std.specs.Prelude.{MatchOption};
ghost use Rattle.std.specs.List.{All, Contains};
ghost use Rattle.description.specs.Described.{AreDistinct};
ghost use Rattle.description.specs.FieldFlaws.{BreaksIndexed, IsFirstTwice, IsOutside};

use crate::flaw::Indexed;
use crate::{SlotEntry, WordEntry};

/// A list of numbers.
pub trait Numbers: Copy {
    /// The numbers, in order.
    ghost numbers: { Self → List ℕ };

    /// Returns how many numbers there are.
    fn count(self) -> usize
        ensures { result ≡ length (numbers self) };

    /// Returns the number at a place.
    fn at(self, place: usize) -> u64
        requires { place < length (numbers self) }
        ensures { result ≡ slice_index (numbers self) place };
}

impl Numbers for &[u64] {
    ghost numbers = { λ ns. ns.now };

    fn count(self) -> usize {
        self.len()
    }

    fn at(self, place: usize) -> u64 {
        self[place]
    }
}

/// The indexes of the entries.
impl Numbers for &[SlotEntry] {
    ghost numbers = { λ slots. map (λ s. s.index) slots.now };

    fn count(self) -> usize {
        self.len()
    }

    fn at(self, place: usize) -> u64 {
        self[place].index
    }
}

/// The indexes of the entries.
impl Numbers for &[WordEntry] {
    ghost numbers = { λ words. map (λ w. w.index) words.now };

    fn count(self) -> usize {
        self.len()
    }

    fn at(self, place: usize) -> u64 {
        self[place].index
    }
}

// Whether a number is within a range.
fn is_within(first: u64, end: u64, number: u64) -> bool
    ensures { IsTrue result ↔ ((first ≤ number) × (number < end)) }
{
    first <= number && number < end
}

/// Returns the index of the first number outside `first..end`, or `None`.
pub(crate) fn find_outside<N: Numbers>(first: u64, end: u64, numbers: N) -> Option<usize>
    ensures { MatchOption result
        (All (λ n. (first ≤ n) × (n < end)) (N.numbers numbers))
        (λ i. IsOutside first end (N.numbers numbers) i) }
{
    for i in 0..numbers.count() {
        if !is_within(first, end, numbers.at(i)) {
            return Some(i);
        }
    }
    None
}

/// Returns the first place before `end` that has this number, or `None`.
pub(crate) fn find_before<N: Numbers>(numbers: N, end: usize, number: u64) -> Option<usize>
    requires { end ≤ length (N.numbers numbers) }
    ensures { MatchOption result
        (Contains (take end (N.numbers numbers)) number → ⊥)
        (λ i. (i < end) × (slice_index (N.numbers numbers) i ≡ number)) }
{
    for i in 0..end {
        if numbers.at(i) == number {
            return Some(i);
        }
    }
    None
}

// Returns the first place before `end` that has this number, or `None`; no number before `end` is
// above `most`.
#[tactic(auto, using(crate::proofs::FieldFlaws::none_above))]
fn find_low<N: Numbers>(numbers: N, end: usize, number: u64, most: u64) -> Option<usize>
    requires within { end ≤ length (N.numbers numbers) }
    requires low { All (λ n. n ≤ most) (take end (N.numbers numbers)) }
    ensures { MatchOption result
        (Contains (take end (N.numbers numbers)) number → ⊥)
        (λ i. (i < end) × (slice_index (N.numbers numbers) i ≡ number)) }
{
    if number > most {
        None
    } else {
        find_before(numbers, end, number)
    }
}

// Returns the greater of two numbers.
fn greater(one: u64, other: u64) -> u64
    ensures one { one ≤ result }
    ensures other { other ≤ result }
{
    if one < other { other } else { one }
}

/// Returns two places with the same number, or `None` if all numbers differ. The second place is the first
/// whose number occurred before; the first place is where it occurred. A list that rises, as most do, is read
/// only once.
pub(crate) fn find_twice<N: Numbers>(numbers: N) -> Option<(usize, usize)>
    ensures { MatchOption result (AreDistinct (N.numbers numbers))
        (λ p. IsFirstTwice (N.numbers numbers) p.0 p.1) }
{
    let mut most = 0;
    for j in 0..numbers.count() {
        let number = numbers.at(j);
        if let Some(i) = find_low(numbers, j, number, most) {
            return Some((i, j));
        }
        most = greater(most, number);
    }
    None
}

// Returns the first flaw in the indexes of these entries, or `None`: an index outside `first..end` comes first, then
// one that occurs twice.
#[tactic(auto, unfolding(crate::specs::FieldFlaws::BreaksIndexed))]
pub(crate) fn find_indexed<N: Numbers>(first: u64, end: u64, entries: N) -> Option<Indexed>
    ensures { MatchOption result
        (All (λ n. (first ≤ n) × (n < end)) (N.numbers entries) × AreDistinct (N.numbers entries))
        (λ x. BreaksIndexed first end (N.numbers entries) x) }
{
    if let Some(i) = find_outside(first, end, entries) {
        return Some(Indexed::OutOfRange(i));
    }
    match find_twice(entries) {
        Some((i, j)) => Some(Indexed::Twice(i, j)),
        None => None,
    }
}
