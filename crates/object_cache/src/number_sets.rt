// Adding a list of numbers to a set, and how many of them it lacks.
ghost use Rattle.std.specs.Prelude.{◌≡◌, ◌↔◌, ◌+◌, ◌<◌, ◌≤◌, IsTrue, length, not, slice_index_or, slice_set, true};
ghost use Rattle.std.specs.Prelude.{false};
ghost use Rattle.std.specs.List.{All};
ghost use Rattle.model.specs.Machine.{touching, touched_count};

use collections::NumberSet;

/// Whether the set has all numbers of a list.
pub(crate) fn contains_all(marks: &NumberSet, numbers: &[u64]) -> bool
    requires { All (λ n. n < length marks.now) numbers.now }
    ensures { IsTrue result → touching marks.now numbers.now ≡ marks.now }
{
    for number in numbers {
        if !marks.contains(*number as usize) {
            return false;
        }
    }
    true
}

// Returns how many numbers of a list the set lacks; a number that is listed twice counts once. Compares each
// pair of the list. Doesn't allocate.
fn count_missing(marks: &NumberSet, numbers: &[u64]) -> u64
    requires { All (λ n. n < length marks.now) numbers.now }
    ensures counted { touched_count marks.now + result ≡ touched_count (touching marks.now numbers.now) }
    ensures few { result ≤ length numbers.now }
{
    let mut missing = 0;
    for (i, number) in numbers.iter().enumerate() {
        if !marks.contains(*number as usize) && !numbers[..i].contains(number) {
            missing += 1;
        }
    }
    missing
}

/// Whether the set lacks more than `room` numbers of a list; a number that is listed twice counts once. Compares the
/// numbers with one another only if the list is longer than `room`.
pub(crate) fn lacks_more(marks: &NumberSet, numbers: &[u64], room: u64) -> bool
    requires { All (λ n. n < length marks.now) numbers.now }
    ensures { IsTrue result ↔ (touched_count marks.now + room < touched_count (touching marks.now numbers.now)) }
{
    numbers.len() as u64 > room && count_missing(marks, numbers) > room
}

/// Adds the numbers of a list to the set, and returns how many it lacked.
pub(crate) fn add_all(marks: &mut NumberSet, numbers: &[u64]) -> u64
    requires { All (λ n. n < length marks.old) numbers.now }
    ensures marked { marks.new ≡ touching marks.old numbers.now }
    ensures counted { touched_count marks.old + result ≡ touched_count marks.new }
    ensures each { length marks.new ≡ length marks.old }
{
    let mut fresh = 0;
    for number in numbers {
        if add(marks, *number) {
            fresh += 1;
        }
    }
    fresh
}

// Adds a number to the set, and returns whether the set lacked it.
fn add(marks: &mut NumberSet, number: u64) -> bool
    requires { number < length marks.old }
    ensures marked { marks.new ≡ slice_set marks.old number true }
    ensures fresh { result ≡ not (slice_index_or marks.old number false) }
{
    let is_fresh = !marks.contains(number as usize);
    if is_fresh {
        marks.set(number as usize, true);
    }
    is_fresh
}
