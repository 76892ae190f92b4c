// Finding the first number of an object that is out of range or occurs twice.
ghost use Rattle.std.specs.Prelude.{◌≡◌, ◌++◌, ◌<◌, ◌≤◌, ℕ, length, slice_get, slice_index, take, true, IfOk, IsTrue};
ghost use Rattle.std.specs.Prelude.{MatchOption};
ghost use Rattle.std.specs.List.{All, Contains};
ghost use Rattle.collections.specs.Marks.{is_marked};
ghost use Rattle.layout.specs.Superblock.{IsGeometry};
ghost use Rattle.model.specs.Sound.{object_count};
ghost use Rattle.description.specs.Described.{AreDistinct, HasNumbers, node_numbers, page_numbers};
ghost use Rattle.description.specs.FieldFlaws.{IsFirstTwice, IsOutside};
ghost use Rattle.description.specs.Broken.{BreaksNumber, is_node, number_at, place_of};

use crate::indexed::{find_before, find_outside};
use crate::{Description, Misnumbered, Named};
use collections::NumberSet;
use std::alloc::{AllocError, Global};

// Returns the numbers of banks, roots, annexes and nodes, in this order. Fails only if memory runs out.
fn node_numbers(alloc: Global, description: &Description) -> Result<Vec<u64>, AllocError>
    ensures { IfOk result (λ numbers. numbers.items ≡ node_numbers description.now) }
{
    let banks = description.banks.iter().map(|bank| bank.number);
    let roots = description.processes.iter().map(|process| process.root);
    let annexes = description.processes.iter().map(|process| process.annex);
    let nodes = description.nodes.iter().map(|node| node.number);
    banks
        .chain(roots)
        .chain(annexes)
        .chain(nodes)
        .collect(alloc)
}

// Returns the numbers of pages. Fails only if memory runs out.
fn page_numbers(alloc: Global, description: &Description) -> Result<Vec<u64>, AllocError>
    ensures { IfOk result (λ numbers. numbers.items ≡ page_numbers description.now) }
{
    let pages = description.pages.iter();
    pages.map(|page| page.number).collect(alloc)
}

// Returns the bank, process or node whose number is at a place in the list that `node_numbers` returns.
#[tactic(auto, using(crate::proofs::NumberPlaces::annex_number))]
fn node_named_at(description: &Description, place: usize) -> Named
    ensures number { number_at description.now result ≡ slice_get (node_numbers description.now) place }
    ensures place { place_of description.now result ≡ place }
    ensures kind { IsTrue (is_node result) }
{
    let banks = description.banks.len();
    let processes = description.processes.len();
    if place < banks {
        return Named::Bank(place);
    }
    let root = place - banks;
    if root < processes {
        return Named::Root(root);
    }
    let annex = root - processes;
    if annex < processes {
        return Named::Annex(annex);
    }
    Named::Node(annex - processes)
}

// Returns the object whose number is at a place in the list of all numbers: the `nodes` of `node_numbers`, then those
// of pages.
fn named_at(description: &Description, nodes: usize, place: usize) -> Named
    requires { nodes ≡ length (node_numbers description.now) }
    ensures number { number_at description.now result
        ≡ slice_get (node_numbers description.now ++ page_numbers description.now) place }
    ensures place { place_of description.now result ≡ place }
{
    if place < nodes {
        node_named_at(description, place)
    } else {
        Named::Page(place - nodes)
    }
}

// Returns the first bank, root, annex or node whose number is outside the range of nodes, or
// `None`.
fn node_out_of_range(description: &Description, numbers: &[u64]) -> Option<Misnumbered>
    requires { numbers.now ≡ node_numbers description.now }
    ensures { MatchOption result
        (All (λ n. (0 ≤ n) × (n < description.now.geometry.nodes)) numbers.now)
        (BreaksNumber description.now) }
{
    match find_outside(0, description.geometry.nodes, numbers) {
        Some(i) => Some(Misnumbered::OutOfRange(node_named_at(description, i))),
        None => None,
    }
}

// Returns the first page whose number is outside the range of pages, or `None`.
fn page_out_of_range(description: &Description, numbers: &[u64]) -> Option<Misnumbered>
    requires geometry { IsGeometry description.now.geometry }
    requires nodes { All (λ n. (0 ≤ n) × (n < description.now.geometry.nodes)) (node_numbers description.now) }
    requires numbers { numbers.now ≡ page_numbers description.now }
    ensures { MatchOption result
        (All (λ n. (description.now.geometry.nodes ≤ n) × (n < object_count description.now.geometry)) numbers.now)
        (BreaksNumber description.now) }
{
    let end = description.geometry.nodes + description.geometry.pages;
    match find_outside(description.geometry.nodes, end, numbers) {
        Some(i) => Some(Misnumbered::OutOfRange(Named::Page(i))),
        None => None,
    }
}

// Returns the first place before `place` with the same number, or `None`. `seen` has the numbers at all places
// before `place`.
fn find_seen(numbers: &[u64], seen: &NumberSet, place: usize) -> Option<usize>
    requires place { place < length numbers.now }
    requires seen { (n : ℕ) → Contains (take place numbers.now) n → is_marked seen.now n ≡ true }
    requires within { slice_index numbers.now place < length seen.now }
    ensures { MatchOption result
        (Contains (take place numbers.now) (slice_index numbers.now place) → ⊥)
        (λ i. (i < place) × (slice_index numbers.now i ≡ slice_index numbers.now place)) }
{
    let number = numbers[place];
    if seen.contains(number as usize) {
        find_before(numbers, place, number)
    } else {
        None
    }
}

// Returns the first two places with the same number, or `None`. All numbers are below `count`.
fn first_twice(
    alloc: Global,
    numbers: &[u64],
    count: usize,
) -> Result<Option<(usize, usize)>, AllocError>
    requires { All (λ n. n < count) numbers.now }
    ensures { IfOk result (λ found. MatchOption found (AreDistinct numbers.now)
        (λ p. IsFirstTwice numbers.now p.0 p.1)) }
{
    let mut seen = NumberSet::new(alloc, count)?;
    for place in 0..numbers.len() {
        if let Some(i) = find_seen(numbers, &seen, place) {
            return Ok(Some((i, place)));
        }
        seen.set(numbers[place] as usize, true);
    }
    Ok(None)
}

// Returns the two objects whose numbers are at these places, or `None` if `found` is.
fn named_twice(
    description: &Description,
    nodes: usize,
    numbers: &[u64],
    found: Option<(usize, usize)>,
) -> Option<Misnumbered>
    requires nodes { nodes ≡ length (node_numbers description.now) }
    requires node_kinds { All (λ n. (0 ≤ n) × (n < description.now.geometry.nodes)) (node_numbers description.now) }
    requires page_kinds { All (λ n. (description.now.geometry.nodes ≤ n)
        × (n < object_count description.now.geometry)) (page_numbers description.now) }
    requires numbers { numbers.now ≡ node_numbers description.now ++ page_numbers description.now }
    requires found { MatchOption found (AreDistinct numbers.now) (λ p. IsFirstTwice numbers.now p.0 p.1) }
    ensures { MatchOption result (AreDistinct numbers.now) (BreaksNumber description.now) }
{
    match found {
        Some(places) => Some(Misnumbered::Twice(
            named_at(description, nodes, places.0),
            named_at(description, nodes, places.1),
        )),
        None => None,
    }
}

/// Returns the first number that is out of range for its kind, or `None`. If there is none, returns the first
/// that occurs twice. The order is banks, roots, annexes, nodes, pages. Fails only if memory runs out.
pub(crate) fn misnumbered(
    alloc: Global,
    description: &Description,
) -> Result<Option<Misnumbered>, AllocError>
    requires { IsGeometry description.now.geometry }
    ensures { IfOk result (λ found. MatchOption found (HasNumbers description.now)
        (BreaksNumber description.now)) }
{
    let nodes = node_numbers(alloc, description)?;
    let pages = page_numbers(alloc, description)?;
    if let Some(place) = node_out_of_range(description, &nodes) {
        return Ok(Some(place));
    }
    if let Some(place) = page_out_of_range(description, &pages) {
        return Ok(Some(place));
    }
    let count = nodes.len();
    let mut numbers = nodes;
    numbers.extend_from_slice(&pages)?;
    let end = description.geometry.nodes + description.geometry.pages;
    let found = first_twice(alloc, &numbers, end as usize)?;
    Ok(named_twice(description, count, &numbers, found))
}
