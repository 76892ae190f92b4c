// Sets of free numbers. Nodes have the lower numbers, pages the numbers after them.
ghost use Rattle.std.specs.Prelude.{◌≡◌, ℕ, List, ◌+◌, ◌<◌, ◌^◌, ◌++◌, None, IfSome, true, false, if◌then◌else◌};
ghost use Rattle.std.specs.Prelude.{length, slice_index_or, slice_set};
ghost use Rattle.std.specs.List.{All};
ghost use Rattle.model.specs.declared.object.Object.{Object};
ghost use Rattle.model.specs.Revoke.{is_member};
ghost use Rattle.space_bank.specs.Planning.{AreFree, HasNoneUsed, IsNextUsed};

use collections::NumberSet;

/// Marks a number as free or as taken. `first_page` is the least number of a page.
pub(crate) fn mark(
    nodes: &mut NumberSet,
    pages: &mut NumberSet,
    first_page: usize,
    number: u64,
    free: bool,
)
    requires first { first_page ≡ length nodes.old }
    requires known { number < length nodes.old + length pages.old }
    ensures nodes { length nodes.new ≡ length nodes.old }
    ensures pages { length pages.new ≡ length pages.old }
    ensures marks { nodes.new ++ pages.new ≡ slice_set (nodes.old ++ pages.old) number free }
{
    let number = number as usize;
    if number < first_page {
        nodes.set(number, free);
    } else {
        pages.set(number - first_page, free);
    }
}

/// Marks numbers as free.
#[tactic(auto, using(crate::proofs::Tallies::marked_more))]
pub(crate) fn mark_free(
    nodes: &mut NumberSet,
    pages: &mut NumberSet,
    first_page: usize,
    numbers: &[u64],
)
    requires first { first_page ≡ length nodes.old }
    requires known { All (λ n. n < length nodes.old + length pages.old) numbers.now }
    ensures nodes { length nodes.new ≡ length nodes.old }
    ensures pages { length pages.new ≡ length pages.old }
    ensures marks { (n : ℕ) → slice_index_or (nodes.new ++ pages.new) n false
        ≡ (if is_member numbers.now n then true else slice_index_or (nodes.old ++ pages.old) n false) }
{
    for number in numbers {
        mark(nodes, pages, first_page, *number, true);
    }
}

/// Returns the least number that isn't below `from` and isn't free, or `None`.
pub(crate) fn next_used(
    nodes: &NumberSet,
    pages: &NumberSet,
    first_page: u64,
    from: u64,
) -> Option<u64>
    requires first { first_page ≡ length nodes.now }
    requires few { length nodes.now + length pages.now < 2 ^ 64 }
    ensures some { (os : List Object) → AreFree os nodes.now pages.now
        → IfSome result (λ n. IsNextUsed os from n) }
    ensures none { (os : List Object) → AreFree os nodes.now pages.now
        → result ≡ None → HasNoneUsed os from }
{
    if let Some(node) = nodes.next_missing(from as usize) {
        return Some(node as u64);
    }
    let page = pages.next_missing(from.saturating_sub(first_page) as usize)?;
    Some(first_page + page as u64)
}
