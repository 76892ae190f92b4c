// Finding the range of a number.
ghost use Rattle.std.specs.Prelude.{◌≡◌, ◌+◌, ◌<◌, ◌≤◌, IfSome};
ghost use Rattle.layout.specs.Homes.{range_with};

use crate::extent::HomeRange;

/// Returns the range that has a number, or `None` if none has it.
pub(crate) fn range_with(ranges: &[HomeRange], number: u64) -> Option<HomeRange>
    ensures value { result ≡ range_with ranges.now number }
    ensures has { IfSome result (λ r. (r.first ≤ number) × (number < r.first + r.count)) }
{
    for range in ranges {
        if range.first <= number && number - range.first < range.count {
            return Some(*range);
        }
    }
    None
}
