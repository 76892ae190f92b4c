// Finding the first limit of images that a description breaks.
ghost use Rattle.std.specs.Prelude.{◌≡◌, ◌+◌, ◌<◌, ◌≤◌, ◌↔◌, ◌^◌, length, map, IsTrue, MatchOption};
ghost use Rattle.layout.specs.Superblock.{Cover, IsGeometry, IsNext};
ghost use Rattle.home_ranges.specs.Laid.{MayBeLaid, placed};
ghost use Rattle.model.specs.Sound.{object_count};
ghost use Rattle.description.specs.Broken.{BreaksGeometry, BreaksLimit, BreaksRanges, GoesOn, HasRanges};
ghost use Rattle.description.specs.Rules.{IsWithinLimits};

use crate::{Description, Limit};
use home_ranges::NumberRange;
use layout::{MAX_LOG, MAX_NODES, MAX_PAGES, MAX_RANGES, MIN_LOG, MIN_NODES, Version};
use model::{Geometry, MAX_AGE};

// Returns the first of the counts of nodes, pages and log slots that is outside its limits, or `None`.
fn bad_count(geometry: Geometry) -> Option<Limit>
    ensures { MatchOption result (IsGeometry geometry) (λ limit. BreaksGeometry geometry limit) }
{
    if geometry.nodes < MIN_NODES || geometry.nodes > MAX_NODES {
        return Some(Limit::Nodes);
    }
    if geometry.pages < 1 || geometry.pages > MAX_PAGES {
        return Some(Limit::Pages);
    }
    if geometry.log < MIN_LOG || geometry.log > MAX_LOG as u64 {
        return Some(Limit::Log);
    }
    None
}

// Whether a range begins at `next`, isn't empty, has only nodes or only pages, and ends within the numbers of
// objects.
fn goes_on(geometry: Geometry, range: NumberRange, next: u64) -> bool
    requires geometry { IsGeometry geometry }
    requires within { next ≤ object_count geometry }
    ensures { IsTrue result ↔ GoesOn geometry range next }
{
    let is_of_one_kind = range.first >= geometry.nodes
        || range.count <= geometry.nodes - range.first;
    let is_within = range.count <= geometry.nodes + geometry.pages - next;
    range.first == next && range.count > 0 && is_of_one_kind && is_within
}

// Returns the first range that doesn't begin where the one before it ends. If there is none, returns where the
// ranges end, if that is too early.
fn bad_range(geometry: Geometry, ranges: &[NumberRange]) -> Option<Limit>
    requires geometry { IsGeometry geometry }
    requires count { HasRanges ranges.now }
    ensures { MatchOption result (Cover geometry 0 (map (placed 0) ranges.now))
        (λ limit. BreaksRanges geometry ranges.now limit) }
{
    let mut next = 0;
    for (index, range) in ranges.iter().enumerate() {
        if !goes_on(geometry, *range, next) {
            return Some(Limit::Range { index, next });
        }
        next += range.count;
    }
    if next < geometry.nodes + geometry.pages {
        return Some(Limit::RangesEnd { next });
    }
    None
}

// Returns the first flaw of the ranges, or `None`: their count, then a range that doesn't follow the one before
// it, then an end that is too early.
fn bad_ranges(geometry: Geometry, ranges: &[NumberRange]) -> Option<Limit>
    requires { IsGeometry geometry }
    ensures { MatchOption result (MayBeLaid geometry ranges.now)
        (λ limit. BreaksRanges geometry ranges.now limit) }
{
    if ranges.is_empty() || ranges.len() > MAX_RANGES {
        return Some(Limit::RangeCount);
    }
    bad_range(geometry, ranges)
}

// Returns the first flaw of the layout version or the ranges, or `None`.
fn bad_layout(description: &Description) -> Option<Limit>
    requires geometry { IsGeometry description.now.geometry }
    requires age { description.now.age ≤ 2 ^ 62 }
    ensures { MatchOption result (IsWithinLimits description.now)
        (λ limit. BreaksLimit description.now limit) }
{
    match Version::with_number(description.layout) {
        Some(_) => bad_ranges(description.geometry, &description.ranges),
        None => Some(Limit::Layout),
    }
}

/// Returns the first limit that the description breaks, or `None`. The order is nodes, pages, log, age, layout,
/// ranges.
#[tactic(auto, using(crate::proofs::BrokenLimits::count_broken))]
pub fn beyond_limits(description: &Description) -> Option<Limit>
    ensures { MatchOption result (IsWithinLimits description.now)
        (λ limit. BreaksLimit description.now limit) }
{
    match bad_count(description.geometry) {
        Some(limit) => Some(limit),
        None => {
            if description.age > MAX_AGE {
                return Some(Limit::Age);
            }
            bad_layout(description)
        }
    }
}
