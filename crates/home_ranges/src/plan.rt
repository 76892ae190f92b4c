// Where the parts of an image lie.
ghost use Rattle.std.specs.Prelude.{◌≡◌, ◌≤◌, length, map, IsTrue, IfSome, IfNone, ◌↔◌};
ghost use Rattle.std.specs.List.{All};
ghost use Rattle.layout.specs.Superblock.{IsPlan};
ghost use Rattle.layout.specs.Version.{row};
ghost use Rattle.home_ranges.specs.Laid.{MayBeLaid, behind, laid, laid_again, numbers_of, plan_from};

use crate::number_range::NumberRange;
use layout::{
    HomeRange, MAX_LOG, MAX_NODES, MAX_PAGES, MAX_RANGES, Superblock, Version, aligned,
    half_extent, range_extent,
};
use model::Geometry;

// The greatest number of objects that an image may have.
const MAX_OBJECTS: u64 = MAX_NODES + MAX_PAGES;

// A range that is not used.
const UNUSED: HomeRange = HomeRange {
    first: 0,
    count: 0,
    sector: 0,
};

// Lays out ranges one after the other from the version's first sector for homes on. Returns the first sector after the
// last where a range or a half may begin.
#[tactic(auto, using(crate::proofs::Laying::all_laid, crate::proofs::Laying::end_laid))]
fn lay_ranges(
    version: Version,
    geometry: Geometry,
    ranges: &[NumberRange],
    into: &mut [HomeRange],
) -> u64
    requires size { length into.old ≡ length ranges.now }
    requires few { length ranges.now ≤ 8 }
    requires counts { All (λ r. r.count ≤ 8192) ranges.now }
    ensures laid { into.new ≡ laid version geometry (row version).first_home ranges.now }
    ensures end { result ≡ behind version geometry (row version).first_home ranges.now }
    ensures most { result ≤ 600000 }
{
    let mut next = version.row().first_home;
    for (i, range) in ranges.iter().enumerate() {
        let home = HomeRange {
            first: range.first,
            count: range.count,
            sector: next,
        };
        let extent = range_extent(version, geometry, home);
        into[i] = home;
        next = aligned(version, next + extent.length);
    }
    next
}

// Whether each range has at most `MAX_OBJECTS` numbers.
fn are_few(ranges: &[NumberRange]) -> bool
    ensures { IsTrue result ↔ All (λ r. r.count ≤ 8192) ranges.now }
{
    ranges.iter().all(|range| range.count <= MAX_OBJECTS)
}

/// Lays out an image of this version and geometry. After the superblock and the headers come the home ranges in
/// their order, then the two halves of the log. Each begins at the first multiple of the version's alignment. The total
/// is the sector after the second half.
///
/// Returns `None` exactly if one of these doesn't hold:
///
/// - There are 16 to 4096 nodes, 1 to 4096 pages, and 16 to 4096 slots in a half of the log.
/// - There are 1 to 8 ranges, which together have each number once, in rising order.
/// - Each range has a number, and has nodes only or pages only.
///
/// No such image takes more sectors than a device may have, in any version.
pub fn lay_out(version: Version, geometry: Geometry, ranges: &[NumberRange]) -> Option<Superblock>
    ensures laid { IfSome result (λ s. s ≡ plan_from version geometry ranges.now) }
    ensures fits { IfSome result (λ s. IsPlan s) }
    ensures allowed { IfSome result (λ _. MayBeLaid geometry ranges.now) }
    ensures refused { IfNone result (MayBeLaid geometry ranges.now → ⊥) }
{
    if geometry.log > MAX_LOG as u64 || ranges.len() > MAX_RANGES || !are_few(ranges) {
        return None;
    }
    let mut homes = [UNUSED; MAX_RANGES];
    let used = &mut homes[..ranges.len()];
    let first = lay_ranges(version, geometry, ranges, used);
    let half = half_extent(version, geometry, first);
    let second = first + half.length;
    let total = second + half.length;
    Superblock::new(version, geometry, used, first, second, total)
}

// Fills `into` with the numbers of home ranges.
#[tactic(auto, using(crate::proofs::LaidAgain::numbers_more, crate::proofs::LaidAgain::all_numbers))]
fn put_numbers(ranges: &[HomeRange], into: &mut [NumberRange])
    requires size { length into.old ≡ length ranges.now }
    ensures { into.new ≡ map numbers_of ranges.now }
{
    for (i, range) in ranges.iter().enumerate() {
        into[i] = NumberRange {
            first: range.first,
            count: range.count,
        };
    }
}

/// Lays out an image of this version, with the objects and the home ranges of another image, as `lay_out` does.
pub fn lay_out_again(version: Version, superblock: &Superblock) -> Superblock
    ensures laid { result ≡ laid_again version superblock.now }
    ensures fits { IsPlan result }
{
    let mut numbers = [NumberRange { first: 0, count: 0 }; MAX_RANGES];
    let ranges = superblock.ranges();
    let used = &mut numbers[..ranges.len()];
    put_numbers(ranges, used);
    match lay_out(version, superblock.geometry(), used) {
        Some(laid) => laid,
        None => unreachable!(),
    }
}
