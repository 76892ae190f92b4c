// The home ranges of an image, as a description lists them.
ghost use Rattle.std.specs.Prelude.{◌≡◌, map, IfOk};
ghost use Rattle.home_ranges.specs.Laid.{MayBeLaid, numbers_of};

use home_ranges::NumberRange;
use layout::{HomeRange, Superblock};
use std::alloc::{AllocError, Global};

// Returns the numbers in these ranges, without their sectors.
fn collected(alloc: Global, homes: &[HomeRange]) -> Result<Vec<NumberRange>, AllocError>
    ensures { IfOk result (λ ranges. ranges.items ≡ map numbers_of homes.now) }
{
    homes
        .iter()
        .map(|home| NumberRange {
            first: home.first,
            count: home.count,
        })
        .collect(alloc)
}

/// Returns the home ranges of an image as a description lists them, so that another image can have the same. Fails
/// only if memory runs out.
pub fn ranges_of(alloc: Global, superblock: &Superblock) -> Result<Vec<NumberRange>, AllocError>
    ensures ranges { IfOk result (λ ranges.
        ranges.items ≡ map numbers_of superblock.now.ranges) }
    ensures laid { IfOk result (λ ranges. MayBeLaid superblock.now.geometry ranges.items) }
{
    let ranges = collected(alloc, superblock.ranges())?;
    Ok(ranges)
}
