// Where the parts of the images of descriptions lie.
ghost use Rattle.std.specs.Prelude.{◌≡◌, IfOk, IfErr};
ghost use Rattle.description.specs.Rules.{IsWithinLimits, plan_for};

use description::{BuildFault, Description, beyond_limits};
use home_ranges::lay_out;
use layout::{Superblock, Version};

// Returns the layout of a description's image. The description must be within the limits.
fn lay_within(description: &Description) -> Superblock
    requires { IsWithinLimits description.now }
    ensures { result ≡ plan_for description.now }
{
    match Version::with_number(description.layout) {
        Some(version) => match lay_out(version, description.geometry, &description.ranges) {
            Some(superblock) => superblock,
            None => unreachable!(),
        },
        None => unreachable!(),
    }
}

/// Returns the layout of a description's image, or `Limits`.
pub(crate) fn plan(description: &Description) -> Result<Superblock, BuildFault>
    ensures plan { IfOk result (λ superblock. superblock ≡ plan_for description.now) }
    ensures allowed { IfOk result (λ _. IsWithinLimits description.now) }
    ensures refused { IfErr result (λ fault.
        (fault ≡ BuildFault.Limits) × (IsWithinLimits description.now → ⊥)) }
{
    match beyond_limits(description) {
        Some(_) => Err(BuildFault::Limits),
        None => Ok(lay_within(description)),
    }
}
