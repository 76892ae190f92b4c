// The worlds of descriptions.
ghost use Rattle.std.specs.Prelude.{◌≡◌, ◌≢◌, IfOk, IfErr, OnOk};
ghost use Rattle.description.specs.Rules.{IsWithinLimits};
ghost use Rattle.image_builder.specs.Checked.{IsRefusedEarly, IsSoundDescription};
ghost use Rattle.description.specs.Laid.{AreLaid};

use capability::Plain;
use checkpoint::OpenFault;
use description::{BuildFault, Description, World, described_is_whole, lay_world};
use layout::BadImage;
use recovery::check;
use std::alloc::Global;

// Returns the fault for the reason why described frames are inconsistent. The reason is 8 or 10: described processes
// are always consistent.
fn fault_for(why: BadImage) -> BuildFault
    ensures target { why ≡ BadImage.BadCapability → result ≡ BuildFault.Target }
    ensures owner { why ≡ BadImage.BadBank → result ≡ BuildFault.Owner }
{
    match why {
        BadImage::BadBank => BuildFault::Owner,
        _ => BuildFault::Target,
    }
}

// Checks that described frames stand for a sound world.
fn check_frames(
    alloc: Global,
    description: &Description,
    frames: &mut Plain,
) -> Result<(), BuildFault>
    requires limits { IsWithinLimits description.now }
    requires geometry { frames.old.geometry ≡ description.now.geometry }
    requires laid { AreLaid description.now frames.old.headers frames.old.contents }
    ensures sound { OnOk result (IsSoundDescription description.now) }
    ensures refused { IfErr result (λ fault. IsRefusedEarly description.now fault) }
    ensures headers { frames.new.headers ≡ frames.old.headers }
    ensures contents { frames.new.contents ≡ frames.old.contents }
{
    described_is_whole();
    match check(alloc, frames, description.age) {
        Ok(()) => Ok(()),
        Err(OpenFault::Bad(why)) => Err(fault_for(why)),
        Err(OpenFault::NoMemory) => Err(BuildFault::NoMemory),
        Err(OpenFault::Failed) => unreachable!(),
    }
}

/// Returns the world of a description, if its frames stand for a sound world.
pub(crate) fn lay_sound(alloc: Global, description: &Description) -> Result<World, BuildFault>
    requires { IsWithinLimits description.now }
    ensures laid { IfOk result (λ w. AreLaid description.now w.headers.items w.contents.items) }
    ensures sound { OnOk result (IsSoundDescription description.now) }
    ensures refused { IfErr result (λ fault. IsRefusedEarly description.now fault) }
{
    let World { headers, contents } = lay_world(alloc, description)?;
    let mut frames = Plain::new(description.geometry, headers, contents);
    check_frames(alloc, description, &mut frames)?;
    let (headers, contents) = frames.into_parts();
    Ok(World { headers, contents })
}
