// Writing the images of descriptions.
ghost use Rattle.std.specs.Prelude.{◌≡◌, ◌≢◌, ◌<◌, ◌≤◌, ◌↔◌, IfErr, IsErrOf, OnOk};
ghost use Rattle.device.specs.Moments.{LeavesOnly};
ghost use Rattle.image_builder.specs.Built.{Builds};
ghost use Rattle.description.specs.Rules.{IsRefused, IsWithinLimits, plan_for};
ghost use Rattle.image_builder.specs.Checked.{IsLeftBuilding, IsSoundDescription};
ghost use Rattle.description.specs.Laid.{AreLaid};

use crate::worlds::lay_sound;
use description::{BuildFault, Description, World};
use device::Device;
use image_writer::write_image;
use layout::Superblock;
use std::alloc::Global;

// Writes the frames of a description as a new image.
fn write<D: Device>(
    device: &mut D,
    superblock: &Superblock,
    description: &Description,
    world: &World,
) -> Result<(), BuildFault>
    requires limits { IsWithinLimits description.now }
    requires plan { superblock.now ≡ plan_for description.now }
    requires inside { superblock.now.total ≤ (D.disk device.old).sectors }
    requires laid { AreLaid description.now world.now.headers.items world.now.contents.items }
    requires sound { IsSoundDescription description.now }
    ensures built { OnOk result (Builds description.now (D.disk device.old) (D.disk device.new)) }
    ensures refused { IfErr result (λ fault. fault ≡ BuildFault.Failed) }
    ensures any_moment { LeavesOnly (D.disk device.old) (D.disk device.new)
        (λ c. IsLeftBuilding description.now (D.disk device.old) c) }
    ensures size { (D.disk device.new).sectors ≡ (D.disk device.old).sectors }
    ensures later { (D.disk device.old).failures ≤ (D.disk device.new).failures }
    ensures cause { IsErrOf result BuildFault.Failed
        ↔ ((D.disk device.old).failures < (D.disk device.new).failures) }
{
    write_image(
        device,
        superblock,
        description.age,
        &world.headers,
        &world.contents,
    )?;
    Ok(())
}

/// Builds the image of a description at the places that this superblock gives.
pub(crate) fn build_described<D: Device>(
    alloc: Global,
    description: &Description,
    superblock: &Superblock,
    device: &mut D,
) -> Result<(), BuildFault>
    requires limits { IsWithinLimits description.now }
    requires plan { superblock.now ≡ plan_for description.now }
    ensures built { OnOk result (Builds description.now (D.disk device.old) (D.disk device.new)) }
    ensures refused { IfErr result (λ fault.
        IsRefused description.now (D.disk device.old).sectors fault) }
    ensures untouched { IfErr result (λ fault.
        fault ≢ BuildFault.Failed → device.new ≡ device.old) }
    ensures any_moment { LeavesOnly (D.disk device.old) (D.disk device.new)
        (λ c. IsLeftBuilding description.now (D.disk device.old) c) }
    ensures size { (D.disk device.new).sectors ≡ (D.disk device.old).sectors }
    ensures later { (D.disk device.old).failures ≤ (D.disk device.new).failures }
    ensures cause { IsErrOf result BuildFault.Failed
        ↔ ((D.disk device.old).failures < (D.disk device.new).failures) }
{
    let world = lay_sound(alloc, description)?;
    let sectors = device.sectors();
    if sectors < superblock.total() {
        return Err(BuildFault::Small);
    }
    write(device, superblock, description, &world)
}
