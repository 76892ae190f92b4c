// Building images.
ghost use Rattle.std.specs.Prelude.{◌≡◌, ◌≢◌, ◌<◌, ◌≤◌, ◌↔◌, IfOk, IfErr, IsErrOf, OnOk};
ghost use Rattle.toml.specs.View.{table_view};
ghost use Rattle.device.specs.Moments.{LeavesOnly};
ghost use Rattle.description.specs.declared.entry.Description.{Description};
ghost use Rattle.description.specs.Reading.{IsDescription};
ghost use Rattle.image_builder.specs.Built.{BuildsFrom, IsLeftOf};
ghost use Rattle.description.specs.Rules.{IsWithinLimits, Refuses, TellsNoSize, plan_for};

use crate::blueprint::Blueprint;
use description::BuildFault;
use device::Device;
use std::alloc::Global;
use toml::Table;

/// Returns how many sectors the image of a table's description needs.
///
/// Returns `Shape` and `Limits` whenever `build` does, and `NoMemory` if memory ran out. It doesn't look for
/// other faults.
pub fn sectors_needed(alloc: Global, table: &Table) -> Result<u64, BuildFault>
    ensures needed { IfOk result (λ needed. (d : Description)
        × IsDescription (table_view table.now) d
        × IsWithinLimits d
        × (needed ≡ (plan_for d).total)) }
    ensures refused { IfErr result (λ fault. TellsNoSize (table_view table.now) fault) }
{
    let blueprint = Blueprint::read(alloc, table)?;
    Ok(blueprint.sectors())
}

/// Builds the image of a table's description on a device, over any content.
///
/// The image has the described frames, and all other numbers are free. It has the described age, and a committed
/// checkpoint of generation 0 with an empty log. The home ranges lie from sector 5 on in their order, then the two
/// halves of the log. After `Ok` a read returns that image, a crash leaves it, and its frames stand for a sound
/// world. Sectors beyond the image stay.
///
/// Returns the least fault that applies:
/// - `Shape`: the table isn't that of a description;
/// - `Limits`: sizes, ranges, age or version are outside the limits of images;
/// - `Number`: a number is out of range for its kind, or occurs twice;
/// - `Field`: a field is malformed;
/// - `Target`: a capability names an object of another kind, or resumes a process that isn't waiting;
/// - `Owner`: the banks aren't a tree that owns all objects within their limits;
/// - `Small`: the device has fewer sectors than `sectors_needed` returns;
/// - `Failed`: exactly if the device failed;
/// - `NoMemory`: memory ran out.
///
/// After every fault but `Failed` the device is unchanged. After `Failed` the image's sectors may hold any bytes.
///
/// A crash at any moment, even after `Failed`, leaves one of:
/// - an image that a crash could have left before the call;
/// - the whole new image;
/// - an image that doesn't open, because no header is committed.
pub fn build<D: Device>(alloc: Global, table: &Table, device: &mut D) -> Result<(), BuildFault>
    ensures built { OnOk result
        (BuildsFrom (table_view table.now) (D.disk device.old) (D.disk device.new)) }
    ensures refused { IfErr result (λ fault.
        Refuses (table_view table.now) (D.disk device.old).sectors fault) }
    ensures untouched { IfErr result (λ fault.
        fault ≢ BuildFault.Failed → device.new ≡ device.old) }
    ensures any_moment { LeavesOnly (D.disk device.old) (D.disk device.new)
        (λ c. IsLeftOf (table_view table.now) (D.disk device.old) c) }
    ensures size { (D.disk device.new).sectors ≡ (D.disk device.old).sectors }
    ensures later { (D.disk device.old).failures ≤ (D.disk device.new).failures }
    ensures cause { IsErrOf result BuildFault.Failed
        ↔ ((D.disk device.old).failures < (D.disk device.new).failures) }
{
    let blueprint = Blueprint::read(alloc, table)?;
    blueprint.build(alloc, device)
}
