// Descriptions with the layout of their images.
ghost use Rattle.std.specs.Prelude.{◌≡◌, ◌≢◌, ◌<◌, ◌≤◌, ◌↔◌, ℕ, IfOk, IfErr, IsErrOf, OnOk};
ghost use Rattle.toml.specs.Data.{Members};
ghost use Rattle.toml.specs.View.{table_view};
ghost use Rattle.device.specs.Moments.{LeavesOnly};
ghost use Rattle.description.specs.Reading.{IsDescription};
ghost use Rattle.image_builder.specs.Built.{BuildsFrom, IsLeftOf};
ghost use Rattle.description.specs.Rules.{IsAccepted, IsWithinLimits, Refuses, TellsNoSize, plan_for};
ghost use Rattle.image_builder.specs.Checked.{IsRefusedEarly};

use crate::planning::plan;
use crate::worlds::lay_sound;
use crate::writing::build_described;
use description::{BuildFault, Description};
use device::Device;
use layout::Superblock;
use std::alloc::Global;
use std::marker::Model;
use toml::Table;

/// A description within the limits, and where the parts of its image lie.
#[derive(Drop)]
pub struct Blueprint {
    description: Description,
    superblock: Superblock,
}

impl Model for Blueprint {
    ghost use Rattle.std.specs.Prelude.{◌≡◌};
    ghost use Rattle.description.specs.declared.entry.Description.{Description};
    ghost use Rattle.description.specs.Rules.{IsWithinLimits, plan_for};

    ghost Value = { Description };

    ghost view = { λ b. b.description };

    ghost invariant = { λ b. IsWithinLimits b.description × (b.superblock ≡ plan_for b.description) };
}

impl Blueprint {
    /// Reads the description in a table. Returns `Shape` and `Limits` whenever `build` does, and `NoMemory`
    /// if memory ran out. There is no other fault.
    pub fn read(alloc: Global, table: &Table) -> Result<Blueprint, BuildFault>
        ensures read { IfOk result (λ blueprint. IsDescription (table_view table.now) blueprint) }
        ensures refused { IfErr result (λ fault. TellsNoSize (table_view table.now) fault) }
    {
        let description = Description::read(alloc, table)?;
        let superblock = plan(&description)?;
        Ok(Blueprint {
            description,
            superblock,
        })
    }

    /// Returns how many sectors the image needs. No image needs more than a device may have.
    pub fn sectors(&self) -> u64
        ensures value { result ≡ (plan_for self.now).total }
        ensures within { IsWithinLimits self.now }
        ensures few { result ≤ 131072 }
    {
        self.superblock.total()
    }

    /// Checks whether `build` accepts the description on a device with enough sectors. Returns the description's
    /// least fault, which `build` returns on any device, or `NoMemory` if memory ran out.
    pub fn check(&self, alloc: Global) -> Result<(), BuildFault>
        ensures accepted { OnOk result ((sectors : ℕ) → (plan_for self.now).total ≤ sectors
            → IsAccepted self.now sectors) }
        ensures refused { IfErr result (IsRefusedEarly self.now) }
    {
        let _world = lay_sound(alloc, &self.description)?;
        Ok(())
    }

    /// Builds the image on a device, over any content, as `build` does. The faults are those of `build` other
    /// than `Shape` and `Limits`.
    pub fn build<D: Device>(&self, alloc: Global, device: &mut D) -> Result<(), BuildFault>
        ensures built { (table : Members) → IsDescription table self.now
            → OnOk result (BuildsFrom table (D.disk device.old) (D.disk device.new)) }
        ensures refused { (table : Members) → IsDescription table self.now
            → IfErr result (λ fault. Refuses table (D.disk device.old).sectors fault) }
        ensures untouched { IfErr result (λ fault.
            fault ≢ BuildFault.Failed → device.new ≡ device.old) }
        ensures any_moment { (table : Members) → IsDescription table self.now
            → LeavesOnly (D.disk device.old) (D.disk device.new)
            (λ c. IsLeftOf table (D.disk device.old) c) }
        ensures size { (D.disk device.new).sectors ≡ (D.disk device.old).sectors }
        ensures later { (D.disk device.old).failures ≤ (D.disk device.new).failures }
        ensures cause { IsErrOf result BuildFault.Failed
            ↔ ((D.disk device.old).failures < (D.disk device.new).failures) }
    {
        build_described(alloc, &self.description, &self.superblock, device)
    }
}
