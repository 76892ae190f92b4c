// Upgrading and copying an image over devices that stop.
use crate::task::Task;
use checkpoint::ObjectStore;
use device::Device;
use image_builder::{NewLayout, UpgradeFault, upgrade};
use migrator::WholeStore;
use script::RunFault;
use std::io::Write;

// Writes how an upgrade or a copy ended.
fn tell_outcome(outcome: Result<(), UpgradeFault>, reported: &mut Vec<u8>) -> Result<(), RunFault> {
    let Err(fault) = outcome else {
        return writeln!(reported, "= written").or(Err(RunFault::Write));
    };
    writeln!(reported, "= {fault}").or(Err(RunFault::Write))
}

impl Task<'_> {
    /// Upgrades or copies the image of one device to another. Writes how that ended, and what the new device holds
    /// after a power cut. Returns whether a device stopped.
    pub(crate) fn run_upgrade<D: Device, E: Device, S: WholeStore<D>, P: ObjectStore<E>>(
        &self,
        old: D,
        layout: NewLayout,
        new: E,
        setting: S::Setting,
        last: P::Setting,
        reported: &mut Vec<u8>,
    ) -> Result<bool, RunFault> {
        let mut new = new;
        let outcome = upgrade::<_, _, S>(self.alloc, old, setting, layout, &mut new);
        tell_outcome(outcome, reported)?;
        self.tell_left::<E, P>(new, last, reported)?;
        Ok(outcome.is_err())
    }
}
