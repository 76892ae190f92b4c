// Opening a device.
ghost use Rattle.std.specs.Prelude.{◌≡◌, ◌↔◌, ◌<◌, ◌≤◌, ◌^◌, IfOk, IfErr, OnOk, IsErrOf};
ghost use Rattle.model.specs.Keepable.{AreKeepable, IsSoundFrames};
ghost use Rattle.capability.specs.Parts.{OnlyFetches, frames_of, objects_in};
ghost use Rattle.space_bank.specs.Banks.{AreCounted};
ghost use Rattle.recovery.specs.Consistency.{IsInconsistent};
ghost use Rattle.recovery.specs.Recovered.{Recovers, RefusesToOpen};

use crate::check;
use crate::live::Live;
use capability::Frames;
use checkpoint::{ObjectStore, OpenFault, OpenRefused};
use device::Device;
use layout::BadImage;
use space_bank::Banks;
use std::alloc::Global;

// Checks that the world of a store's frames is sound at an age, and computes the state of its banks.
fn examine<F: Frames>(alloc: Global, store: &mut F, age: u64) -> Result<Banks, OpenFault>
    requires usable { F.IsUsable store.old }
    requires keepable { AreKeepable (F.parts store.old).geometry age
        (frames_of (F.parts store.old)) }
    requires most { age ≤ 2 ^ 62 }
    ensures sound { OnOk result (IsSoundFrames (F.parts store.old).geometry age
        (frames_of (F.parts store.old))) }
    ensures counted { IfOk result (AreCounted (F.parts store.old).geometry
        (objects_in (F.parts store.old))) }
    ensures bad { (why : BadImage) → IsErrOf result (OpenFault.Bad why)
        → IsInconsistent (frames_of (F.parts store.old)) why }
    ensures same { OnOk result (F.parts store.new ≡ F.parts store.old) }
    ensures snapshots { OnlyFetches F.parts F.ContinuesTo store.old store.new }
    ensures cause { IsErrOf result OpenFault.Failed
        ↔ ((F.parts store.old).failures < (F.parts store.new).failures) }
{
    check(alloc, store, age)?;
    Ok(Banks::count(alloc, store)?)
}

/// Opens the device at the saved state that its sectors denote, and writes nothing to it.
///
/// A refusal returns the device, with `Failed` exactly if the device failed, `NoMemory` if memory ran out,
/// and else `Bad` with the least of the ten reasons that holds.
pub fn recover<D: Device, S: ObjectStore<D>>(
    alloc: Global,
    device: D,
    setting: S::Setting,
) -> Result<Live<S>, OpenRefused<D>>
    ensures opened { IfOk result (λ l. Recovers D.disk S.view S.parts device l) }
    ensures set { IfOk result (λ l. S.is_set setting l.store) }
    ensures refused { IfErr result (λ r. RefusesToOpen D.disk device r.device r.fault) }
{
    recover_in(alloc, device, setting, &mut None)
}

/// As `recover`, but the store may take over `memory`, instead of allocating its own.
pub fn recover_in<D: Device, S: ObjectStore<D>>(
    alloc: Global,
    device: D,
    setting: S::Setting,
    memory: &mut Option<S::Memory>,
) -> Result<Live<S>, OpenRefused<D>>
    ensures opened { IfOk result (λ l. Recovers D.disk S.view S.parts device l) }
    ensures set { IfOk result (λ l. S.is_set setting l.store) }
    ensures refused { IfErr result (λ r. RefusesToOpen D.disk device r.device r.fault) }
{
    match S::open(alloc, device, setting, memory) {
        Ok(store) => {
            let mut store = store;
            let age = store.saved().age;
            match examine(alloc, &mut store, age) {
                Ok(banks) => Ok(Live {
                    store,
                    banks,
                    age,
                    frozen_age: age,
                }),
                Err(fault) => Err(OpenRefused {
                    fault,
                    device: store.into_device(),
                }),
            }
        }
        Err(refused) => Err(refused),
    }
}
