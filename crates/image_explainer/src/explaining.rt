// Finding why an image is refused, and where.
ghost use Rattle.std.specs.Prelude.{◌≡◌, ◌↔◌, length, IfErr, IfOk};
ghost use Rattle.layout.specs.Denoted.{IsBadBy};
ghost use Rattle.layout.specs.Fault.{CountsOpen};
ghost use Rattle.checkpoint.specs.Opened.{Refuses};
ghost use Rattle.layout.specs.Calls.{ReadsOnly};
ghost use Rattle.image_explainer.specs.SectorBreaking.{IsFault};
ghost use Rattle.checkpoint.specs.Store.{OpensStore};
ghost use Rattle.image_explainer.specs.SectorFinding.{IsNoReason};
ghost use Rattle.image_explainer.specs.Explained.{Explains};

use crate::fault::ImageFault;
use crate::objects::find_in_objects;
use crate::sectors::{SectorFault, find_place};
use checkpoint::{ObjectStore, OpenFault};
use device::Device;
use layout::{BadImage, Entry, MAX_LOG, Scratch};
use migrator::WholeStore;
use std::alloc::{AllocError, Global};

// Returns what is wrong with the objects of a store, and the store's device.
fn explain_objects<D: Device, S: WholeStore<D>>(
    alloc: Global,
    store: S,
) -> (Result<Option<ImageFault>, OpenFault>, D)
    requires { (device : D) × OpensStore D.disk device (S.parts store) (S.view store) }
    ensures { (device : D) → OpensStore D.disk device (S.parts store) (S.view store)
        → Explains D.disk device result.1 result.0 }
{
    let mut store = store;
    let found = find_in_objects(alloc, &mut store);
    let device = store.into_device();
    match found {
        Ok(found) => (Ok(found), device),
        Err(fault) => (Err(fault.into()), device),
    }
}

// Reserves memory for a directory and for a frame.
fn reserve(alloc: Global) -> Result<(Vec<Entry>, Scratch), AllocError>
    ensures { IfOk result (λ two. length two.0.items ≡ 4096) }
{
    let entries = vec![in alloc; Entry { object: 0, slot: 0 }; MAX_LOG]?;
    Ok((entries, Scratch::new(alloc)?))
}

// Returns what is wrong with the sectors of a device to which this reason applies.
fn find_on<D: Device>(
    alloc: Global,
    device: &mut D,
    reason: BadImage,
) -> Result<SectorFault, OpenFault>
    requires { IsBadBy (D.disk device.old).seen (D.disk device.old).sectors reason }
    ensures found { IfOk result (IsFault (D.disk device.old).sectors (D.disk device.old).seen) }
    ensures refused { IfErr result IsNoReason }
    ensures reads { ReadsOnly (D.disk device.old) (D.disk device.new) }
    ensures cause { CountsOpen (D.disk device.old) (D.disk device.new) result }
{
    let Ok((entries, scratch)) = reserve(alloc) else {
        return Err(OpenFault::NoMemory);
    };
    let (mut entries, mut scratch) = (entries, scratch);
    find_place(device, reason, &mut entries, &mut scratch)
}

// Returns what is wrong with the sectors of a device to which this reason applies, and the device.
fn explain_sectors<D: Device>(
    alloc: Global,
    device: D,
    reason: BadImage,
) -> (Result<Option<ImageFault>, OpenFault>, D)
    requires { IsBadBy (D.disk device).seen (D.disk device).sectors reason }
    ensures { (before : D) → Refuses D.disk before device (OpenFault.Bad reason)
        → Explains D.disk before result.1 result.0 }
{
    let mut device = device;
    match find_on(alloc, &mut device, reason) {
        Ok(fault) => (Ok(Some(ImageFault::Sectors(fault))), device),
        Err(fault) => (Err(fault), device),
    }
}

/// Returns why the image on a device is refused, or `None` if a kernel opens it. The fault has the least reason that
/// applies, of ten, and the first place where it does.
///
/// Returns the device too, and writes nothing to it. Returns `Failed` exactly if the device failed, and `NoMemory` if
/// memory ran out; never `Bad`.
#[tactic(auto, using(crate::proofs::Refused::bad_still))]
pub fn explain<D: Device, S: WholeStore<D>>(
    alloc: Global,
    device: D,
    setting: S::Setting,
) -> (Result<Option<ImageFault>, OpenFault>, D)
    ensures { Explains D.disk device result.1 result.0 }
{
    match S::open(alloc, device, setting, &mut None) {
        Ok(store) => explain_objects(alloc, store),
        Err(refused) => match refused.fault {
            OpenFault::Bad(reason) => explain_sectors(alloc, refused.device, reason),
            OpenFault::Failed | OpenFault::NoMemory => (Err(refused.fault), refused.device),
        },
    }
}
