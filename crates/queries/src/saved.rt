// Reading parts of a device's saved state.
ghost use Rattle.std.specs.Prelude.{◌≡◌, IfErr, IfOk, OnOk};
ghost use Rattle.model.specs.Frame.{objects_of};
ghost use Rattle.model.specs.Keepable.{IsSoundFrames};
ghost use Rattle.layout.specs.Denoted.{SavedState};
ghost use Rattle.checkpoint.specs.Saved.{kept_of};
ghost use Rattle.capability.specs.Parts.{frames_of};
ghost use Rattle.recovery.specs.Denotes.{saved_of};
ghost use Rattle.recovery.specs.Recovered.{RefusesToOpen};
ghost use Rattle.migrator.specs.Durable.{saved_by};
ghost use Rattle.queries.specs.Images.{IsDescriptionOf, IsReadFrom};
ghost use Rattle.queries.specs.Info.{info_lines};

use crate::info::{InfoLine, lines_about};
use checkpoint::{OpenFault, OpenRefused};
use description::Description;
use device::Device;
use image_describer::{describe, ranges_of};
use migrator::WholeStore;
use model::Object;
use reach::read_objects;
use recovery::recover;
use std::alloc::{AllocError, Global};

/// A part of a device's saved state.
pub trait SavedPart: Drop + Sized {
    /// The value is that part of the saved state.
    ghost is_part: { SavedState → Self → Type 0 };

    /// Reads the part from a store whose objects are the saved ones. Makes no device call. Fails only if memory
    /// runs out.
    fn read<D: Device, S: WholeStore<D>>(alloc: Global, store: &mut S) -> Result<Self, AllocError>
        requires usable { S.IsUsable store.old }
        requires saved { frames_of (S.parts store.old) ≡ (saved_by D.disk (S.durable store.old)).frames }
        requires sound { let s = saved_by D.disk (S.durable store.old) in
            IsSoundFrames s.plan.geometry s.header.age s.frames }
        ensures part { IfOk result (λ part. is_part (saved_by D.disk (S.durable store.old)) part) }
        ensures usable { OnOk result (S.IsUsable store.new) }
        ensures same { S.durable store.new ≡ S.durable store.old }
        ensures frames { frames_of (S.parts store.new) ≡ frames_of (S.parts store.old) };
}

// The description of all objects, with the image's home ranges and version.
impl SavedPart for Description {
    ghost is_part = { λ s d. IsDescriptionOf s.plan s.header.age s.frames d };

    fn read<D: Device, S: WholeStore<D>>(alloc: Global, store: &mut S) -> Result<Self, AllocError> {
        let age = store.saved().age;
        let version = store.superblock().version();
        let ranges = ranges_of(alloc, store.superblock())?;
        match describe(alloc, store, age, ranges, version) {
            Ok(description) => Ok(description),
            Err(_) => Err(AllocError),
        }
    }
}

// All objects, by number.
impl SavedPart for Vec<Object> {
    ghost is_part = { λ s objects. objects.items ≡ objects_of s.frames };

    fn read<D: Device, S: WholeStore<D>>(alloc: Global, store: &mut S) -> Result<Self, AllocError> {
        match read_objects(alloc, store) {
            Ok(objects) => Ok(objects),
            Err(_) => Err(AllocError),
        }
    }
}

// Two parts together.
impl<A: SavedPart, B: SavedPart> SavedPart for (A, B) {
    ghost is_part = { λ s both. A.is_part s both.0 × B.is_part s both.1 };

    fn read<D: Device, S: WholeStore<D>>(alloc: Global, store: &mut S) -> Result<Self, AllocError> {
        let first = A::read::<D, S>(alloc, store)?;
        let second = B::read::<D, S>(alloc, store)?;
        Ok((first, second))
    }
}

// The lines of `eros info` about the image.
impl SavedPart for Vec<InfoLine> {
    ghost is_part = { λ s lines. lines.items ≡ info_lines s.plan (saved_of (kept_of s)) };

    fn read<D: Device, S: WholeStore<D>>(alloc: Global, store: &mut S) -> Result<Self, AllocError> {
        lines_about(
            alloc,
            store.superblock(),
            store.saved(),
            store.table().headers(),
        )
    }
}

/// Opens a device as a run does, reads a part of its saved state, and returns the part and the device.
pub fn read_saved<T: SavedPart, D: Device, S: WholeStore<D>>(
    alloc: Global,
    device: D,
    setting: S::Setting,
) -> Result<(T, D), OpenRefused<D>>
    ensures read { IfOk result (λ r. IsReadFrom D.disk T.is_part device r.1 r.0) }
    ensures refused { IfErr result (λ r. RefusesToOpen D.disk device r.device r.fault) }
{
    let live = match recover::<D, S>(alloc, device, setting) {
        Ok(live) => live,
        Err(refused) => return Err(refused),
    };
    let mut store = live.store;
    let read = T::read::<D, S>(alloc, &mut store);
    let device = store.into_device();
    match read {
        Ok(part) => Ok((part, device)),
        Err(_) => Err(OpenRefused {
            fault: OpenFault::NoMemory,
            device,
        }),
    }
}
