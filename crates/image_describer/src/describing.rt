// Describing all objects of a store.
ghost use Rattle.std.specs.Prelude.{◌≡◌, [], IfOk, OnOk};
ghost use Rattle.layout.specs.Superblock.{version_number};
ghost use Rattle.model.specs.Keepable.{IsSoundFrames, world_at};
ghost use Rattle.capability.specs.Parts.{AreSound, OnlyReads, frames_of, objects_in};
ghost use Rattle.description.specs.Describes.{Describes};
ghost use Rattle.image_describer.specs.Brief.{IsBrief};
ghost use Rattle.image_describer.specs.DescribedEntry.{HasNoObjects, IsSameBeside, TellAll, TellsObjects};

use crate::adding::add;
use crate::objects::DescribedEntry;
use capability::Frames;
use description::Description;
use home_ranges::NumberRange;
use layout::Version;
use model::Refusal;
use std::alloc::Global;

// Appends entries for all objects of a kind, in rising order. This function and `tell_objects` return `Fault`
// exactly if the device failed.
fn tell_all<F: Frames, E: DescribedEntry>(
    alloc: Global,
    store: &mut F,
    entries: &mut Vec<E>,
) -> Result<(), Refusal>
    requires usable { F.IsUsable store.old }
    requires sound { AreSound (F.parts store.old) }
    requires none { entries.old.items ≡ [] }
    ensures entry_of { let objects = objects_in (F.parts store.old) in
        OnOk result (TellAll E.number_of (E.Tells objects) E.kind objects entries.new.items) }
    ensures only_reads { OnlyReads F.parts F.ContinuesTo store.old store.new result }
{
    for number in 0..store.table().count() {
        let entry = E::entry_of(alloc, store, number)?;
        add(entries, entry)?;
    }
    Ok(())
}

// Adds entries for all objects to a description without objects.
fn tell_objects<F: Frames>(
    alloc: Global,
    store: &mut F,
    description: &mut Description,
) -> Result<(), Refusal>
    requires usable { F.IsUsable store.old }
    requires sound { AreSound (F.parts store.old) }
    requires none { HasNoObjects description.old }
    ensures entry_of { OnOk result (TellsObjects (objects_in (F.parts store.old)) description.new) }
    ensures same { IsSameBeside description.old description.new }
    ensures only_reads { OnlyReads F.parts F.ContinuesTo store.old store.new result }
{
    tell_all(alloc, store, &mut description.banks)?;
    tell_all(alloc, store, &mut description.processes)?;
    tell_all(alloc, store, &mut description.nodes)?;
    tell_all(alloc, store, &mut description.pages)
}

/// Returns the description of a store's objects, with these home ranges and this layout version. The objects must
/// be sound at this age.
///
/// It has an entry for each object in use, in rising order; void or stale slots and words that are 0 are omitted.
/// An image built from it has the same objects, with counts of 0.
///
/// Returns `NoMemory` if memory runs out, and `Fault` exactly if the device failed. No object changes.
pub fn describe<F: Frames>(
    alloc: Global,
    store: &mut F,
    age: u64,
    ranges: Vec<NumberRange>,
    version: Version,
) -> Result<Description, Refusal>
    requires usable { F.IsUsable store.old }
    requires sound { IsSoundFrames (F.parts store.old).geometry age (frames_of (F.parts store.old)) }
    ensures describes { let parts = F.parts store.old in
        IfOk result (Describes parts.geometry (world_at age (frames_of parts))) }
    ensures ranges { IfOk result (λ d. d.ranges ≡ ranges) }
    ensures layout { IfOk result (λ d. d.layout ≡ version_number version) }
    ensures brief { IfOk result IsBrief }
    ensures only_reads { OnlyReads F.parts F.ContinuesTo store.old store.new result }
{
    let mut description = Description {
        geometry: store.geometry(),
        layout: version.number(),
        age,
        ranges,
        banks: Vec::new(alloc),
        processes: Vec::new(alloc),
        nodes: Vec::new(alloc),
        pages: Vec::new(alloc),
    };
    match tell_objects(alloc, store, &mut description) {
        Ok(()) => Ok(description),
        Err(fault) => Err(fault),
    }
}
