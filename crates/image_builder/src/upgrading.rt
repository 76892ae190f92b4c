// Writing the saved state of an image to another device, in a new layout.
ghost use Rattle.std.specs.Prelude.{◌≡◌, ◌≢◌, ◌<◌, ◌≤◌, ◌↔◌, ℕ, length, IfOk, IfErr, IsErrOf, OnErr, OnOk};
ghost use Rattle.device.specs.Disk.{Image};
ghost use Rattle.device.specs.Calls.{Elsewhere};
ghost use Rattle.device.specs.Moments.{LeavesOnly};
ghost use Rattle.layout.specs.Denoted.{Encodes, HasPlan};
ghost use Rattle.layout.specs.Superblock.{Plan};
ghost use Rattle.layout.specs.Calls.{ReadsOnly};
ghost use Rattle.layout.specs.Fault.{CountsOpen};
ghost use Rattle.checkpoint.specs.Saved.{kept_of};
ghost use Rattle.image_writer.specs.Written.{IsLeftWriting};
ghost use Rattle.recovery.specs.Denotes.{IsSoundSaved};
ghost use Rattle.migrator.specs.Opened.{IsUnplanned};
ghost use Rattle.migrator.specs.Durable.{saved_by};
ghost use Rattle.model.specs.Frame.{frames_in};
ghost use Rattle.capability.specs.Parts.{frames_of};
ghost use Rattle.image_builder.specs.Upgraded.{IsLeftUpgrading, IsNotUpgraded, IsOpenedFrom, IsRefusedAsOld};
ghost use Rattle.image_builder.specs.Upgraded.{ReadsAndCloses, Upgrades, WritesUpgraded, new_plan, numbered};

use crate::closable::ClosableDevice;
use crate::new_layout::NewLayout;
use crate::upgrade_fault::UpgradeFault;
use checkpoint::{OpenFault, OpenRefused};
use device::Device;
use image_writer::write_saved;
use layout::{CheckpointHeader, Entry};
use migrator::{Durable, WholeStore, read_superblock};
use model::{Cap, Content, ObjectHeader};
use recovery::recover;
use std::alloc::{AllocError, Global};
use std::marker::{Model, PhantomData};

/// Returns how many sectors the saved state of an image needs in a new layout. Reads only the superblock.
///
/// Returns `Failed` exactly if the device failed, else the least of the reasons 1 to 3 to refuse an image, if one
/// applies. It takes no memory.
pub fn upgraded_sectors<D: Device>(device: &mut D, layout: NewLayout) -> Result<u64, OpenFault>
    ensures reported { IfOk result (λ sectors. (p : Plan)
        × HasPlan (D.disk device.old).seen (D.disk device.old).sectors p
        × (sectors ≡ (new_plan layout p).total)) }
    ensures refused { IfErr result (λ why.
        IsUnplanned (D.disk device.old).seen (D.disk device.old).sectors why) }
    ensures reads { ReadsOnly (D.disk device.old) (D.disk device.new) }
    ensures cause { CountsOpen (D.disk device.old) (D.disk device.new) result }
{
    match read_superblock(device) {
        Ok(superblock) => Ok(layout.lay_out(&superblock).total()),
        Err(why) => Err(why),
    }
}

// Returns the entries of a directory in the same order, with slots 0, 1, 2, ..
#[tactic(auto, using(crate::proofs::Numbered::all_numbered))]
fn in_order(alloc: Global, entries: &[Entry]) -> Result<Vec<Entry>, AllocError>
    ensures { IfOk result (λ found. found.items ≡ numbered 0 entries.now) }
{
    let mut found = Vec::with_capacity(alloc, entries.len())?;
    for (slot, entry) in entries.iter().enumerate() {
        found.push(Entry {
            object: entry.object,
            slot: slot as u64,
        })?;
    }
    Ok(found)
}

// Writes an image in a new layout: a saved state with these entries in place of its own, and the frames of these
// headers and contents. Returns how many sectors the image has.
fn write_over<D: Device, E: Device>(
    layout: NewLayout,
    saved: &Durable<D>,
    entries: &[Entry],
    headers: &[ObjectHeader],
    contents: &[Content<Cap>],
    new: &mut E,
) -> Result<u64, UpgradeFault>
    requires encoded { (image : Image) × (size : ℕ)
        × Encodes image size (saved_by D.disk saved.now) }
    requires sound { let state = saved_by D.disk saved.now in
        IsSoundSaved state.plan.geometry (kept_of state) }
    requires entries { entries.now ≡ numbered 0 saved.now.books.directory }
    requires contents { length contents.now ≡ length headers.now }
    requires frames { frames_in headers.now contents.now
        ≡ (saved_by D.disk saved.now).frames }
    ensures { WritesUpgraded layout E.disk (saved_by D.disk saved.now) new.old new.new result }
{
    let superblock = layout.lay_out(saved.superblock());
    let sectors = new.sectors();
    if sectors < superblock.total() {
        return Err(UpgradeFault::Small);
    }
    let checkpoint = saved.saved();
    let header = CheckpointHeader {
        sequence: superblock.version().row().first_sequence,
        generation: checkpoint.generation,
        entries: checkpoint.entries,
        age: checkpoint.age,
    };
    match write_saved(new, &superblock, header, entries, headers, contents) {
        Ok(()) => Ok(superblock.total()),
        Err(_) => Err(UpgradeFault::Failed),
    }
}

// Writes the saved state of a store in a new layout. Returns how many sectors the image has, and the store's device.
fn write_store<D: Device, E: Device, S: WholeStore<D>>(
    alloc: Global,
    layout: NewLayout,
    store: S,
    new: &mut E,
) -> (Result<u64, UpgradeFault>, D)
    requires encoded { (image : Image) × (size : ℕ) × Encodes image size (saved_by D.disk (S.durable store)) }
    requires sound { let state = saved_by D.disk (S.durable store) in
        IsSoundSaved state.plan.geometry (kept_of state) }
    requires frames { frames_of (S.parts store) ≡ (saved_by D.disk (S.durable store)).frames }
    ensures writes { WritesUpgraded layout E.disk (saved_by D.disk (S.durable store)) new.old new.new result.0 }
    ensures device { result.1 ≡ (S.durable store).beneath }
{
    let (saved, objects) = store.into_parts(alloc);
    let Ok(objects) = objects else {
        return (Err(UpgradeFault::NoMemory), saved.into_device());
    };
    match in_order(alloc, saved.directory()) {
        Ok(entries) => {
            let (headers, contents) = (&objects.headers, &objects.contents);
            let written = write_over(layout, &saved, &entries, headers, contents, new);
            (written, saved.into_device())
        }
        Err(_) => (Err(UpgradeFault::NoMemory), saved.into_device()),
    }
}

// Returns the fault for an old device that could not be opened.
fn of_old(why: OpenFault) -> UpgradeFault
    ensures memory { why ≡ OpenFault.NoMemory → result ≡ UpgradeFault.NoMemory }
    ensures other { why ≢ OpenFault.NoMemory → result ≡ UpgradeFault.Old why }
{
    match why {
        OpenFault::NoMemory => UpgradeFault::NoMemory,
        OpenFault::Failed | OpenFault::Bad(_) => UpgradeFault::Old(why),
    }
}

/// An old image that was opened and read into memory, to be written to a new device. Nothing was written to the old
/// device.
#[derive(Drop)]
pub struct OldImage<D: Device, S: WholeStore<D>> {
    store: S,
    device: PhantomData<D>,
}

impl<D: Device, S: WholeStore<D>> Model for OldImage<D, S> {
    ghost use Rattle.migrator.specs.Durable.{DurableState};
    ghost use Rattle.image_builder.specs.Upgraded.{IsWhole};

    ghost Value = { DurableState D };

    ghost view = { λ image. S.durable image.store };

    ghost invariant = { λ image. IsWhole D.disk (S.parts image.store) (S.durable image.store) };
}

impl<D: ClosableDevice, S: WholeStore<D>> OldImage<D, S> {
    /// Opens an old device as a kernel does, and reads its whole image.
    ///
    /// Returns `NoMemory` if memory ran out. Otherwise returns `Old` with the reason, exactly if a kernel doesn't
    /// open the device. There is no other fault. After a fault the device is closed, and was only read.
    pub fn open(alloc: Global, old: D, setting: S::Setting) -> Result<OldImage<D, S>, UpgradeFault>
        ensures opened { IfOk result (λ image. IsOpenedFrom D.disk old image) }
        ensures refused { IfErr result (λ fault. IsRefusedAsOld D.disk old fault) }
        ensures reads { OnErr result (ReadsAndCloses D.disk D.was_closed old
            (IsErrOf result (UpgradeFault.Old OpenFault.Failed))) }
    {
        match recover::<D, S>(alloc, old, setting) {
            Ok(live) => Ok(OldImage {
                store: live.into_store(),
                device: PhantomData,
            }),
            Err(refused) => {
                let OpenRefused { fault, device } = refused;
                device.close();
                Err(of_old(fault))
            }
        }
    }

    /// Returns how many sectors the saved state needs in a new layout.
    pub fn sectors(&self, layout: NewLayout) -> u64
        ensures { result ≡ (new_plan layout (saved_by D.disk self.now).plan).total }
    {
        layout.lay_out(self.store.superblock()).total()
    }

    /// Writes the image's saved state to a new device, over any content, as `upgrade` does. Returns how many sectors
    /// the new image has, and closes the old device. The faults are those of `upgrade` other than `Old`.
    pub fn write_to<E: Device>(
        self,
        alloc: Global,
        layout: NewLayout,
        new: &mut E,
    ) -> Result<u64, UpgradeFault>
        ensures upgraded { (old : D) → IsOpenedFrom D.disk old self → IfOk result (λ total.
            (done : Upgrades layout (D.disk old) (E.disk new.old) (E.disk new.new))
            × (total ≡ (new_plan layout done.state.plan).total)) }
        ensures refused { (old : D) → IsOpenedFrom D.disk old self → IfErr result (λ fault.
            IsNotUpgraded layout D.disk old (E.disk new.old).sectors fault) }
        ensures untouched { IfErr result (λ fault. fault ≢ UpgradeFault.Failed → new.new ≡ new.old) }
        ensures any_moment { (old : D) → IsOpenedFrom D.disk old self
            → LeavesOnly (E.disk new.old) (E.disk new.new)
            (λ c. IsLeftUpgrading (D.disk old) (E.disk new.old) c) }
        ensures size { (E.disk new.new).sectors ≡ (E.disk new.old).sectors }
        ensures later { (E.disk new.old).failures ≤ (E.disk new.new).failures }
        ensures cause { IsErrOf result UpgradeFault.Failed
            ↔ ((E.disk new.old).failures < (E.disk new.new).failures) }
        ensures reads { (old : D) → IsOpenedFrom D.disk old self
            → ReadsAndCloses D.disk D.was_closed old
            (IsErrOf result (UpgradeFault.Old OpenFault.Failed)) }
    {
        let (written, old) = write_store(alloc, layout, self.store, new);
        old.close();
        written
    }
}

/// Does what `upgrade` does, and returns how many sectors the new image has.
pub fn upgrade_and_count<D: ClosableDevice, E: Device, S: WholeStore<D>>(
    alloc: Global,
    old: D,
    setting: S::Setting,
    layout: NewLayout,
    new: &mut E,
) -> Result<u64, UpgradeFault>
    ensures upgraded { IfOk result (λ total.
        (done : Upgrades layout (D.disk old) (E.disk new.old) (E.disk new.new))
        × (total ≡ (new_plan layout done.state.plan).total)) }
    ensures refused { IfErr result (λ fault.
        IsNotUpgraded layout D.disk old (E.disk new.old).sectors fault) }
    ensures untouched { IfErr result (λ fault. fault ≢ UpgradeFault.Failed → new.new ≡ new.old) }
    ensures any_moment { LeavesOnly (E.disk new.old) (E.disk new.new)
        (λ c. IsLeftUpgrading (D.disk old) (E.disk new.old) c) }
    ensures size { (E.disk new.new).sectors ≡ (E.disk new.old).sectors }
    ensures later { (E.disk new.old).failures ≤ (E.disk new.new).failures }
    ensures cause { IsErrOf result UpgradeFault.Failed
        ↔ ((E.disk new.old).failures < (E.disk new.new).failures) }
    ensures reads { ReadsAndCloses D.disk D.was_closed old
        (IsErrOf result (UpgradeFault.Old OpenFault.Failed)) }
{
    match OldImage::<D, S>::open(alloc, old, setting) {
        Ok(image) => image.write_to(alloc, layout, new),
        Err(fault) => Err(fault),
    }
}

/// Opens an old device as a kernel does, and writes its saved state to a new device in a new layout, over any
/// content.
///
/// The new image has the same frames, generation, entries, age and home ranges. The ranges lie right after the header
/// slots, the log slots are in order, and the sequence number is the version's first. After `Ok` a read of the new device
/// returns that image, even after a crash. The old image may have the new version already.
///
/// Returns:
/// - `Old`: exactly if a kernel doesn't open the old device, with the reason, unless memory ran out;
/// - `Small`: the new device has fewer sectors than `upgraded_sectors` returns for the old one;
/// - `Failed`: exactly if the new device failed;
/// - `NoMemory`: memory ran out.
///
/// After every fault but `Failed` the new device is unchanged. After `Failed` the image's sectors may hold any bytes.
///
/// A crash of the new device at any moment, even after `Failed`, leaves one of:
/// - an image that a crash could have left before the call;
/// - the whole new image;
/// - an image that doesn't open, because no header is committed.
///
/// The old device is only read, and closed at the end.
pub fn upgrade<D: ClosableDevice, E: Device, S: WholeStore<D>>(
    alloc: Global,
    old: D,
    setting: S::Setting,
    layout: NewLayout,
    new: &mut E,
) -> Result<(), UpgradeFault>
    ensures upgraded { OnOk result (Upgrades layout (D.disk old) (E.disk new.old) (E.disk new.new)) }
    ensures refused { IfErr result (λ fault.
        IsNotUpgraded layout D.disk old (E.disk new.old).sectors fault) }
    ensures untouched { IfErr result (λ fault. fault ≢ UpgradeFault.Failed → new.new ≡ new.old) }
    ensures any_moment { LeavesOnly (E.disk new.old) (E.disk new.new)
        (λ c. IsLeftUpgrading (D.disk old) (E.disk new.old) c) }
    ensures size { (E.disk new.new).sectors ≡ (E.disk new.old).sectors }
    ensures later { (E.disk new.old).failures ≤ (E.disk new.new).failures }
    ensures cause { IsErrOf result UpgradeFault.Failed
        ↔ ((E.disk new.old).failures < (E.disk new.new).failures) }
    ensures reads { ReadsAndCloses D.disk D.was_closed old
        (IsErrOf result (UpgradeFault.Old OpenFault.Failed)) }
{
    match upgrade_and_count::<D, E, S>(alloc, old, setting, layout, new) {
        Ok(_total) => Ok(()),
        Err(fault) => Err(fault),
    }
}
