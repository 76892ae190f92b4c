// The part of a durable store that is in memory.
ghost use Rattle.std.specs.Prelude.{◌≡◌, ℕ, ◌<◌, ◌≤◌, None, Some, length, slice_set, OnOk, OnErr, option_map};
ghost use Rattle.model.specs.Keepable.{IsKeepable};
ghost use Rattle.device.specs.Calls.{Counts};
ghost use Rattle.device.specs.Disk.{Image};
ghost use Rattle.layout.specs.Frame.{frame_bytes};
ghost use Rattle.layout.specs.Header.{IsHeader};
ghost use Rattle.layout.specs.Image.{sectors_from, slot_sector};
ghost use Rattle.layout.specs.Homes.{place_length, shape_of};
ghost use Rattle.layout.specs.Version.{row};
ghost use Rattle.layout.specs.Calls.{WritesAt};
ghost use Rattle.layout.specs.Shape.{HasZerosBeside};
ghost use Rattle.layout.specs.Frames.{IsObject};
ghost use Rattle.checkpoint.specs.Saved.{most};
ghost use Rattle.migrator.specs.Durable.{IsDurable, IsIntact, MayPut, PutsFrame, Stores, frozen_generation, left_of};
ghost use Rattle.migrator.specs.Durable.{seen_by, stored_in};
ghost use Rattle.migrator.specs.Durable.{stored_on, with_frozen, with_working, working_generation};
ghost use Rattle.migrator.specs.Put.{Broken, HasFreeSlot, IsSlotSummed, puts_in, slot_bytes};
ghost use Rattle.migrator.specs.Table.{slot_for};

mod access;
mod adopt;
mod commit;
mod journal;
mod migrate;

ghost use Rattle.model.specs.Frame.{content_behind};

use crate::cluster_buffer::ClusterBuffer;
use crate::directory::Directory;
use crate::table::{Place, Table};
use ckpt_log::Log;
use device::{Device, Failed};
use layout::{CheckpointHeader, Superblock};
use model::{Cap, ContentRef, ObjectHeader};
use seal::Sums;
use std::mem;

/// The part of a durable store that is in memory: the superblock, the committed header and its directory, and the
/// slots of the frames written to the log since. The device is passed to each call.
#[derive(Drop)]
pub(crate) struct Books {
    pub plan: Superblock,
    pub header: CheckpointHeader,
    /// The root: sums over the saved frames' units. Zeros in versions 1 and 2.
    pub root: Sums,
    /// The entries of the committed checkpoint.
    pub directory: Directory,
    /// How many of the directory's entries are home.
    pub moved: u64,
    /// The slots of the frozen frames.
    pub frozen: Table,
    /// How many objects the frozen checkpoint has to write; `None` if none is frozen.
    pub frozen_size: Option<u64>,
    /// The slots of the working frames: those written since the last freeze.
    pub working: Table,
    /// A cluster that the device failed to write, if there is one.
    pub unwritten: ClusterBuffer,
}

// Writes the frame of an object into its slot in the half of a generation, or into the next free slot if it
// has none. After `Failed` the slot may hold any bytes.
fn put_frame<D: Device>(
    device: &mut D,
    plan: &Superblock,
    table: &mut Table,
    generation: u64,
    number: u64,
    header: ObjectHeader,
    content: ContentRef<'_>,
) -> Result<(), Failed>
    requires known { number < length table.old }
    requires room { slot_for table.old number < plan.now.geometry.log }
    requires inside { plan.now.total ≤ (D.disk device.old).sectors }
    ensures whole { OnOk result (table.new
        ≡ slice_set table.old number (Place.Whole (slot_for table.old number))) }
    ensures torn { OnErr result (table.new
        ≡ slice_set table.old number (Place.Torn (slot_for table.old number))) }
    ensures written { OnOk result
        (slot_bytes (D.disk device.new).seen plan.now generation (slot_for table.old number) number
        ≡ frame_bytes plan.now.geometry number (record { header = header; content = content_behind content.entry })) }
    ensures beside { OnOk result (HasZerosBeside (shape_of plan.now number) (sectors_from (D.disk device.new).seen
        (slot_sector plan.now generation (slot_for table.old number)) (place_length plan.now number))) }
    ensures summed { OnOk result
        (IsSlotSummed (D.disk device.new).seen plan.now generation (slot_for table.old number) number) }
    ensures writes { WritesAt (slot_sector plan.now generation (slot_for table.old number))
        (place_length plan.now number) (D.disk device.old) (D.disk device.new) }
    ensures cause { Counts (D.disk device.old) (D.disk device.new) result }
{
    let slot = table.slot_for(number);
    table.set(number, Place::Torn(slot));
    let log = Log::new(plan);
    log.write_slot(device, generation, slot, number, header, content)?;
    table.set(number, Place::Whole(slot));
    Ok(())
}

impl Books {
    // Returns the generation of the working frames.
    fn working_generation(&self) -> u64
        requires { IsHeader (row self.now.plan.version).first_sequence self.now.plan.geometry.log self.now.header }
        ensures { result ≡ working_generation self.now }
    {
        match self.frozen_size {
            None => self.header.generation + 1,
            Some(_) => self.header.generation + 2,
        }
    }

    /// Writes a working frame of an object into its slot, or the next free one, in the log half without saved
    /// and frozen frames. After `Failed` the slot may hold any bytes.
    #[tactic(auto, using(crate::proofs::PutFrames::working_room))]
    pub(crate) fn put_working<D: Device>(
        &mut self,
        device: &mut D,
        number: u64,
        header: ObjectHeader,
        content: ContentRef<'_>,
    ) -> Result<(), Failed>
        requires stands { IsDurable (D.disk device.old) self.old }
        requires object { IsObject self.old.plan.geometry number }
        requires keepable { IsKeepable self.old.plan.geometry most number
            (record { header = header; content = content_behind content }) }
        requires room { HasFreeSlot self.old.plan.geometry.log
            (stored_on (D.disk device.old) self.old).working number }
        ensures { PutsFrame (D.disk device.old) (D.disk device.new) self.old self.new
            (record { header = header; content = content_behind content.entry })
            (λ put. with_working number put (stored_on (D.disk device.old) self.old)) result }
    {
        let generation = self.working_generation();
        put_frame(
            device,
            &self.plan,
            &mut self.working,
            generation,
            number,
            header,
            content,
        )
    }

    // Marks the frozen slot of an object as torn, so the frame in it no longer counts. Then, if there is a cluster
    // that the device failed to write, writes it again.
    fn tear_and_write_back<D: Device>(&mut self, device: &mut D, number: u64) -> Result<(), Failed>
        requires stands { IsDurable (D.disk device.old) self.old }
        requires object { IsObject self.old.plan.geometry number }
        requires room { (size : ℕ) × (self.old.frozen_size ≡ Some size)
            × HasFreeSlot size (puts_in (seen_by (D.disk device.old).seen self.old) self.old.plan
            (frozen_generation self.old) self.old.frozen) number }
        ensures torn { Stores (D.disk device.old) (D.disk device.new) self.old self.new
            (with_frozen number Broken (stored_on (D.disk device.old) self.old)) }
        ensures size { self.new.frozen_size ≡ self.old.frozen_size }
        ensures written { OnOk result (self.new.unwritten ≡ None) }
        ensures cause { Counts (D.disk device.old) (D.disk device.new) result }
    {
        let slot = self.frozen.slot_for(number);
        self.frozen.set(number, Place::Torn(slot));
        self.unwritten.write(device)
    }

    // Writes the frozen frame of an object. There must be no unwritten cluster.
    fn put_written<D: Device>(
        &mut self,
        device: &mut D,
        number: u64,
        header: ObjectHeader,
        content: ContentRef<'_>,
    ) -> Result<(), Failed>
        requires may { (size : ℕ) × MayPut (D.disk device.old) self.old size number
            (record { header = header; content = content_behind content }) }
        requires written { self.old.unwritten ≡ None }
        ensures { PutsFrame (D.disk device.old) (D.disk device.new) self.old self.new
            (record { header = header; content = content_behind content.entry })
            (λ put. with_frozen number put (stored_on (D.disk device.old) self.old)) result }
    {
        let generation = self.header.generation + 1;
        put_frame(
            device,
            &self.plan,
            &mut self.frozen,
            generation,
            number,
            header,
            content,
        )
    }

    /// Writes the frozen frame of an object into its slot, or the next free one, in the log half without
    /// saved frames. After `Failed` the slot may hold any bytes.
    pub(crate) fn put_running<D: Device>(
        &mut self,
        device: &mut D,
        number: u64,
        header: ObjectHeader,
        content: ContentRef<'_>,
    ) -> Result<(), Failed>
        requires { (size : ℕ) × MayPut (D.disk device.old) self.old size number
            (record { header = header; content = content_behind content }) }
        ensures { PutsFrame (D.disk device.old) (D.disk device.new) self.old self.new
            (record { header = header; content = content_behind content.entry })
            (λ put. with_frozen number put (stored_on (D.disk device.old) self.old)) result }
    {
        self.tear_and_write_back(device, number)?;
        self.put_written(device, number, header, content)
    }

    /// Freezes the working frames, for a checkpoint of `size` objects.
    pub(crate) fn freeze(&mut self, size: u64)
        requires idle { self.old.frozen_size ≡ None }
        requires home { self.old.header.entries ≡ 0 }
        ensures { self.new ≡ record self.old {
          frozen = self.old.working;
          frozen_size = Some size;
          working = self.old.frozen;
        } }
    {
        mem::swap(&mut self.frozen, &mut self.working);
        self.frozen_size = Some(size);
    }

    /// Returns how many objects of the frozen checkpoint have no frame in the log yet, or `None` if none is frozen.
    pub(crate) fn left(&self) -> Option<u64>
        requires { (size : ℕ) × (image : Image) × IsIntact size image self.now }
        ensures { (image : Image) → result ≡ option_map left_of (stored_in image self.now).frozen }
    {
        match self.frozen_size {
            None => None,
            Some(size) => Some(size - self.frozen.whole()),
        }
    }
}
