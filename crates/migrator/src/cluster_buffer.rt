// The cluster that is being written into a log slot.
ghost use Rattle.std.specs.Prelude.{◌≡◌, ◌+◌, ◌<◌, ◌≤◌, None, Some, true, false, [], length, IfOk, OnOk, OnErr};
ghost use Rattle.device.specs.Calls.{Counts};
ghost use Rattle.layout.specs.Directory.{IsDirectory, entry_at};
ghost use Rattle.layout.specs.Frame.{frame_of};
ghost use Rattle.layout.specs.FrameReader.{frame_from};
ghost use Rattle.layout.specs.Homes.{place_length};
ghost use Rattle.layout.specs.Image.{sectors_from, slot_sector};
ghost use Rattle.layout.specs.Shape.{shape_bytes};
ghost use Rattle.layout.specs.Superblock.{IsPlan};
ghost use Rattle.layout.specs.Version.{row};
ghost use Rattle.layout.specs.sealed.Root.{root_of};
ghost use Rattle.layout.specs.sealed.Units.{units_in};
ghost use Rattle.migrator.specs.Completed.{AreComplete, IsComplete, Keeps, KeepsOne};
ghost use Rattle.home_ranges.specs.Home.{EndsInZeros};
ghost use Rattle.migrator.specs.Gathered.{IsFirst};
ghost use Rattle.migrator.specs.Mended.{IfUnwritten, IsSpeltIn, Unwritten, mended};
ghost use Rattle.migrator.specs.Spared.{Touches};
ghost use Rattle.migrator.specs.Units.{IsNextRoot};

use crate::assemble::assemble;
use crate::first_in_cluster::is_first;
use crate::next_root::next_root;
use crate::whole::is_whole;
use ckpt_log::Log;
use device::{Device, Failed};
use layout::{BLOCK_BYTES, Body, Entry, Scratch, Shape, Superblock, decode_in_block};
use model::{Geometry, ObjectHeader};
use seal::Sums;
use std::alloc::{AllocError, Global};
use std::marker::Model;

// How many bytes a cluster of more than one node takes.
const CLUSTER_BYTES: usize = 4096;

/// The new content of a slot that holds a cluster. If the device failed to write it, the slot may hold any bytes, and
/// this is the only copy.
#[derive(Drop)]
pub(crate) struct ClusterBuffer {
    // The first sector of the slot, if the device failed to write it.
    sector: Option<u64>,
    bytes: Vec<u8>,
}

impl Model for ClusterBuffer {
    ghost use Rattle.std.specs.Prelude.{◌≡◌, Option, length};
    ghost use Rattle.migrator.specs.Mended.{Unwritten, unwritten_of};

    ghost Value = { Option Unwritten };

    ghost view = { λ b. unwritten_of b.sector b.bytes.items };

    ghost invariant = { λ b. length b.bytes.items ≡ 4096 };
}

impl ClusterBuffer {
    /// Returns a buffer in which no write failed. Fails only if memory runs out.
    pub(crate) fn new(alloc: Global) -> Result<ClusterBuffer, AllocError>
        ensures { IfOk result (λ b. b ≡ None) }
    {
        let mut bytes = Vec::with_capacity(alloc, CLUSTER_BYTES)?;
        bytes.resize(CLUSTER_BYTES, 0)?;
        Ok(ClusterBuffer {
            sector: None,
            bytes,
        })
    }

    /// Writes the cluster into its slot, if an earlier write failed. Fails exactly if the device fails.
    pub(crate) fn write<D: Device>(&mut self, device: &mut D) -> Result<(), Failed>
        requires inside { (u : Unwritten) → self.old ≡ Some u
            → u.sector + 8 ≤ (D.disk device.old).sectors }
        ensures written { OnOk result (self.new ≡ None) }
        ensures kept { OnErr result (self.new ≡ self.old) }
        ensures seen { mended (D.disk device.new).seen self.new
            ≡ mended (D.disk device.old).seen self.old }
        ensures touches { (u : Unwritten) → self.old ≡ Some u
            → Touches u.sector 8 (D.disk device.old) (D.disk device.new) }
        ensures nothing { self.old ≡ None → device.new ≡ device.old }
        ensures cause { Counts (D.disk device.old) (D.disk device.new) result }
    {
        let Some(sector) = self.sector else {
            return Ok(());
        };
        device.write(sector, &self.bytes)?;
        self.sector = None;
        Ok(())
    }

    /// Whether the device failed to write the cluster into the slot that begins at this sector.
    pub(crate) fn is_for(&self, sector: u64) -> bool
        ensures yes { result ≡ true → (u : Unwritten) × (self.now ≡ Some u) × (u.sector ≡ sector) }
        ensures no { result ≡ false → (u : Unwritten) → self.now ≡ Some u → u.sector ≡ sector → ⊥ }
    {
        self.sector == Some(sector)
    }

    /// Reads the frame of a node from the cluster.
    pub(crate) fn read(
        &self,
        shape: Shape,
        geometry: Geometry,
        number: u64,
        scratch: &mut Scratch,
    ) -> (ObjectHeader, Body)
        requires spelt { (u : Unwritten) × (self.now ≡ Some u)
            × IsSpeltIn u shape geometry number }
        ensures { (u : Unwritten) → self.now ≡ Some u → frame_of result scratch.new
            ≡ frame_from geometry number (shape_bytes shape u.bytes) }
    {
        match decode_in_block(&self.bytes, shape, geometry, number, u64::MAX, scratch) {
            Ok(read) => read,
            Err(_) => unreachable!(),
        }
    }

    // If an entry is the first of its cluster, completes its slot: it gets the new frames of all nodes of the cluster,
    // and a seal if the version has seals.
    fn complete_one<D: Device>(
        &mut self,
        device: &mut D,
        plan: &Superblock,
        generation: u64,
        entries: &[Entry],
        index: usize,
        scratch: &mut [u8; BLOCK_BYTES],
    ) -> Result<(), Failed>
        requires none { self.old ≡ None }
        requires directory { IsDirectory plan.now.geometry entries.now }
        requires within { index < length entries.now }
        requires inside { plan.now.total ≤ (D.disk device.old).sectors }
        ensures none { OnOk result (self.new ≡ None) }
        ensures complete { OnOk result (IsComplete (D.disk device.new).seen plan.now generation
            entries.now index) }
        ensures zeros { OnOk result ((row plan.now.version).sealed ≡ false → IsFirst plan.now entries.now index
            → place_length plan.now (entry_at entries.now index).object ≡ 8 → EndsInZeros plan.now
            (entry_at entries.now index).object (sectors_from (D.disk device.new).seen
            (slot_sector plan.now generation (entry_at entries.now index).slot) 8)) }
        ensures keeps { KeepsOne plan.now generation entries.now index (D.disk device.old)
            (D.disk device.new) self.new }
        ensures cause { Counts (D.disk device.old) (D.disk device.new) result }
    {
        let entry = entries[index];
        if is_whole(plan.shape(entry.object)) {
            return Ok(());
        }
        if !is_first(plan, entries, index) {
            return Ok(());
        }
        let number = entry.object;
        let bytes = &mut self.bytes;
        assemble(device, plan, generation, entries, number, bytes, scratch)?;
        let log = Log::new(plan);
        self.sector = Some(log.slot_sector(generation, entry.slot));
        self.write(device)
    }

    // Completes the slots of a directory's entries. The slot of the first entry of each cluster gets the whole cluster.
    // If the device failed to write a cluster before, that is written first.
    fn complete_slots<D: Device>(
        &mut self,
        device: &mut D,
        plan: &Superblock,
        generation: u64,
        entries: &[Entry],
    ) -> Result<(), Failed>
        requires plan { IsPlan plan.now }
        requires unwritten { IfUnwritten plan.now generation entries.now self.old }
        requires directory { IsDirectory plan.now.geometry entries.now }
        requires inside { plan.now.total ≤ (D.disk device.old).sectors }
        ensures none { OnOk result (self.new ≡ None) }
        ensures complete { OnOk result (AreComplete (D.disk device.new).seen plan.now generation
            entries.now) }
        ensures keeps { Keeps plan.now generation entries.now (D.disk device.old) self.old
            (D.disk device.new) self.new }
        ensures cause { Counts (D.disk device.old) (D.disk device.new) result }
    {
        self.write(device)?;
        let mut scratch = [0; BLOCK_BYTES];
        for index in 0..entries.len() {
            self.complete_one(device, plan, generation, entries, index, &mut scratch)?;
        }
        Ok(())
    }

    /// Completes the slots of a directory's entries, and returns the root of the state that they save. The slot of the
    /// first entry of each cluster gets the whole cluster: the frames of its entries from their slots, the home frames
    /// of its other nodes, and a seal if the version has seals. If the device failed to write a cluster before, that is
    /// written first.
    ///
    /// Fails exactly if the device fails. Then the frames of the entries are still readable: from this buffer if
    /// their slot was torn.
    pub(crate) fn complete<D: Device>(
        &mut self,
        device: &mut D,
        plan: &Superblock,
        generation: u64,
        entries: &[Entry],
        root: Sums,
    ) -> Result<Sums, Failed>
        requires plan { IsPlan plan.now }
        requires unwritten { IfUnwritten plan.now generation entries.now self.old }
        requires directory { IsDirectory plan.now.geometry entries.now }
        requires inside { plan.now.total ≤ (D.disk device.old).sectors }
        requires root { (row plan.now.version).sealed ≡ true → root
            ≡ root_of (units_in (mended (D.disk device.old).seen self.old) plan.now generation []) }
        ensures none { OnOk result (self.new ≡ None) }
        ensures complete { OnOk result (AreComplete (D.disk device.new).seen plan.now generation
            entries.now) }
        ensures root { IfOk result (λ new.
            IsNextRoot (D.disk device.new).seen plan.now generation entries.now root new) }
        ensures keeps { Keeps plan.now generation entries.now (D.disk device.old) self.old
            (D.disk device.new) self.new }
        ensures cause { Counts (D.disk device.old) (D.disk device.new) result }
    {
        self.complete_slots(device, plan, generation, entries)?;
        next_root(device, plan, generation, entries, root)
    }
}
