// Reading the saved, frozen and working frames.
ghost use Rattle.std.specs.Prelude.{◌≡◌, ◌≤◌, IfOk};
ghost use Rattle.device.specs.Calls.{Counts};
ghost use Rattle.layout.specs.Frame.{frame_of};
ghost use Rattle.model.specs.Frame.{frame_at};
ghost use Rattle.layout.specs.Calls.{ReadsOnly};
ghost use Rattle.layout.specs.Frames.{IsObject};
ghost use Rattle.migrator.specs.Durable.{IsDurable, below_at, frozen_generation, newest, seen_by, stored_on};
ghost use Rattle.migrator.specs.Put.{slot_frame};
ghost use Rattle.migrator.specs.Table.{place_at};

use crate::books::Books;
use crate::read::{read_again, read_put};
use crate::table::Place;
use ckpt_log::Log;
use device::{Device, Failed};
use layout::{Body, Scratch};
use model::ObjectHeader;

impl Books {
    // Reads the saved frame of an object.
    fn fetch_saved<D: Device>(
        &self,
        device: &mut D,
        number: u64,
        scratch: &mut Scratch,
    ) -> Result<(ObjectHeader, Body), Failed>
        requires stands { IsDurable (D.disk device.old) self.now }
        requires object { IsObject self.now.plan.geometry number }
        ensures found { IfOk result (λ read. frame_of read scratch.new
            ≡ frame_at (stored_on (D.disk device.old) self.now).saved.frames number) }
        ensures reads { ReadsOnly (D.disk device.old) (D.disk device.new) }
        ensures cause { Counts (D.disk device.old) (D.disk device.new) result }
    {
        let named = self.directory.as_slice();
        read_again(device, &self.plan, self.header, named, number, scratch)
    }

    // Reads the frozen frame of an object from its slot, or from memory if the device failed to write the cluster in
    // this slot.
    fn read_frozen<D: Device>(
        &self,
        device: &mut D,
        slot: u64,
        number: u64,
        scratch: &mut Scratch,
    ) -> Result<(ObjectHeader, Body), Failed>
        requires stands { IsDurable (D.disk device.old) self.now }
        requires object { IsObject self.now.plan.geometry number }
        requires place { place_at self.now.frozen number ≡ Place.Whole slot }
        ensures found { IfOk result (λ read. frame_of read scratch.new
            ≡ slot_frame (seen_by (D.disk device.old).seen self.now) self.now.plan
            (frozen_generation self.now) slot number) }
        ensures reads { ReadsOnly (D.disk device.old) (D.disk device.new) }
        ensures cause { Counts (D.disk device.old) (D.disk device.new) result }
    {
        let generation = self.header.generation + 1;
        let log = Log::new(&self.plan);
        let sector = log.slot_sector(generation, slot);
        if self.unwritten.is_for(sector) {
            let shape = self.plan.shape(number);
            return Ok(
                self.unwritten
                    .read(shape, self.plan.geometry(), number, scratch),
            );
        }
        read_put(device, &self.plan, generation, slot, number, scratch)
    }

    /// Reads the frozen frame of an object if it is in the log, else the saved one. Puts the slots of a node
    /// or an annex and the words of a page into `scratch`. Doesn't allocate.
    pub(crate) fn fetch_below<D: Device>(
        &self,
        device: &mut D,
        number: u64,
        scratch: &mut Scratch,
    ) -> Result<(ObjectHeader, Body), Failed>
        requires stands { IsDurable (D.disk device.old) self.now }
        requires object { IsObject self.now.plan.geometry number }
        ensures found { IfOk result (λ read. frame_of read scratch.new
            ≡ below_at (stored_on (D.disk device.old) self.now) number) }
        ensures reads { ReadsOnly (D.disk device.old) (D.disk device.new) }
        ensures cause { Counts (D.disk device.old) (D.disk device.new) result }
    {
        match self.frozen.place(number) {
            Place::Whole(slot) => self.read_frozen(device, slot, number, scratch),
            Place::Torn(_) => self.fetch_saved(device, number, scratch),
            Place::Nowhere => self.fetch_saved(device, number, scratch),
        }
    }

    /// Reads the newest frame of an object: the working one if there is one, else the frozen one, else the saved one.
    pub(crate) fn fetch<D: Device>(
        &self,
        device: &mut D,
        number: u64,
        scratch: &mut Scratch,
    ) -> Result<(ObjectHeader, Body), Failed>
        requires stands { IsDurable (D.disk device.old) self.now }
        requires object { IsObject self.now.plan.geometry number }
        ensures found { IfOk result (λ read. frame_of read scratch.new
            ≡ newest (stored_on (D.disk device.old) self.now) number) }
        ensures reads { ReadsOnly (D.disk device.old) (D.disk device.new) }
        ensures cause { Counts (D.disk device.old) (D.disk device.new) result }
    {
        let generation = self.working_generation();
        match self.working.place(number) {
            Place::Whole(slot) => read_put(device, &self.plan, generation, slot, number, scratch),
            Place::Torn(_) => self.fetch_below(device, number, scratch),
            Place::Nowhere => self.fetch_below(device, number, scratch),
        }
    }
}
