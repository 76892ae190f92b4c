// The slots of the log.
ghost use Rattle.std.specs.Prelude.{◌≡◌, ◌<◌, ◌≤◌, length, IfOk, IfErr, OnOk};
ghost use Rattle.model.specs.declared.object.Content.TheVariants as content;
ghost use Rattle.device.specs.Calls.{Counts};
ghost use Rattle.layout.specs.Frame.{IsFrameOf, frame_bytes, frame_of, page_frame_bytes};
ghost use Rattle.layout.specs.Homes.{place_length, shape_of};
ghost use Rattle.layout.specs.Image.{bytes_at, sectors_from, slot_sector};
ghost use Rattle.layout.specs.Calls.{ReadsOnly, WritesAt};
ghost use Rattle.layout.specs.Shape.{HasZerosBeside};
ghost use Rattle.layout.specs.Fault.{CountsOpen};
ghost use Rattle.layout.specs.Frames.{IsObject, IsRefused};
ghost use Rattle.layout.specs.sealed.Summed.{IfSummed};
ghost use Rattle.model.specs.Frame.{content_behind};

use crate::log::Log;
use device::{Device, Failed};
use layout::{Body, OpenFault, Scratch, read_frame, write_frame, write_page};
use model::{Cap, ContentRef, ObjectHeader};

impl<'a> Log<'a> {
    /// Reads the frame of an object in a slot of the half of a generation. It puts the slots of a node
    /// or an annex and the words of a page into `scratch`, and allocates nothing.
    ///
    /// Returns `Failed` exactly if the device failed. Returns `BadFrame` exactly if the slot encodes no frame that an
    /// image of this age may hold. After either, `scratch` may hold any slots and words.
    pub fn read_slot<D: Device>(
        &self,
        device: &mut D,
        generation: u64,
        slot: u64,
        number: u64,
        age: u64,
        scratch: &mut Scratch,
    ) -> Result<(ObjectHeader, Body), OpenFault>
        requires object { IsObject self.now.geometry number }
        requires slot { slot < self.now.geometry.log }
        requires inside { self.now.total ≤ (D.disk device.old).sectors }
        ensures found { IfOk result (λ read. IsFrameOf self.now.geometry age number
            (bytes_at (D.disk device.new).seen (slot_sector self.now generation slot)
            self.now number) (frame_of read scratch.new)) }
        ensures refused { IfErr result (λ e. IsRefused self.now.geometry age number
            (bytes_at (D.disk device.new).seen (slot_sector self.now generation slot)
            self.now number) e) }
        ensures reads { ReadsOnly (D.disk device.old) (D.disk device.new) }
        ensures cause { CountsOpen (D.disk device.old) (D.disk device.new) result }
    {
        let at = self.slot_sector(generation, slot);
        let shape = self.shape(number);
        read_frame(device, at, shape, self.geometry(), number, age, scratch)
    }

    /// Writes the frame of an object into a slot of the half of a generation. All other bytes of its block
    /// become 0. All other sectors keep their bytes, and what a crash may leave in them doesn't change.
    ///
    /// Returns `Failed` exactly if the device failed; then the sectors of the shape may hold any bytes.
    pub fn write_slot<D: Device>(
        &self,
        device: &mut D,
        generation: u64,
        slot: u64,
        number: u64,
        header: ObjectHeader,
        content: ContentRef<'_>,
    ) -> Result<(), Failed>
        requires slot { slot < self.now.geometry.log }
        requires inside { self.now.total ≤ (D.disk device.old).sectors }
        ensures written { OnOk result (bytes_at (D.disk device.new).seen
            (slot_sector self.now generation slot) self.now number
            ≡ frame_bytes self.now.geometry number
            (record { header = header; content = content_behind content.entry })) }
        ensures beside { OnOk result (HasZerosBeside (shape_of self.now number)
            (sectors_from (D.disk device.new).seen (slot_sector self.now generation slot)
            (place_length self.now number))) }
        ensures summed { OnOk result (IfSummed (shape_of self.now number)
            (sectors_from (D.disk device.new).seen (slot_sector self.now generation slot)
            (place_length self.now number))) }
        ensures writes { WritesAt (slot_sector self.now generation slot)
            (place_length self.now number) (D.disk device.old) (D.disk device.new) }
        ensures cause { Counts (D.disk device.old) (D.disk device.new) result }
    {
        let at = self.slot_sector(generation, slot);
        let shape = self.shape(number);
        write_frame(device, at, shape, self.geometry(), number, header, content)
    }

    /// Writes the frame of a page with these words into a slot of the half of a generation, with sums if its shape has
    /// them. All other sectors keep their bytes, and what a crash may leave in them doesn't change.
    ///
    /// Returns `Failed` exactly if the device failed; then the 9 sectors may hold any bytes.
    pub fn write_page<D: Device>(
        &self,
        device: &mut D,
        generation: u64,
        slot: u64,
        number: u64,
        header: ObjectHeader,
        words: &[u64],
    ) -> Result<(), Failed>
        requires slot { slot < self.now.geometry.log }
        requires page { self.now.geometry.nodes ≤ number }
        requires words { length words.now ≡ 512 }
        requires inside { self.now.total ≤ (D.disk device.old).sectors }
        ensures written { OnOk result (bytes_at (D.disk device.new).seen
            (slot_sector self.now generation slot) self.now number
            ≡ page_frame_bytes (record { header = header; content = content.Page words.now })) }
        ensures summed { OnOk result (IfSummed (shape_of self.now number)
            (sectors_from (D.disk device.new).seen (slot_sector self.now generation slot)
            (place_length self.now number))) }
        ensures writes { WritesAt (slot_sector self.now generation slot) 9
            (D.disk device.old) (D.disk device.new) }
        ensures cause { Counts (D.disk device.old) (D.disk device.new) result }
    {
        let at = self.slot_sector(generation, slot);
        let shape = self.shape(number);
        write_page(device, at, shape, header, words)
    }
}
