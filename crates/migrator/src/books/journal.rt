// Journaling: saving one page without a checkpoint.
ghost use Rattle.std.specs.Prelude.{◌≡◌, ℕ, ◌≤◌, length, IfOk, OnOk};
ghost use Rattle.device.specs.Calls.{Counts};
ghost use Rattle.layout.specs.Frame.{IsFrameOf};
ghost use Rattle.layout.specs.Header.{IsHeader};
ghost use Rattle.layout.specs.Version.{row};
ghost use Rattle.model.specs.Frame.{frame_at};
ghost use Rattle.model.specs.declared.object.Role.TheVariants as role;
ghost use Rattle.layout.specs.Calls.{ReadsOnly};
ghost use Rattle.layout.specs.Frames.{IsObject};
ghost use Rattle.checkpoint.specs.Saved.{with_words};
ghost use Rattle.checkpoint.specs.Snapshots.{journaled, replaced};
ghost use Rattle.migrator.specs.Durable.{IsDurable, MayJournal, Publishes, Stays, first_bytes, first_frame};
ghost use Rattle.migrator.specs.Durable.{on_snapshots, replaced_header, stored_on};
ghost use Rattle.migrator.specs.Put.{IsSlotSummed};
ghost use Rattle.migrator.specs.Saving.{IsIdle, MayReplace};

use crate::books::Books;
use crate::directory::Directory;
use crate::next_root::next_root;
use ckpt_log::Log;
use device::{Device, Failed};
use home_ranges::Home;
use layout::{CheckpointHeader, Entry, read_header};
use model::ObjectHeader;

impl Books {
    /// Returns the header of an object's saved frame. All saved objects must be home. Reads the block of the
    /// frame. Doesn't allocate.
    pub(crate) fn saved_header<D: Device>(
        &self,
        device: &mut D,
        number: u64,
    ) -> Result<ObjectHeader, Failed>
        requires stands { IsDurable (D.disk device.old) self.now }
        requires object { IsObject self.now.plan.geometry number }
        requires home { self.now.header.entries ≡ 0 }
        ensures found { IfOk result (λ header. header
            ≡ (frame_at (stored_on (D.disk device.old) self.now).saved.frames number).header) }
        ensures reads { ReadsOnly (D.disk device.old) (D.disk device.new) }
        ensures cause { Counts (D.disk device.old) (D.disk device.new) result }
    {
        let home = Home::new(&self.plan);
        let at = home.place(number);
        read_header(device, at, self.plan.shape(number))
    }

    // Writes a page with new words, under its saved header, into the first slot of the log half that the saved
    // generation used.
    fn put_page<D: Device>(
        &self,
        device: &mut D,
        number: u64,
        header: ObjectHeader,
        words: &[u64],
    ) -> Result<(), Failed>
        requires idle { IsIdle (D.disk device.old) self.now }
        requires page { (frame_at (stored_on (D.disk device.old) self.now).saved.frames number).header.role
            ≡ role.Page }
        requires header { header
            ≡ (frame_at (stored_on (D.disk device.old) self.now).saved.frames number).header }
        requires words { length words.now ≡ 512 }
        ensures stays { Stays (D.disk device.old) (D.disk device.new) self.now self.now }
        ensures spelt { OnOk result ((age : ℕ) → self.now.header.age ≤ age
            → IsFrameOf self.now.plan.geometry age number
            (first_bytes (D.disk device.new).seen self.now number)
            (with_words words.now (frame_at (stored_on (D.disk device.old) self.now).saved.frames number))) }
        ensures summed { OnOk result (IsSlotSummed (D.disk device.new).seen self.now.plan
            self.now.header.generation 0 number) }
        ensures cause { Counts (D.disk device.old) (D.disk device.new) result }
    {
        let log = Log::new(&self.plan);
        log.write_page(device, self.header.generation, 0, number, header, words)
    }

    // Returns the header that saves one object with a new frame at an age.
    #[tactic(auto, using(layout::proofs::Versions::first_few))]
    fn replaced_header(&self, age: u64) -> CheckpointHeader
        requires { IsHeader (row self.now.plan.version).first_sequence self.now.plan.geometry.log self.now.header }
        ensures { result ≡ replaced_header age self.now }
    {
        CheckpointHeader {
            sequence: self.header.sequence + 1,
            generation: self.header.generation + 2,
            entries: 1,
            age,
        }
    }

    // Saves the frame of an object that was written into slot 0 of the log half that the saved generation
    // used.
    fn save_first<D: Device>(
        &mut self,
        device: &mut D,
        spare: &mut Directory,
        number: u64,
        age: u64,
    ) -> Result<(), Failed>
        requires { MayReplace (D.disk device.old) self.old number age }
        ensures { Publishes (D.disk device.old) (D.disk device.new) self.old self.new (on_snapshots
            (replaced age number (first_frame (D.disk device.old).seen self.old number))
            (stored_on (D.disk device.old) self.old)) result }
    {
        let header = self.replaced_header(age);
        spare.put_one(Entry {
            object: number,
            slot: 0,
        });
        let root = next_root(
            device,
            &self.plan,
            header.generation,
            spare.as_slice(),
            self.root,
        )?;
        self.adopt(device, header, root, spare)
    }

    /// Saves a page with new words, under its saved header. No checkpoint may be frozen, and all saved objects must
    /// be home.
    pub(crate) fn save_page<D: Device>(
        &mut self,
        device: &mut D,
        spare: &mut Directory,
        number: u64,
        header: ObjectHeader,
        words: &[u64],
        age: u64,
    ) -> Result<(), Failed>
        requires idle { IsIdle (D.disk device.old) self.old }
        requires may { MayJournal age number (stored_on (D.disk device.old) self.old).saved }
        requires header { header
            ≡ (frame_at (stored_on (D.disk device.old) self.old).saved.frames number).header }
        requires words { length words.now ≡ 512 }
        ensures { Publishes (D.disk device.old) (D.disk device.new) self.old self.new
            (on_snapshots (journaled age number words.now) (stored_on (D.disk device.old) self.old)) result }
    {
        self.put_page(device, number, header, words)?;
        self.save_first(device, spare, number, age)
    }
}
