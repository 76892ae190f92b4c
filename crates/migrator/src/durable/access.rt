// Reads a store's sizes, directory and frames, and returns its device.
ghost use Rattle.std.specs.Prelude.{◌≡◌, ◌+◌, ◌≤◌, IfOk, option_map};
ghost use Rattle.device.specs.Calls.{Counts};
ghost use Rattle.layout.specs.Frame.{frame_of};
ghost use Rattle.layout.specs.Frames.{IsObject};
ghost use Rattle.migrator.specs.Durable.{below_at, stored_of, newest, left_of, ReadsStore};

use crate::durable::Durable;
use checkpoint::Checkpoint;
use device::{Device, Failed};
use layout::{Body, Entry, Scratch, Superblock};
use model::{Geometry, ObjectHeader};

impl<D: Device> Durable<D> {
    /// Returns how many nodes, pages and log slots there are.
    pub fn geometry(&self) -> Geometry
        ensures geometry { result ≡ (stored_of D.disk self.now).saved.geometry }
        ensures few { result.nodes + result.pages ≤ 8192 }
    {
        self.books.plan.geometry()
    }

    /// The superblock of the device.
    pub fn superblock(&self) -> &Superblock
        ensures { result.now ≡ self.now.books.plan }
    {
        &self.books.plan
    }

    /// The directory of the committed checkpoint: its objects, and the log slots with their frames.
    pub fn directory(&self) -> &[Entry]
        ensures { result.now ≡ self.now.books.directory }
    {
        self.books.directory.as_slice()
    }

    /// Returns how many frozen frames aren't in the log yet, or `None` if no checkpoint is frozen.
    pub fn left(&self) -> Option<u64>
        ensures { result ≡ option_map left_of (stored_of D.disk self.now).frozen }
    {
        self.books.left()
    }

    /// The generation, the age and the number of entries of the committed checkpoint.
    pub fn saved(&self) -> Checkpoint
        ensures generation { result.generation ≡ (stored_of D.disk self.now).saved.generation }
        ensures age { result.age ≡ (stored_of D.disk self.now).saved.age }
        ensures entries { result.entries ≡ (stored_of D.disk self.now).saved.entries }
    {
        Checkpoint {
            generation: self.books.header.generation,
            age: self.books.header.age,
            entries: self.books.header.entries,
        }
    }

    /// Returns the device, and makes no call on it.
    pub fn device(&self) -> &D
        ensures { result.now ≡ self.now.beneath }
    {
        &self.device
    }

    /// Returns the device, and makes no call on it. All else is dropped.
    pub fn into_device(self) -> D
        ensures { result ≡ self.beneath }
    {
        let Durable {
            device,
            books,
            spare,
        } = self;
        drop(books);
        drop(spare);
        device
    }

    /// Reads the newest frame of an object that isn't a working one: the frozen one if it is in the log, else
    /// the saved one. Puts the slots of a node or an annex and the words of a page into `scratch`. Doesn't
    /// allocate. Fails exactly if the device failed.
    pub fn fetch_below(
        &mut self,
        number: u64,
        scratch: &mut Scratch,
    ) -> Result<(ObjectHeader, Body), Failed>
        requires { IsObject self.old.books.plan.geometry number }
        ensures found { IfOk result (λ read. frame_of read scratch.new
            ≡ below_at (stored_of D.disk self.old) number) }
        ensures reads { ReadsStore D.disk self.old self.new }
        ensures cause { Counts (D.disk self.old.beneath) (D.disk self.new.beneath) result }
    {
        self.books.fetch_below(&mut self.device, number, scratch)
    }

    /// Reads the newest frame of an object: the working one if there is one, else the frozen one, else the
    /// saved one. Puts the slots of a node or an annex and the words of a page into `scratch`. Doesn't
    /// allocate. Fails exactly if the device failed.
    pub fn fetch(
        &mut self,
        number: u64,
        scratch: &mut Scratch,
    ) -> Result<(ObjectHeader, Body), Failed>
        requires { IsObject self.old.books.plan.geometry number }
        ensures found { IfOk result (λ read. frame_of read scratch.new
            ≡ newest (stored_of D.disk self.old) number) }
        ensures reads { ReadsStore D.disk self.old self.new }
        ensures cause { Counts (D.disk self.old.beneath) (D.disk self.new.beneath) result }
    {
        self.books.fetch(&mut self.device, number, scratch)
    }
}
