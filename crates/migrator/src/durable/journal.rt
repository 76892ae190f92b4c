// Journaling: saving one page without a checkpoint.
ghost use Rattle.std.specs.Prelude.{◌≡◌, ◌+◌, None, IfOk, OnOk, OnErr};
ghost use Rattle.device.specs.Calls.{Counts};
ghost use Rattle.model.specs.Frame.{frame_at};
ghost use Rattle.layout.specs.Frames.{IsObject};
ghost use Rattle.checkpoint.specs.Saved.{LeavesEither, journaled_saved};
ghost use Rattle.checkpoint.specs.Snapshots.{journaled};
ghost use Rattle.migrator.specs.Durable.{stored_of, is_sound, MayJournal, ReadsStore, on_snapshots};

use crate::durable::Durable;
use device::{Device, Failed};
use model::{ObjectHeader, WORDS};

impl<D: Device> Durable<D> {
    /// Returns the header of an object's saved frame. All saved objects must be home. Reads one sector, or
    /// the 8 of a cluster. Doesn't allocate. Fails exactly if the device failed.
    pub fn saved_header(&mut self, number: u64) -> Result<ObjectHeader, Failed>
        requires object { IsObject self.old.books.plan.geometry number }
        requires home { (stored_of D.disk self.old).saved.entries ≡ 0 }
        ensures found { IfOk result (λ header. header
            ≡ (frame_at (stored_of D.disk self.old).saved.frames number).header) }
        ensures reads { ReadsStore D.disk self.old self.new }
        ensures cause { Counts (D.disk self.old.beneath) (D.disk self.new.beneath) result }
    {
        self.books.saved_header(&mut self.device, number)
    }

    /// Saves a page with new words, at an age, under its saved header (`saved_header`). No checkpoint may be
    /// frozen, and all saved objects must be home. Returns the new generation, which is the saved one plus 2;
    /// the page is its only entry. Doesn't allocate. Fails exactly if the device does; then a crash leaves
    /// what was saved before, or the same with the page's new words.
    pub fn save_page(
        &mut self,
        number: u64,
        header: ObjectHeader,
        words: &[u64; WORDS],
        age: u64,
    ) -> Result<u64, Failed>
        requires free { (stored_of D.disk self.old).frozen ≡ None }
        requires home { (stored_of D.disk self.old).saved.entries ≡ 0 }
        requires may { MayJournal age number (stored_of D.disk self.old).saved }
        requires header { header ≡ (frame_at (stored_of D.disk self.old).saved.frames number).header }
        requires sound { is_sound D.disk self.old }
        ensures journaled { OnOk result (stored_of D.disk self.new
            ≡ on_snapshots (journaled age number words.now) (stored_of D.disk self.old)) }
        ensures unchanged { OnErr result (stored_of D.disk self.new ≡ stored_of D.disk self.old) }
        ensures plan { self.new.books.plan ≡ self.old.books.plan }
        ensures generation { IfOk result (λ generation. generation
            ≡ (stored_of D.disk self.old).saved.generation + 2) }
        ensures sound { OnOk result (is_sound D.disk self.new) }
        ensures size { (D.disk self.new.beneath).sectors ≡ (D.disk self.old.beneath).sectors }
        ensures any_moment { LeavesEither (D.disk self.old.beneath) (D.disk self.new.beneath)
            (stored_of D.disk self.old).saved
            (journaled_saved age number words.now (stored_of D.disk self.old).saved) }
        ensures cause { Counts (D.disk self.old.beneath) (D.disk self.new.beneath) result }
    {
        let (books, device) = (&mut self.books, &mut self.device);
        books.save_page(device, &mut self.spare, number, header, &words[..], age)?;
        Ok(self.books.header.generation)
    }
}
