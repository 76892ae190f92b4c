// Changing the committed header: every publish goes through `adopt`.
ghost use Rattle.std.specs.Prelude.{◌≡◌, OnOk, OnErr};
ghost use Rattle.migrator.specs.Durable.{Publishes, stored_on};
ghost use Rattle.migrator.specs.Saving.{MayAdopt, adopted};

use crate::books::Books;
use crate::directory::Directory;
use ckpt_log::Log;
use device::{Device, Failed};
use layout::{CheckpointHeader, SealedHeader};
use seal::Sums;
use std::mem;

impl Books {
    /// Writes `entries` as the directory of `next`, commits `next` with this root and the directory's sums, and makes it
    /// the header of these books. After `Failed` the books are unchanged, and a crash leaves what was saved before, or
    /// what `next` saves.
    pub(crate) fn adopt<D: Device>(
        &mut self,
        device: &mut D,
        next: CheckpointHeader,
        root: Sums,
        entries: &mut Directory,
    ) -> Result<(), Failed>
        requires { MayAdopt (D.disk device.old) self.old next root entries.old }
        ensures publishes { Publishes (D.disk device.old) (D.disk device.new) self.old self.new
            (stored_on (D.disk device.old) (adopted next root entries.old self.old)) result }
        ensures adopted { OnOk result (self.new ≡ adopted next root entries.old self.old) }
        ensures unchanged { OnErr result (self.new ≡ self.old) }
    {
        let log = Log::new(&self.plan);
        let directory = log.store_directory(device, next.generation, entries.as_slice())?;
        let header = SealedHeader {
            header: next,
            root,
            directory,
        };
        log.commit(device, header)?;
        mem::swap(&mut self.directory, entries);
        self.header = next;
        self.root = root;
        self.moved = 0;
        self.frozen_size = None;
        self.frozen.clear();
        Ok(())
    }
}
