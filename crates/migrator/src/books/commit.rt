// The commit of a checkpoint.
ghost use Rattle.std.specs.Prelude.{◌≡◌, ℕ};
ghost use Rattle.layout.specs.Header.{IsHeader};
ghost use Rattle.layout.specs.Version.{row};
ghost use Rattle.migrator.specs.Durable.{Commits, next_header};
ghost use Rattle.migrator.specs.Saving.{MayCommitAt};

use crate::books::Books;
use crate::directory::Directory;
use device::{Device, Failed};
use layout::CheckpointHeader;

impl Books {
    // Returns the header that commits the frozen frames at an age.
    #[tactic(auto, using(layout::proofs::Versions::first_few))]
    fn next_header(&self, age: u64) -> CheckpointHeader
        requires { IsHeader (row self.now.plan.version).first_sequence self.now.plan.geometry.log self.now.header }
        ensures { result ≡ next_header age self.now }
    {
        CheckpointHeader {
            sequence: self.header.sequence + 1,
            generation: self.header.generation + 1,
            entries: self.frozen.taken(),
            age,
        }
    }

    /// Commits the frozen checkpoint. All its frames must be in the log.
    pub(crate) fn commit<D: Device>(
        &mut self,
        device: &mut D,
        spare: &mut Directory,
        age: u64,
    ) -> Result<(), Failed>
        requires { (size : ℕ) × MayCommitAt (D.disk device.old) self.old size age }
        ensures { Commits (D.disk device.old) (D.disk device.new) self.old self.new age result }
    {
        let header = self.next_header(age);
        spare.fill(&self.frozen);
        let root = self.unwritten.complete(
            device,
            &self.plan,
            header.generation,
            spare.as_slice(),
            self.root,
        )?;
        self.adopt(device, header, root, spare)
    }
}
