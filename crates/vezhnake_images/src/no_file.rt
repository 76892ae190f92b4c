// The file beneath a device in memory.
ghost use Rattle.std.specs.Prelude.{◌≡◌};
ghost use Rattle.vezhnake.specs.Steps.{fresh};

use device::Failed;
use devices::SectorFile;
use vezhnake::{History, Step};

/// The file beneath a device in memory. It stores nothing, and none of its calls fails.
#[derive(Drop)]
pub struct NoFile {
    history: History,
    ghost sound: { history.failures ≡ 0 },
}

impl NoFile {
    /// Returns the file beneath a device that holds these bytes, before any call.
    pub fn new(bytes: &[u8]) -> NoFile
        ensures { result.history ≡ fresh bytes.now }
    {
        NoFile {
            history: History::new(bytes),
        }
    }
}

impl SectorFile for NoFile {
    ghost use Rattle.vezhnake.specs.HostCalls.{events_of};

    ghost first = { λ f. f.history.first };

    ghost events = { λ f. events_of f.history.calls };

    ghost failures = { λ f. f.history.failures };

    fn write(&mut self, at: u64, from: &[u8]) -> Result<(), Failed> {
        self.history = self.history.then(&Step::Write { at, bytes: from });
        Ok(())
    }

    fn sync(&mut self) -> Result<(), Failed> {
        self.history = self.history.then(&Step::Sync);
        Ok(())
    }

    fn power_cut(&mut self) {
        self.history = self.history.then(&Step::Cut);
    }
}
