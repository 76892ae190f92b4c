// What has been done to a file, for contracts only.
ghost use Rattle.std.specs.Prelude.{◌≡◌, ℕ, List};
ghost use Rattle.std.specs.Borrow.{ftrue};
ghost use Rattle.std.specs.Coded.{coded_list};
ghost use Rattle.devices.specs.Past.{Event};
ghost use Rattle.devices.specs.Codes.{coded_event};

use std::marker::Model;

/// What a file held when it was opened, all that was done to the file since, and how many calls have failed.
/// A history is ghost: it takes no bytes, however long it is.
#[derive(Drop)]
pub struct History {
    pub ghost first: { List ℕ },
    pub ghost events: { List Event } by { coded_list coded_event },
    pub ghost failures: { ℕ },
}

impl Model for History {
    ghost also_owns = { λ _. ftrue };
}

/// One step of a file's history.
#[derive(Clone, Copy, Drop)]
pub(crate) enum Step<'a> {
    /// The file was found to hold these bytes, after those already known.
    Held { bytes: &'a [u8] },
    /// These sectors are written from `at` on.
    Wrote { at: u64, bytes: &'a [u8] },
    /// All that was written is made durable.
    Synced,
    /// The power goes and comes back, and every byte is kept.
    Cut,
    /// A call fails.
    Failed,
}

impl History {
    ghost use Rattle.devices.specs.Steps.{fresh, stepped};

    /// The file holds these bytes, and nothing has been done to it.
    pub(crate) fn new(_bytes: &[u8]) -> History
        ensures { result ≡ fresh _bytes.now }
    {
        History {}
    }

    /// The history with one more step.
    pub(crate) fn then(&self, _step: &Step<'_>) -> History
        ensures { result ≡ stepped self.now _step.now }
    {
        History {}
    }
}
