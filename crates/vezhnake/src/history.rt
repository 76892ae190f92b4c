// The history of the host's storage, which only contracts read.
ghost use Rattle.std.specs.Prelude.{◌≡◌, ℕ, List};
ghost use Rattle.std.specs.Borrow.{ftrue};
ghost use Rattle.std.specs.Coded.{coded_list};
ghost use Rattle.devices.specs.Past.{Event};
ghost use Rattle.devices.specs.Codes.{coded_event};
ghost use Rattle.vezhnake.specs.HostCalls.{HostCall};
ghost use Rattle.vezhnake.specs.Codes.{coded_call};

use std::marker::Model;

/// The history of the host's storage: its bytes when the image was opened, the calls recorded since, the events that
/// weren't recorded because a call failed, and how many calls failed. It takes no memory at run time.
#[derive(Drop)]
pub struct History {
    pub ghost first: { List ℕ },
    pub ghost calls: { List HostCall } by { coded_list coded_call },
    pub ghost lost: { List Event } by { coded_list coded_event },
    pub ghost failures: { ℕ },
}

impl Model for History {
    ghost also_owns = { λ _. ftrue };
}

/// An event of the host's storage.
#[derive(Clone, Copy, Drop)]
pub enum Step<'a> {
    /// The write of these sectors from `at` on was recorded.
    Write { at: u64, bytes: &'a [u8] },
    /// A sync was recorded.
    Sync,
    /// A power cut was recorded.
    Cut,
    /// The write of these sectors from `at` on failed.
    LostWrite { at: u64, bytes: &'a [u8] },
    /// A sync failed.
    LostSync,
    /// A power cut was not recorded.
    LostCut,
}

impl History {
    ghost use Rattle.vezhnake.specs.Steps.{fresh, stepped};

    /// Returns the history of storage that holds these bytes, before any event.
    pub fn new(_bytes: &[u8]) -> History
        ensures { result ≡ fresh _bytes.now }
    {
        History {}
    }

    /// Returns the history with one more event.
    pub fn then(&self, _step: &Step<'_>) -> History
        ensures { result ≡ stepped self.now _step.now }
    {
        History {}
    }
}
