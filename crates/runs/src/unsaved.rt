// Recording whether a run did something that isn't committed.
ghost use Rattle.std.specs.Prelude.{◌≡◌, ◌||◌, false};
ghost use Rattle.runs.specs.Unsaved.{Notes, nothing_unsaved};

use crate::observer::Observer;
use model::{Answer, Command, ResultCode};

/// An observer that records whether there are uncommitted invocations and stores. It never ends a run.
#[derive(Clone, Copy)]
pub struct Unsaved {
    // Whether there are uncommitted invocations or stores since the last checkpoint or restart.
    present: bool,
    // Whether there are some before the last checkpoint, because it isn't committed.
    frozen: bool,
}

impl Unsaved {
    /// Returns an observer that has seen nothing.
    pub fn new() -> Unsaved
        ensures { result ≡ nothing_unsaved }
    {
        Unsaved {
            present: false,
            frozen: false,
        }
    }

    /// Whether there are uncommitted invocations or stores.
    pub fn is_some(&self) -> bool
        ensures { result ≡ self.now.present || self.now.frozen }
    {
        self.present || self.frozen
    }
}

impl Observer for Unsaved {
    ghost sees = { Notes };

    ghost may_end = { false };

    fn skip(&mut self) -> bool {
        true
    }

    fn bad(&mut self, _text: Option<&[u8]>) -> bool {
        true
    }

    fn answer(&mut self, command: &Command, answer: &Answer, _code: Option<ResultCode>) -> bool {
        match answer {
            Answer::Done => {
                if !matches!(command, Command::Evict { .. }) {
                    self.present = true;
                }
            }
            Answer::Frozen(_) => {
                self.frozen = self.present;
                self.present = false;
            }
            Answer::Committed(_) => self.frozen = false,
            Answer::At { .. } => *self = Unsaved::new(),
            _ => {}
        }
        true
    }
}
