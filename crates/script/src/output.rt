// Where text is written.
ghost use Rattle.std.specs.Prelude.{◌≡◌, ℕ, List, [], OnOk};
ghost use Rattle.script.specs.Writing.{Writes, Written};

use crate::fault::RunFault;

/// A writer that may keep bytes in a buffer until `pass_on`, and counts its failed calls.
pub trait Output {
    // The bytes that were accepted, and how many calls have failed.
    ghost written: { Self → Written };

    // The bytes that were accepted but not passed on.
    ghost waiting: { Self → List ℕ };

    /// Writes all of the text. Repeats an interrupted write.
    ///
    /// Returns `RunFault::Write` if the writer fails or accepts no bytes; then it accepted only a beginning of the
    /// text.
    fn write_fully(&mut self, text: &[u8]) -> Result<(), RunFault>
        ensures { Writes (written self.old) (written self.new) result text.now };

    /// Passes on all accepted bytes. Returns `RunFault::Write` if that fails.
    fn pass_on(&mut self) -> Result<(), RunFault>
        ensures bytes { Writes (written self.old) (written self.new) result [] }
        ensures none_waits { OnOk result (waiting self.new ≡ []) };
}
