// Observers of runs.
ghost use Rattle.std.specs.Prelude.{◌≡◌, Bool, true, false, IfSome, option_map};
ghost use Rattle.model.specs.declared.geometry.Geometry.{Geometry};
ghost use Rattle.model.specs.Run.{BadLine, Nothing, Reported, Turn};
ghost use Rattle.model.specs.Text.{Says};
ghost use Rattle.kernel.specs.Standing.{reported_code};
ghost use Rattle.script.specs.Lines.{IsTextOf};

use model::{Answer, Command, Line, ResultCode};

/// An observer sees each turn of a run, and decides whether the run goes on after it.
pub trait Observer {
    // How the observer changes when it sees a turn of a machine of this geometry. The flag says whether the run
    // goes on.
    ghost sees: { Geometry → Turn → Self → Self → Bool → Type 0 };

    // Whether the observer can end a run.
    ghost may_end: { Bool };

    /// Sees a skipped line. Returns whether the run goes on, as the next two functions do.
    fn skip(&mut self) -> bool
        ensures seen { (g : Geometry) (t : Turn) → t.reply ≡ Nothing → sees g t self.old self.new result }
        ensures goes_on { may_end ≡ false → result ≡ true };

    /// Sees a bad line. `text` is the line, or `None` if it has more than 256 bytes.
    fn bad(&mut self, text: Option<&[u8]>) -> bool
        requires { IfSome text (λ t. Says t.now Line.Bad) }
        ensures seen { (g : Geometry) (t : Turn) → IsTextOf (option_map (λ x. x.now) text.entry) t.line
            → t.reply ≡ BadLine → sees g t self.old self.new result }
        ensures goes_on { may_end ≡ false → result ≡ true };

    /// Sees a command and its answer. If the command was an invocation of a kernel object, `code` is the
    /// order's result code.
    fn answer(&mut self, command: &Command, answer: &Answer, code: Option<ResultCode>) -> bool
        ensures seen { (g : Geometry) (t : Turn) → Says t.line (Line.Command command.now)
            → t.reply ≡ Reported answer.now → reported_code g t.before command.now answer.now ≡ code
            → sees g t self.old self.new result }
        ensures goes_on { may_end ≡ false → result ≡ true };
}

/// An observer that ignores all turns, and never ends a run.
#[derive(Clone, Copy)]
pub struct Silent;

impl Observer for Silent {
    ghost sees = { λ g t old new on. on ≡ true };

    ghost may_end = { false };

    #[inline(always)]
    fn skip(&mut self) -> bool {
        true
    }

    #[inline(always)]
    fn bad(&mut self, _text: Option<&[u8]>) -> bool {
        true
    }

    #[inline(always)]
    fn answer(&mut self, _command: &Command, _answer: &Answer, _code: Option<ResultCode>) -> bool {
        true
    }
}
