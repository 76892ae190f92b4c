// The observer of a shell's lines.
ghost use Rattle.std.specs.Prelude.{◌≡◌, ◌≤◌, None, false, length};
ghost use Rattle.shell.specs.Watching as watching;
ghost use Rattle.shell.specs.Watching.{NotesRemark, Watches, remark_text};

use model::{Answer, Command, ResultCode};
use runs::{Observer, Unsaved, add_code, fault_of};
use script::{LineFault, LineText, Output};

/// A shell's remark about a line, besides the answer.
#[derive(Clone, Copy)]
pub(crate) enum Remark {
    /// The line is bad, for this reason.
    Fault(LineFault),
    /// The order had this result code.
    Code(ResultCode),
    /// `migrate` had nothing to copy, and some invocations or stores are not committed.
    Uncommitted,
}

/// Observes the lines of a shell. It never ends a run.
#[derive(Clone, Copy)]
pub(crate) struct Watch {
    /// What isn't committed.
    pub(crate) unsaved: Unsaved,
    /// The remark about the last line, if there is one.
    pub(crate) remark: Option<Remark>,
}

impl Remark {
    fn line(self) -> LineText
        ensures text { result ≡ remark_text self }
        ensures short { length result ≤ 100 }
    {
        match self {
            Remark::Fault(fault) => {
                let mut line = LineText::new(b"reason:");
                fault.add_to(&mut line);
                line
            }
            Remark::Code(code) => {
                let mut line = LineText::new(b"result:");
                add_code(&mut line, code);
                line
            }
            Remark::Uncommitted => LineText::new(
                b"hint: migrate copies what is committed; some invocations or stores are not",
            ),
        }
    }
}

/// Writes the remark about a line, if there is one. Ignores failures to write.
pub(crate) fn note_remark<V: Output>(remark: Option<Remark>, notes: &mut V)
    ensures { NotesRemark remark (V.written notes.old) (V.written notes.new) }
{
    if let Some(remark) = remark {
        let _reported = remark.line().write_to(notes);
    }
}

// Whether a command and its answer say that `migrate` had nothing to copy.
fn migrates_nothing(command: &Command, answer: &Answer) -> bool
    ensures { result ≡ watching.migrates_nothing command.now answer.now }
{
    match (command, answer) {
        (Command::Migrate { .. }, Answer::Left(left)) => *left == 0,
        _ => false,
    }
}

// Returns the remark about a command. `unsaved` is what isn't committed.
fn remark_on(
    command: &Command,
    answer: &Answer,
    code: Option<ResultCode>,
    unsaved: Unsaved,
) -> Option<Remark>
    ensures { result ≡ watching.remark_on command.now answer.now code unsaved }
{
    if unsaved.is_some() && migrates_nothing(command, answer) {
        return Some(Remark::Uncommitted);
    }
    match code {
        Some(code) => Some(Remark::Code(code)),
        None => None,
    }
}

impl Watch {
    /// Returns an observer for the next line. `unsaved` is the uncommitted work of the lines before
    /// it.
    pub(crate) fn new(unsaved: Unsaved) -> Watch
        ensures unsaved { result.unsaved ≡ unsaved }
        ensures remark { result.remark ≡ None }
    {
        Watch {
            unsaved,
            remark: None,
        }
    }
}

impl Observer for Watch {
    ghost sees = { Watches };

    ghost may_end = { false };

    fn skip(&mut self) -> bool {
        self.remark = None;
        self.unsaved.skip()
    }

    fn bad(&mut self, text: Option<&[u8]>) -> bool {
        self.remark = Some(Remark::Fault(fault_of(text)));
        self.unsaved.bad(text)
    }

    fn answer(&mut self, command: &Command, answer: &Answer, code: Option<ResultCode>) -> bool {
        self.remark = remark_on(command, answer, code, self.unsaved);
        self.unsaved.answer(command, answer, code)
    }
}
