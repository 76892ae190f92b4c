// Saving the present state in a shell, and passing answers on.
ghost use Rattle.std.specs.Prelude.{◌≡◌, ◌≤◌, [], IfErr, OnOk, length};
ghost use Rattle.model.specs.Text.{line_of};
ghost use Rattle.script.specs.Writing.{Writes};
ghost use Rattle.shell.specs.Sessions.{IsPassedOn, SavesAll, saved_text};

use checkpoint::ObjectStore;
use device::Device;
use kernel::Kernel;
use model::{Answer, Refusal};
use runs::{Unsaved, commit_all, migrate_all};
use script::{LineText, Output, RunFault, refusal_line};

/// Saves the present state, as `eros run --save` does. Once the state is committed, `unsaved` records that
/// nothing is uncommitted.
pub(crate) fn save_all<D: Device, S: ObjectStore<D>>(
    kernel: &mut Kernel<D, S>,
    unsaved: &mut Unsaved,
) -> Result<Answer, Refusal>
    ensures { SavesAll D.disk S.view S.parts kernel.old kernel.new unsaved.old unsaved.new result }
{
    let committed = commit_all(kernel)?;
    *unsaved = Unsaved::new();
    migrate_all(kernel, committed)
}

/// Returns the line that answers a request to save.
pub(crate) fn saved_line(saved: Result<Answer, Refusal>) -> LineText
    ensures text { result ≡ saved_text saved }
    ensures short { length result ≤ 41 }
{
    match saved {
        Ok(_) => LineText::new(b"saved"),
        Err(refusal) => refusal_line(refusal),
    }
}

/// Writes a line and passes it on. Returns `RunFault::Write` if a call of the writer failed.
pub(crate) fn print_line<W: Output>(line: LineText, writer: &mut W) -> Result<(), RunFault>
    requires { length line ≤ 300 }
    ensures writes { Writes (W.written writer.old) (W.written writer.new) result (line_of line) }
    ensures none_waits { OnOk result (W.waiting writer.new ≡ []) }
{
    line.write_to(writer)?;
    writer.pass_on()
}

/// Passes on an answer, if it was written. `RunFault::Write` if that fails, or it wasn't written.
pub(crate) fn pass_on_if<W: Output>(
    answered: Result<(), RunFault>,
    writer: &mut W,
) -> Result<bool, RunFault>
    requires { IfErr answered (λ e. e ≡ RunFault.Write) }
    ensures passes { IsPassedOn answered (W.written writer.old) (W.written writer.new) result }
    ensures none_waits { OnOk result (W.waiting writer.new ≡ []) }
    ensures fault { IfErr result (λ e. e ≡ RunFault.Write) }
{
    match answered {
        Ok(()) => match writer.pass_on() {
            Ok(()) => Ok(true),
            Err(fault) => Err(fault),
        },
        Err(fault) => Err(fault),
    }
}
