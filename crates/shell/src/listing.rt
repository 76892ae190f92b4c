// Listing the objects of an image.
ghost use Rattle.std.specs.Prelude.{◌≡◌, ◌≤◌, [], OnOk, length};
ghost use Rattle.runs.specs.Saving.{CarriesOut};
ghost use Rattle.script.specs.Writing.{Writes};
ghost use Rattle.shell.specs.Listing.{Lists, end_text, listed_text, role_text, shown_text};

use crate::saving::print_line;
use checkpoint::ObjectStore;
use device::Device;
use kernel::Kernel;
use model::{Answer, Command, Description, Refusal, Role};
use script::{LineText, Output, RunFault, refusal_line};

// The greatest number of objects in an image.
const MOST_OBJECTS: u64 = 8192;

// Returns the word for the kind of object with this role.
fn role_word(role: Role) -> &'static [u8]
    ensures word { result.now ≡ role_text role }
    ensures short { length result.now ≤ 7 }
{
    match role {
        Role::Free => b"free",
        Role::Page => b"page",
        Role::Node => b"node",
        Role::Root => b"process",
        Role::Annex => b"annex",
        Role::Bank => b"bank",
    }
}

// Writes the line of an object, or nothing for a free number.
fn print_listed<W: Output>(shown: &Description, writer: &mut W) -> Result<(), RunFault>
    ensures { Writes (W.written writer.old) (W.written writer.new) result (listed_text shown.now) }
{
    let role = shown.object.content.role();
    if role == Role::Free {
        return Ok(());
    }
    let mut line = LineText::numbered(role_word(role), shown.number);
    line.named(b"owner", shown.object.owner);
    line.write_to(writer)
}

// Writes the line of the object in an answer to `show`.
fn print_shown<W: Output>(answer: &Answer, writer: &mut W) -> Result<(), RunFault>
    ensures { Writes (W.written writer.old) (W.written writer.new) result (shown_text answer.now) }
{
    match answer {
        Answer::Shown(shown) => print_listed(shown.get(), writer),
        _ => Ok(()),
    }
}

// Ends a list after a refused `show`. Writes the refusal, unless the number is beyond the last.
fn print_end<W: Output>(refusal: Refusal, writer: &mut W) -> Result<(), RunFault>
    ensures writes { Writes (W.written writer.old) (W.written writer.new) result (end_text refusal) }
    ensures none_waits { OnOk result (W.waiting writer.new ≡ []) }
{
    match refusal {
        Refusal::BadNumber => writer.pass_on(),
        _ => print_line(refusal_line(refusal), writer),
    }
}

// Carries out `show`. Returns its answer; a refusal is an error.
fn shown<D: Device, S: ObjectStore<D>>(
    kernel: &mut Kernel<D, S>,
    number: u64,
) -> Result<Answer, Refusal>
    ensures { CarriesOut D.disk S.view S.parts kernel.old (Command.Show number) kernel.new result }
{
    let answer = kernel.step(Command::Show { number });
    if let Answer::Refused(refusal) = answer {
        return Err(refusal);
    }
    Ok(answer)
}

/// Writes a line for each object, from number 0 on: its kind, number and owner. Ends when `show` is refused. If
/// that is before the last number, the last line is the refusal.
pub(crate) fn list<D: Device, S: ObjectStore<D>, W: Output>(
    kernel: &mut Kernel<D, S>,
    writer: &mut W,
) -> Result<(), RunFault>
    ensures lists { Lists D.disk S.view S.parts kernel.old kernel.new (W.written writer.old) (W.written writer.new) result }
    ensures none_waits { OnOk result (W.waiting writer.new ≡ []) }
{
    for number in 0..MOST_OBJECTS {
        match shown(kernel, number) {
            Ok(answer) => print_shown(&answer, writer)?,
            Err(refusal) => return print_end(refusal, writer),
        }
    }
    writer.pass_on()
}
