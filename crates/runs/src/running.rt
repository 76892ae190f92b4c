// Runs of scripts over a kernel.
ghost use Rattle.std.specs.Prelude.{◌≡◌, ◌≢◌, ◌++◌, ℕ, List, [], option_map, take};
ghost use Rattle.std.specs.Prelude.{OnOk, IfErr, IfOk, IsErrOf, IfSome, false, true};
ghost use Rattle.model.specs.declared.geometry.Geometry.{Geometry};
ghost use Rattle.model.specs.Machine.{Machine};
ghost use Rattle.model.specs.Run.{lines_of};
ghost use Rattle.kernel.specs.Power.{Power};
ghost use Rattle.kernel.specs.Standing.{Stands};
ghost use Rattle.model.specs.Text.{Says};
ghost use Rattle.script.specs.Lines.{Holds, IsTextOf};
ghost use Rattle.script.specs.Writing.{Written};
ghost use Rattle.runs.specs.KernelRuns.{BeginsWith, IsConfined, IsCounted, RunsOver, RunsSeen};
ghost use Rattle.runs.specs.OneLine.{RunsLine};
ghost use Rattle.runs.specs.Taking.{Ended, SoFar, Stopped, TakesLine, TakesTurn};

use crate::observer::{Observer, Silent};
use crate::script_pieces::{Piece, Script};
use checkpoint::ObjectStore;
use device::Device;
use kernel::Kernel;
use memchr::memchr;
use model::Line;
use script::{LineBuffer, Output, RunFault, parse_line, print_answer, print_bad_line};

// The size of the buffer for one read, in bytes.
const PIECE_SIZE: usize = 4096;

// Carries out a parsed line, shows the turn to the observer, and writes the answer. Returns whether the observer lets
// the run go on. `text` is the line, or `None` if it is too long.
#[inline(never)]
fn take<D: Device, S: ObjectStore<D>, W: Output, O: Observer>(
    kernel: &mut Kernel<D, S>,
    text: Option<&[u8]>,
    line: &Line,
    writer: &mut W,
    observer: &mut O,
) -> Result<bool, RunFault>
    requires { IfSome text (λ t. Says t.now line.now) }
    ensures turn { (g : Geometry) (m : Machine) (whole : List ℕ) → Stands D.disk S.view S.parts g kernel.old m
        → IsTextOf (option_map (λ t. t.now) text.entry) whole → Says whole line.now
        → TakesTurn D.disk S.view S.parts O.sees g m whole line.now kernel.old kernel.new observer.old observer.new
        (W.written writer.old) (W.written writer.new) result }
    ensures goes_on { IfOk result (λ on. O.may_end ≡ false → on ≡ true) }
    ensures fault { IfErr result (λ e. e ≡ RunFault.Write) }
{
    match line {
        Line::Skip => Ok(observer.skip()),
        Line::Bad => {
            let goes_on = observer.bad(text);
            print_bad_line(writer)?;
            Ok(goes_on)
        }
        Line::Command(command) => {
            let served = kernel.step_with_code(command);
            let goes_on = observer.answer(command, &served.answer, served.code);
            print_answer(&served.answer, writer)?;
            Ok(goes_on)
        }
    }
}

// Carries out a line, then clears `line`. The line is what `line` holds and then `bytes`.
#[inline(always)]
fn take_line<D: Device, S: ObjectStore<D>, W: Output, O: Observer>(
    kernel: &mut Kernel<D, S>,
    line: &mut LineBuffer,
    bytes: &[u8],
    writer: &mut W,
    observer: &mut O,
) -> Result<bool, RunFault>
    ensures turn { (g : Geometry) (m : Machine) (held : List ℕ) → Stands D.disk S.view S.parts g kernel.old m
        → Holds line.old held
        → TakesLine D.disk S.view S.parts O.sees g m (held ++ bytes.now) kernel.old kernel.new observer.old observer.new
        (W.written writer.old) (W.written writer.new) result }
    ensures begun { (held : List ℕ) → Holds line.old held → Holds line.new [] }
    ensures goes_on { IfOk result (λ on. O.may_end ≡ false → on ≡ true) }
    ensures fault { IfErr result (λ e. e ≡ RunFault.Write) }
{
    if line.is_empty() {
        let parsed = parse_line(bytes);
        return take(kernel, Some(bytes), &parsed, writer, observer);
    }
    line.extend(bytes);
    take_held(kernel, line, writer, observer)
}

// Carries out the line in the buffer `line`, then clears the buffer.
#[inline(never)]
fn take_held<D: Device, S: ObjectStore<D>, W: Output, O: Observer>(
    kernel: &mut Kernel<D, S>,
    line: &mut LineBuffer,
    writer: &mut W,
    observer: &mut O,
) -> Result<bool, RunFault>
    ensures turn { (g : Geometry) (m : Machine) (held : List ℕ) → Stands D.disk S.view S.parts g kernel.old m
        → Holds line.old held
        → TakesLine D.disk S.view S.parts O.sees g m held kernel.old kernel.new observer.old observer.new
        (W.written writer.old) (W.written writer.new) result }
    ensures begun { Holds line.new [] }
    ensures goes_on { IfOk result (λ on. O.may_end ≡ false → on ≡ true) }
    ensures fault { IfErr result (λ e. e ≡ RunFault.Write) }
{
    let taken = take(kernel, line.text(), &line.says(), writer, observer);
    line.clear();
    taken
}

// Carries out each line that ends in this piece of the script, and leaves the beginning of the next one in
// `line`. A line that lies wholly in the piece isn't copied.
fn take_piece<D: Device, S: ObjectStore<D>, W: Output, O: Observer>(
    kernel: &mut Kernel<D, S>,
    line: &mut LineBuffer,
    piece: &[u8],
    writer: &mut W,
    observer: &mut O,
) -> Result<(), RunFault>
    ensures goes_on { OnOk result
        ((g : Geometry) (m : Machine) (start : Power D S) (first : O) (text : List ℕ) (output : Written)
        → SoFar D.disk S.view S.parts O.sees g m start kernel.old first observer.old text line.old output
        (W.written writer.old)
        → SoFar D.disk S.view S.parts O.sees g m start kernel.new first observer.new (text ++ piece.now) line.new output
        (W.written writer.new)) }
    ensures stops { IfErr result
        (λ e. (g : Geometry) (m : Machine) (start : Power D S) (first : O) (text : List ℕ) (output : Written)
        → SoFar D.disk S.view S.parts O.sees g m start kernel.old first observer.old text line.old output
        (W.written writer.old)
        → Stopped D.disk S.view S.parts O.sees (BeginsWith (text ++ piece.now)) e g m start kernel.new first
        observer.new output (W.written writer.new)) }
    ensures fault { IfErr result (λ e. e ≢ RunFault.Read) }
    ensures unstopped { O.may_end ≡ false → IfErr result (λ e. e ≢ RunFault.Stopped) }
{
    let mut rest = piece;
    while let Some(end) = memchr(b'\n', rest) {
        let goes_on = take_line(kernel, line, &rest[..end], writer, observer)?;
        if !goes_on {
            return Err(RunFault::Stopped);
        }
        rest = &rest[end + 1..];
    }
    line.extend(rest);
    Ok(())
}

// At the end of the input, carries out the rest in `line`, unless it is empty.
fn take_rest<D: Device, S: ObjectStore<D>, W: Output, O: Observer>(
    kernel: &mut Kernel<D, S>,
    line: &mut LineBuffer,
    writer: &mut W,
    observer: &mut O,
) -> Result<(), RunFault>
    ensures ends { OnOk result
        ((g : Geometry) (m : Machine) (start : Power D S) (first : O) (text : List ℕ) (output : Written)
        → SoFar D.disk S.view S.parts O.sees g m start kernel.old first observer.old text line.old output
        (W.written writer.old)
        → Ended D.disk S.view S.parts O.sees g m start kernel.new first observer.new text output
        (W.written writer.new)) }
    ensures stops { IfErr result
        (λ e. (g : Geometry) (m : Machine) (start : Power D S) (first : O) (text : List ℕ) (output : Written)
        → SoFar D.disk S.view S.parts O.sees g m start kernel.old first observer.old text line.old output
        (W.written writer.old)
        → Stopped D.disk S.view S.parts O.sees (λ lines. lines_of text ≡ lines) e g m start kernel.new first
        observer.new output (W.written writer.new)) }
    ensures fault { IfErr result (λ e. e ≢ RunFault.Read) }
    ensures unstopped { O.may_end ≡ false → IfErr result (λ e. e ≢ RunFault.Stopped) }
{
    if line.is_empty() {
        return Ok(());
    }
    let goes_on = take_held(kernel, line, writer, observer)?;
    if !goes_on {
        return Err(RunFault::Stopped);
    }
    Ok(())
}

// Runs a script over a kernel, as `run_observed` does.
fn run_turns<D: Device, S: ObjectStore<D>, R: Script, W: Output, O: Observer>(
    kernel: &mut Kernel<D, S>,
    reader: &mut R,
    writer: &mut W,
    observer: &mut O,
) -> Result<(), RunFault>
    ensures watched { RunsSeen D.disk S.view S.parts O.sees kernel.old kernel.new observer.old observer.new
        (R.unread reader.old) (R.unread reader.new) (W.written writer.old) (W.written writer.new) result }
    ensures none_waits { OnOk result (W.waiting writer.new ≡ []) }
    ensures read_failed { IsCounted (IsErrOf result RunFault.Read) (R.failures reader.old) (R.failures reader.new) }
    ensures unstopped { O.may_end ≡ false → IfErr result (λ e. e ≢ RunFault.Stopped) }
{
    let mut piece = [0; PIECE_SIZE];
    let mut line = LineBuffer::new();
    loop {
        writer.pass_on()?;
        match reader.read_piece(writer, &mut piece)? {
            Piece::Bytes(count) => {
                take_piece(kernel, &mut line, &piece[..count], writer, observer)?;
            }
            Piece::End => {
                take_rest(kernel, &mut line, writer, observer)?;
                return writer.pass_on();
            }
            Piece::Nothing => {}
        }
    }
}

/// Runs a script over a kernel. Answers each line that isn't skipped before it takes the next; a line outside the
/// grammar is answered `bad line`. It reads the script in pieces of at most 4096 bytes, which may end anywhere.
/// Answers are passed on before each read, and at the end of the input. All lines that end in a piece are answered
/// before the next piece is read; that is tested, not proved.
///
/// - **Output.** The text written is the printed answers of a run of the machine on these commands. The run may
///   begin with any machine that the kernel stands for, and includes power cuts and failures of the device. `fault`
///   is answered exactly if the device failed.
/// - **Crashes.** After a crash at any moment of a line, the image denotes one of two: a candidate of the machine
///   before the line, or the state that its command saves.
/// - **Confinement** (EROS). Let each line be an invocation, load or store by a process of a closed set, or by one
///   made from free numbers. Then objects outside the set that weren't free keep their content and owner. Exception:
///   capabilities to members may become void.
/// - **Read errors.** Returns `RunFault::Read` exactly if a read failed. Then each line whose newline was read was
///   answered.
/// - **Write errors.** Returns `RunFault::Write` exactly if a call of the writer failed. Then the lines taken are
///   the first of those read whole, or of all lines if the input ended. Only the last answer may be cut short. If
///   the failed call was one that passes on, all of them were answered. The kernel is in the state after the lines
///   taken.
///
/// Interrupted reads are repeated. Reading lines and printing answers takes no memory.
pub fn run<D: Device, S: ObjectStore<D>, R: Script, W: Output>(
    kernel: &mut Kernel<D, S>,
    reader: &mut R,
    writer: &mut W,
) -> Result<(), RunFault>
    ensures runs { RunsOver D.disk S.view S.parts kernel.old kernel.new (R.unread reader.old)
        (R.unread reader.new) (W.written writer.old) (W.written writer.new) result }
    ensures none_waits { OnOk result (W.waiting writer.new ≡ []) }
    ensures read_failed { IsCounted (IsErrOf result RunFault.Read) (R.failures reader.old) (R.failures reader.new) }
    ensures confined { IsConfined D.disk S.view S.parts kernel.old kernel.new (R.unread reader.old)
        (R.unread reader.new) }
    ensures goes_on { IfErr result (λ e. e ≢ RunFault.Stopped) }
{
    run_observed(kernel, reader, writer, &mut Silent)
}

/// Runs a script over a kernel as `run` does, and shows each turn to an observer, in order. The text written
/// doesn't depend on the observer.
///
/// Returns `RunFault::Stopped` exactly if the observer ended the run. Then all lines taken were answered, and the
/// run ended at the last of them.
pub fn run_observed<D: Device, S: ObjectStore<D>, R: Script, W: Output, O: Observer>(
    kernel: &mut Kernel<D, S>,
    reader: &mut R,
    writer: &mut W,
    observer: &mut O,
) -> Result<(), RunFault>
    ensures runs { RunsOver D.disk S.view S.parts kernel.old kernel.new (R.unread reader.old)
        (R.unread reader.new) (W.written writer.old) (W.written writer.new) result }
    ensures none_waits { OnOk result (W.waiting writer.new ≡ []) }
    ensures read_failed { IsCounted (IsErrOf result RunFault.Read) (R.failures reader.old) (R.failures reader.new) }
    ensures confined { IsConfined D.disk S.view S.parts kernel.old kernel.new (R.unread reader.old)
        (R.unread reader.new) }
    ensures unstopped { O.may_end ≡ false → IfErr result (λ e. e ≢ RunFault.Stopped) }
    ensures watched { RunsSeen D.disk S.view S.parts O.sees kernel.old kernel.new observer.old observer.new
        (R.unread reader.old) (R.unread reader.new) (W.written writer.old) (W.written writer.new) result }
{
    run_turns(kernel, reader, writer, observer)
}

/// Runs one line over a kernel: carries it out, shows the turn to an observer, writes the answer and passes it on.
/// Returns whether the observer lets a run go on.
///
/// Returns `RunFault::Write` exactly if a call of the writer failed. Then the answer may be cut short, and the kernel
/// is in the state after the line.
pub fn run_line<D: Device, S: ObjectStore<D>, W: Output, O: Observer>(
    kernel: &mut Kernel<D, S>,
    line: &[u8],
    writer: &mut W,
    observer: &mut O,
) -> Result<bool, RunFault>
    ensures runs { RunsLine D.disk S.view S.parts O.sees line.now kernel.old kernel.new observer.old observer.new
        (W.written writer.old) (W.written writer.new) result }
    ensures none_waits { OnOk result (W.waiting writer.new ≡ []) }
    ensures goes_on { IfOk result (λ on. O.may_end ≡ false → on ≡ true) }
    ensures fault { IfErr result (λ e. e ≡ RunFault.Write) }
{
    let says = parse_line(line);
    let goes_on = take(kernel, Some(line), &says, writer, observer)?;
    writer.pass_on()?;
    Ok(goes_on)
}
