// The text of an answer.
ghost use Rattle.std.specs.Prelude.{◌≡◌, ◌≤◌, [], ◌∷◌, ◌++◌, codes, length, decimal};
ghost use Rattle.model.specs.Text.{bad_line, line_of, object_text, printed, refusal_text, spaced, unjournaled_number};
ghost use Rattle.script.specs.Answers.{IsAnswerText};
ghost use Rattle.script.specs.Writing.{Writes};

use crate::fault::RunFault;
use crate::line_text::LineText;
use crate::output::Output;
use crate::short_line::ShortLine;
use crate::shown::print_object;
use model::{Answer, Description, Refusal, Unjournaled};

// Returns the line that refuses to journal a page.
fn unjournaled_line(why: Unjournaled) -> LineText
    ensures text { result ≡ codes "not journaled " ++ decimal (unjournaled_number why) }
    ensures short { length result ≤ 41 }
{
    match why {
        Unjournaled::NotPage => LineText::new(b"not journaled 1"),
        Unjournaled::Renewed => LineText::new(b"not journaled 2"),
    }
}

/// Returns the line of a refusal.
pub fn refusal_line(refusal: Refusal) -> LineText
    ensures text { result ≡ refusal_text refusal }
    ensures short { length result ≤ 41 }
{
    match refusal {
        Refusal::Down => LineText::new(b"down"),
        Refusal::NoProcess => LineText::new(b"no process"),
        Refusal::NotRunning => LineText::new(b"not running"),
        Refusal::Worn => LineText::new(b"worn"),
        Refusal::Stalled => LineText::new(b"stalled"),
        Refusal::LogFull => LineText::new(b"log full"),
        Refusal::CheckpointRunning => LineText::new(b"checkpoint running"),
        Refusal::MigrationPending => LineText::new(b"migration pending"),
        Refusal::NotStable(left) => LineText::numbered(b"not stable", left),
        Refusal::NoCheckpoint => LineText::new(b"no checkpoint"),
        Refusal::NoMemory => LineText::new(b"no memory"),
        Refusal::Fault => LineText::new(b"fault"),
        Refusal::BadNumber => LineText::new(b"bad number"),
        Refusal::NotJournaled(why) => unjournaled_line(why),
    }
}

/// Returns the line of an answer; for an object it is `shown`. It takes no memory.
#[tactic(auto, unfolding(model::specs::Text::printed))]
pub fn answer_line(answer: &Answer) -> LineText
    ensures text { IsAnswerText answer.now result }
    ensures short { length result ≤ 44 }
{
    match answer {
        Answer::Done => LineText::new(b"done"),
        Answer::Value(word) => LineText::numbered(b"value", *word),
        Answer::MemoryFault(fault) => LineText::numbered(b"memory fault", *fault as u64),
        Answer::Frozen(count) => LineText::numbered(b"frozen", *count),
        Answer::Left(count) => LineText::numbered(b"left", *count),
        Answer::Committed(generation) => LineText::numbered(b"committed", *generation),
        Answer::Journaled(generation) => LineText::numbered(b"journaled", *generation),
        Answer::At { generation, age } => place_line(*generation, *age),
        Answer::Shown(_) => LineText::new(b"shown"),
        Answer::Refused(refusal) => refusal_line(*refusal),
    }
}

// Returns the line `at`, with the machine's generation and age.
fn place_line(generation: u64, age: u64) -> LineText
    ensures text { result ≡ spaced (codes "at" ∷ decimal generation ∷ decimal age ∷ []) }
    ensures short { length result ≤ 44 }
{
    let mut line = LineText::numbered(b"at", generation);
    line.number(age);
    line
}

// Writes a line with a word and a number.
#[inline(never)]
fn print_numbered<W: Output>(word: &[u8], number: u64, writer: &mut W) -> Result<(), RunFault>
    requires { length word.now ≤ 38 }
    ensures { Writes (W.written writer.old) (W.written writer.new) result
        (line_of (spaced (word.now ∷ decimal number ∷ []))) }
{
    let mut line = ShortLine::empty();
    line.push(word);
    line.number(number);
    line.print(writer)
}

// Writes the answer to a load, as `print_numbered` would. The word is a constant here, so it is copied faster.
#[inline(never)]
fn print_value<W: Output>(value: u64, writer: &mut W) -> Result<(), RunFault>
    ensures { Writes (W.written writer.old) (W.written writer.new) result
        (line_of (spaced (codes "value" ∷ decimal value ∷ []))) }
{
    let mut line = ShortLine::empty();
    line.push(b"value");
    line.number(value);
    line.print(writer)
}

// Writes the line `at`, with the machine's generation and age.
#[inline(never)]
fn print_place<W: Output>(generation: u64, age: u64, writer: &mut W) -> Result<(), RunFault>
    ensures { Writes (W.written writer.old) (W.written writer.new) result
        (line_of (spaced (codes "at" ∷ decimal generation ∷ decimal age ∷ []))) }
{
    let mut line = ShortLine::empty();
    line.push(b"at");
    line.number(generation);
    line.number(age);
    line.print(writer)
}

// Writes the line of a refusal.
#[inline(never)]
fn print_refusal<W: Output>(refusal: Refusal, writer: &mut W) -> Result<(), RunFault>
    ensures { Writes (W.written writer.old) (W.written writer.new) result
        (line_of (refusal_text refusal)) }
{
    refusal_line(refusal).write_to(writer)
}

// Writes the lines of an object; the last one is `end`.
#[inline(never)]
fn print_shown<W: Output>(shown: &Description, writer: &mut W) -> Result<(), RunFault>
    ensures { Writes (W.written writer.old) (W.written writer.new) result (object_text
        shown.now.number shown.now.object shown.now.registers shown.now.used ++ line_of (codes "end")) }
{
    print_object(
        shown.number,
        &shown.object,
        &shown.registers,
        shown.used,
        writer,
    )?;
    writer.write_fully(b"end\n")
}

/// Writes the text of an answer: one line; for an object several, with `end` as the last one.
///
/// Returns `Err(RunFault::Write)` if the writer fails or accepts no bytes; then it accepted only a beginning of the
/// text. It takes no memory.
#[tactic(auto, using(crate::proofs::Fronts::writes_same), unfolding(model::specs::Text::printed))]
pub fn print_answer<W: Output>(answer: &Answer, writer: &mut W) -> Result<(), RunFault>
    ensures { Writes (W.written writer.old) (W.written writer.new) result (printed answer.now) }
{
    match answer {
        Answer::Done => writer.write_fully(b"done\n"),
        Answer::Value(word) => print_value(*word, writer),
        Answer::MemoryFault(fault) => print_numbered(b"memory fault", *fault as u64, writer),
        Answer::Frozen(count) => print_numbered(b"frozen", *count, writer),
        Answer::Left(count) => print_numbered(b"left", *count, writer),
        Answer::Committed(generation) => print_numbered(b"committed", *generation, writer),
        Answer::Journaled(generation) => print_numbered(b"journaled", *generation, writer),
        Answer::At { generation, age } => print_place(*generation, *age, writer),
        Answer::Shown(shown) => print_shown(shown.get(), writer),
        Answer::Refused(refusal) => print_refusal(*refusal, writer),
    }
}

/// Writes the answer to a bad line.
///
/// Returns `Err(RunFault::Write)` if the writer fails or accepts no bytes; then it accepted only a beginning of the
/// text.
pub fn print_bad_line<W: Output>(writer: &mut W) -> Result<(), RunFault>
    ensures { Writes (W.written writer.old) (W.written writer.new) result bad_line }
{
    writer.write_fully(b"bad line\n")
}
