// Tracing: for each line of a script, a line on standard error.
ghost use Rattle.std.specs.Prelude.{◌≡◌, ◌+◌, ◌-◌, ◌<◌, ◌≤◌, ◌^◌, ◌∷◌, [], ◌++◌, List, ℕ, IfNone, IfSome, Some, codes};
ghost use Rattle.std.specs.Prelude.{length, min, true};
ghost use Rattle.model.specs.Text.{line_of, spaced};
ghost use Rattle.script.specs.Keywords.{command_name};
ghost use Rattle.runs.specs.Tracing.{EndsIf, IsCauseIn, IsNewTracer, IsOutcome, IsSame, IsTraced, Notes, Sees};
ghost use Rattle.runs.specs.Tracing.{cause_text, place_text};

use crate::cause::{Cause, Stop, add_code, fault_of};
use crate::observer::Observer;
use model::{Answer, Command, ResultCode};
use script::{LineFault, LineText, Output, answer_line, command_word};

/// What a traced run does besides writing answers.
#[derive(Clone, Copy)]
pub struct TraceOptions {
    /// Whether to write a line of trace for each line of the script.
    pub trace: bool,
    /// Whether to end at the first line that is bad, is refused, or has a result code other than 0.
    pub strict: bool,
}

/// Traces a run: for each line of the script that isn't skipped, writes a line with its number, command and answer.
/// If the trace can't be written, the run goes on.
#[derive(Drop)]
pub struct Tracer<V> {
    errors: V,
    options: TraceOptions,
    // How many lines were seen.
    line: u64,
    // Whether a line of the trace couldn't be written. No line is written after it.
    is_lost: bool,
    // Where the tracer ended the run, if it did.
    stop: Option<Stop>,
}

impl<V: Output> Tracer<V> {
    /// Returns a tracer that writes to `errors` and has seen no line.
    pub fn new(errors: V, options: TraceOptions) -> Tracer<V>
        ensures { IsNewTracer errors options result }
    {
        Tracer {
            errors,
            options,
            line: 0,
            is_lost: false,
            stop: None,
        }
    }

    /// Returns where the tracer ended the run, if it did.
    pub fn stop(&self) -> Option<Stop>
        ensures { result ≡ self.now.stop }
    {
        self.stop
    }

    // Writes a line of the trace, unless no trace is wanted or an earlier line was lost.
    fn write(&mut self, line: LineText)
        requires { length line < 320 }
        ensures traced { IsTraced self.old.options.trace self.old.is_lost self.new.is_lost
            (V.written self.old.errors) (V.written self.new.errors) (line_of line) }
        ensures same { IsSame self.old self.new }
    {
        if !self.options.trace {
            return;
        }
        if self.is_lost {
            return;
        }
        match line.write_to(&mut self.errors) {
            Ok(()) => {}
            Err(_) => self.is_lost = true,
        }
    }

    // Returns the number of the next line.
    fn next(&self) -> u64
        ensures { result ≡ min (self.now.line + 1) (2 ^ 64 - 1) }
    {
        self.line.saturating_add(1)
    }

    // Counts a line, and writes its trace. A strict run ends here if the line has a cause. Returns whether the run
    // goes on.
    fn note(&mut self, place: u64, text: LineText, cause: Option<Cause>) -> bool
        requires { length text < 320 }
        ensures { Notes V.written place text cause self.old self.new result }
    {
        self.line = place;
        self.write(text);
        match cause {
            Some(cause) => self.end_at(cause),
            None => true,
        }
    }

    // Ends the run at this line if it is strict. Returns whether the run goes on.
    fn end_at(&mut self, cause: Cause) -> bool
        ensures ends { EndsIf self.old.options.strict (Some cause) self.old.line result self.new.stop }
        ensures options { self.new.options ≡ self.old.options }
        ensures place { self.new.line ≡ self.old.line }
        ensures is_lost { self.new.is_lost ≡ self.old.is_lost }
        ensures errors { self.new.errors ≡ self.old.errors }
    {
        if !self.options.strict {
            return true;
        }
        self.stop = Some(Stop {
            line: self.line,
            cause,
        });
        false
    }
}

// Returns the beginning of a line's trace: the line's number.
fn begin(place: u64) -> LineText
    ensures text { result ≡ place_text place }
    ensures short { length result ≤ 21 }
{
    let mut line = LineText::empty();
    line.digits(place);
    line.push(b":");
    line
}

// Returns the trace of a bad line.
fn bad_trace(place: u64, fault: LineFault) -> LineText
    ensures text { result ≡ spaced (place_text place ∷ cause_text (Cause.BadLine fault) ∷ []) }
    ensures short { length result ≤ 92 }
{
    let mut line = begin(place);
    Cause::BadLine(fault).add_to(&mut line);
    line
}

// Returns the trace of a command.
fn answer_trace(
    place: u64,
    command: &Command,
    answer: &Answer,
    code: Option<ResultCode>,
) -> LineText
    ensures text { (outcome : List ℕ) × IsOutcome code answer.now outcome
        × (result ≡ spaced (place_text place ∷ (command_name command.now ++ codes ":") ∷ outcome ∷ [])) }
    ensures short { length result ≤ 92 }
{
    let mut line = begin(place);
    line.word(command_word(command));
    line.push(b":");
    match code {
        Some(code) => add_code(&mut line, code),
        None => line.word(answer_line(answer).as_bytes()),
    }
    line
}

// Returns why a strict run ends at a command, or `None` if it goes on.
fn cause_of(answer: &Answer, code: Option<ResultCode>) -> Option<Cause>
    ensures some { IfSome result (IsCauseIn answer.now code) }
    ensures none { IfNone result ((why : Cause) → IsCauseIn answer.now code why → ⊥) }
{
    if let Answer::Refused(refusal) = answer {
        return Some(Cause::Refused(*refusal));
    }
    match code {
        Some(ResultCode::Done) | None => None,
        Some(code) => Some(Cause::Code(code)),
    }
}

impl<V: Output> Observer for Tracer<V> {
    ghost sees = { λ g t old new on. Sees V.written g t old new on };

    ghost may_end = { true };

    fn skip(&mut self) -> bool {
        self.line = self.next();
        true
    }

    #[tactic(auto, using(crate::proofs::Tracing::bad_seen))]
    fn bad(&mut self, text: Option<&[u8]>) -> bool {
        let place = self.next();
        let fault = fault_of(text);
        self.note(place, bad_trace(place, fault), Some(Cause::BadLine(fault)))
    }

    #[tactic(auto, using(crate::proofs::Tracing::answer_seen))]
    fn answer(&mut self, command: &Command, answer: &Answer, code: Option<ResultCode>) -> bool {
        let place = self.next();
        let cause = cause_of(answer, code);
        self.note(place, answer_trace(place, command, answer, code), cause)
    }
}
