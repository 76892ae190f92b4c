// The command that says why a description is refused.
ghost use Rattle.std.specs.Prelude.{◌≡◌, ℕ, Bool, IfOk, List, Result, string_bytes};
ghost use Rattle.script.specs.Lines.{IsOneLine};
ghost use Rattle.toml.specs.Errors.{IsWithin, span_start};
ghost use Rattle.queries.specs.Explained.{ExplainsText, IsSyntaxLineAt, TellsLine, TellsOf, accepted_status};
ghost use Rattle.queries.specs.Explained.{position_from};
ghost use Rattle.queries.specs.Explained.{without_answer};
ghost use Rattle.jobs.specs.Faults.{IsReported};

use description_explainer::{explain, explanation, on_one_line};
use jobs::{Fault, of_write, status};
use script::Output;
use std::alloc::{AllocError, Global};
use toml::de::Error;

// Returns the line and column of the character after a text, both from 1. A column counts characters.
fn position_after(before: &[u8]) -> (u64, u64)
    ensures { result ≡ position_from 1 1 before.now }
{
    let mut line = 1u64;
    let mut column = 1u64;
    for byte in before {
        if *byte == b'\n' {
            line += 1;
            column = 1;
        } else if *byte < 128 || *byte >= 192 {
            column += 1;
        }
    }
    (line, column)
}

// Returns the parser's message on one line. If a number is too great for TOML, adds a hint.
fn why_not_toml(words: &str) -> &str
    ensures { IsOneLine result.now }
{
    let why = if words == "number out of range" {
        "number out of range; a limit or a word from 2^63 on is a text \"number N\""
    } else {
        words
    };
    on_one_line(why)
}

// Returns the line for a text that isn't TOML. It names the place where the parser's error begins.
fn syntax_line(alloc: Global, text: &str, error: &Error) -> Result<String, AllocError>
    requires { IsWithin text.now error.now }
    ensures { IfOk result (λ line. IsSyntaxLineAt (span_start error.now) text.now (string_bytes line)) }
{
    let start = match error.span() {
        Some(span) => span.start,
        None => return Err(AllocError),
    };
    let (line, column) = position_after(&text.as_bytes()[..start]);
    let why = why_not_toml(error.message());
    format!(in alloc; "line {line}, column {column}: {why} (bad description)")
}

/// Returns the line about the description in a text, and whether `build` accepts it on a device that is large enough.
/// Fails only if memory runs out.
pub fn explained(alloc: Global, text: &str) -> Result<(String, bool), AllocError>
    ensures { IfOk result (λ answer. TellsOf text.now (string_bytes answer.0) answer.1) }
{
    let table = match toml::table_from_str(alloc, text) {
        Ok(table) => table,
        Err(error) => {
            if error.is_memory() {
                return Err(AllocError);
            }
            let line = syntax_line(alloc, text, &error)?;
            return Ok((line, false));
        }
    };
    match explain(alloc, &table)? {
        None => {
            let line = String::from_str(alloc, "ok")?;
            Ok((line, true))
        }
        Some(place) => {
            let line = explanation(alloc, &table, &place)?;
            Ok((line, false))
        }
    }
}

// Writes a line, with a newline added.
fn tell_line<W: Output>(line: String, writer: &mut W) -> Result<(), Fault>
    ensures { TellsLine (string_bytes line) (W.written writer.old) (W.written writer.new) result }
{
    let mut line = line;
    if line.push_str("\n").is_err() {
        return Err(Fault::NoMemory);
    }
    of_write(writer.write_fully(line.as_bytes()))
}

// Writes the line about a description, and returns whether `build` accepts the description.
fn tell_explained<W: Output>(
    explained: Result<(String, bool), AllocError>,
    writer: &mut W,
) -> Result<bool, Fault>
    ensures { (text : List ℕ) → IfOk explained (λ answer. TellsOf text (string_bytes answer.0) answer.1)
        → ExplainsText text (W.written writer.old) (W.written writer.new) result }
{
    let (line, is_accepted) = match explained {
        Ok(explained) => explained,
        Err(_) => return Err(Fault::NoMemory),
    };
    match tell_line(line, writer) {
        Ok(()) => Ok(is_accepted),
        Err(fault) => Err(fault),
    }
}

/// Writes `ok` if `build` accepts the description in a text on a device that is large enough; then the status is 0.
/// Otherwise writes one line, and the status is 1: the place of the first mistake, what is wrong there, and `(bad
/// description K)` with the number that `build` gives; or, if the text isn't TOML, the line and the column where the
/// parser's error begins. After a fault one line is written to `errors`, and the status is 1: `no memory`, or `cannot write
/// output` if the writer fails.
pub fn explain_description<W: Output, V: Output>(
    alloc: Global,
    text: &str,
    writer: &mut W,
    errors: &mut V,
) -> u8
    ensures { (outcome : Result Bool Fault) × (result ≡ accepted_status outcome)
        × IsReported (without_answer outcome) (V.written errors.old) (V.written errors.new)
        × ExplainsText text.now (W.written writer.old) (W.written writer.new) outcome }
{
    match tell_explained(explained(alloc, text), writer) {
        Ok(true) => 0,
        Ok(false) => 1,
        Err(fault) => status(Err(fault), errors),
    }
}
