// Why a strict run ended at a line.
ghost use Rattle.std.specs.Prelude.{◌≡◌, ◌+◌, ◌≤◌, ◌∷◌, ◌++◌, IfSome, List, ℕ, length, option_map};
ghost use Rattle.model.specs.Text.{Says};
ghost use Rattle.script.specs.LineFaults.{IsFaultOf};
ghost use Rattle.script.specs.Lines.{IsTextOf};
ghost use Rattle.runs.specs.Tracing.{cause_text, code_text, code_word};

use model::{Line, Refusal, ResultCode};
use script::{LineFault, LineText, refusal_line, why_bad};

/// Why a strict run ended at a line.
#[derive(Clone, Copy)]
pub enum Cause {
    /// The line is bad.
    BadLine(LineFault),
    /// The command was refused.
    Refused(Refusal),
    /// The order had this result code, which isn't `Done`.
    Code(ResultCode),
}

/// Where a strict run ended.
#[derive(Clone, Copy)]
pub struct Stop {
    /// The number of the line, from 1.
    pub line: u64,
    pub cause: Cause,
}

// Returns the words for a result code.
fn word_of(code: ResultCode) -> &'static [u8]
    ensures word { result.now ≡ code_word code }
    ensures short { length result.now ≤ 18 }
{
    match code {
        ResultCode::Done => b"success",
        ResultCode::NoOrder => b"no order",
        ResultCode::NoAccess => b"no access",
        ResultCode::BadIndex => b"bad index",
        ResultCode::BadCapability => b"bad capability",
        ResultCode::Limit => b"limit",
        ResultCode::NoFrame => b"no free number",
        ResultCode::TooDeep => b"too deep",
        ResultCode::VoidCapability => b"void capability",
        ResultCode::NotFromThisBank => b"not from this bank",
        ResultCode::PrimeBank => b"prime bank",
    }
}

/// Appends a space and a result code, in words and as a number.
pub fn add_code(line: &mut LineText, code: ResultCode)
    requires { length line.old ≤ 200 }
    ensures text { line.new ≡ line.old ++ 32 ∷ code_text code }
    ensures short { length line.new ≤ length line.old + 43 }
{
    line.word(word_of(code));
    line.push(b" (");
    line.digits(code.number());
    line.push(b")");
}

/// Returns why a line is bad. `text` is the line, or `None` if it is too long.
pub fn fault_of(text: Option<&[u8]>) -> LineFault
    requires { IfSome text (λ t. Says t.now Line.Bad) }
    ensures { (line : List ℕ) → IsTextOf (option_map (λ t. t.now) text.entry) line → IsFaultOf line result }
{
    match text {
        Some(text) => why_bad(text),
        None => LineFault::Long,
    }
}

impl Cause {
    /// Appends a space and the cause, in words.
    pub fn add_to(self, line: &mut LineText)
        requires { length line.old ≤ 100 }
        ensures text { line.new ≡ line.old ++ 32 ∷ cause_text self }
        ensures short { length line.new ≤ length line.old + 71 }
    {
        match self {
            Cause::BadLine(fault) => {
                line.word(b"bad line:");
                fault.add_to(line);
            }
            Cause::Refused(refusal) => {
                line.word(refusal_line(refusal).as_bytes());
            }
            Cause::Code(code) => add_code(line, code),
        }
    }
}
