// Answers given as numbers.
ghost use Rattle.std.specs.Prelude.{◌≡◌, ◌<◌, ◌≤◌, Some, IsTrue, ◌↔◌, Option};
ghost use Rattle.model.specs.declared.answer.Answer.{Answer};
ghost use Rattle.model.specs.declared.order.ResultCode.{ResultCode};
ghost use Rattle.vezhnake.specs.RawReplies.{RepliesTellAnswers, answer_numbers, code_in, refusal_numbers, reply_of};
ghost use Rattle.vezhnake.specs.RawReplies.{is_refused};

use model::{Answer, Refusal, ResultCode};

/// The answer to a command, given as numbers.
#[repr(C)]
#[derive(Clone, Copy)]
pub struct RawReply {
    /// The kind of the answer; from 32 on a refusal.
    pub kind: u32,
    /// The result code of an order, or 2^32 - 1 if there is none.
    pub code: u32,
    /// The first number of the answer, or 0.
    pub first: u64,
    /// The second number of the answer, or 0.
    pub second: u64,
}

// Returns the kind of a refusal, and its number or 0.
#[inline(always)]
fn refusal_numbers(refusal: Refusal) -> (u32, u64)
    ensures { result ≡ refusal_numbers refusal }
{
    match refusal {
        Refusal::Down => (32, 0),
        Refusal::NoProcess => (33, 0),
        Refusal::NotRunning => (34, 0),
        Refusal::Worn => (35, 0),
        Refusal::Stalled => (36, 0),
        Refusal::LogFull => (37, 0),
        Refusal::CheckpointRunning => (38, 0),
        Refusal::MigrationPending => (39, 0),
        Refusal::NotStable(left) => (40, left),
        Refusal::NoCheckpoint => (41, 0),
        Refusal::NoMemory => (42, 0),
        Refusal::Fault => (43, 0),
        Refusal::BadNumber => (44, 0),
        Refusal::NotJournaled(why) => (45, why as u64),
    }
}

// Returns the number of a result code, or 2^32 - 1 if there is none.
#[inline(always)]
fn code_in(code: Option<ResultCode>) -> u32
    ensures { result ≡ code_in code }
{
    match code {
        Some(code) => code as u32,
        None => u32::MAX,
    }
}

// Returns the kind of an answer, and its numbers or 0.
#[inline(always)]
fn answer_numbers(answer: &Answer) -> (u32, u64, u64)
    ensures { result ≡ answer_numbers answer.now }
{
    match answer {
        Answer::Done => (0, 0, 0),
        Answer::Value(word) => (1, *word, 0),
        Answer::MemoryFault(fault) => (2, *fault as u64, 0),
        Answer::Frozen(count) => (3, *count, 0),
        Answer::Left(count) => (4, *count, 0),
        Answer::Committed(generation) => (5, *generation, 0),
        Answer::Journaled(generation) => (6, *generation, 0),
        Answer::At { generation, age } => (7, *generation, *age),
        Answer::Shown(shown) => {
            let shown = shown.get();
            (8, shown.number, shown.object.content.role().number())
        }
        Answer::Refused(refusal) => {
            let (kind, first) = refusal_numbers(*refusal);
            (kind, first, 0)
        }
    }
}

impl RawReply {
    /// Returns an answer and the result code beside it in the form of numbers.
    #[inline(always)]
    pub fn of(answer: &Answer, code: Option<ResultCode>) -> RawReply
        ensures { result ≡ reply_of answer.now code }
    {
        let (kind, first, second) = answer_numbers(answer);
        RawReply {
            kind,
            code: code_in(code),
            first,
            second,
        }
    }

    /// Whether the machine refused the command.
    pub fn is_refused(&self) -> bool
        ensures { result ≡ is_refused self.now }
    {
        self.kind >= 32
    }
}

/// If two replies are equal, so are their answers, unless an answer shows an object. The contract of this empty
/// function says so.
#[tactic(auto, using(crate::proofs::RawReplies::replies_tell))]
pub fn replies_tell_answers()
    ensures { RepliesTellAnswers }
{}
