// The questions that jobs ask.
ghost use Rattle.std.specs.Prelude.{◌≡◌, MatchOption};
ghost use Rattle.shell_questions.specs.Questions.{IsDescribing, IsDrawing, IsNoQuestion, IsQueryOf, IsReaching, IsTelling};
ghost use Rattle.shell_questions.specs.Questions as questions;

use command_line::{Job, Reach};
use description::Sizes;
use json_lines::Format;
use queries::{Focus, Query, ReachQuestion};
use reach::Purpose;

// The format of answers.
fn format_of(json: bool) -> Format
    ensures { result ≡ questions.format_of json }
{
    if json { Format::Json } else { Format::Text }
}

// What is sought: what may be read, or else what may be changed.
fn purpose_of(reads: bool) -> Purpose
    ensures { result ≡ questions.purpose_of reads }
{
    if reads {
        Purpose::Read
    } else {
        Purpose::Change
    }
}

// The question of `reach`: which processes can change, or read, the object of `--to`, or else a chain to that of
// `--shows`.
fn question_of(purpose: Purpose, to: Option<u64>, shows: Option<u64>) -> ReachQuestion
    ensures { result ≡ questions.question_of purpose to shows }
{
    match (to, shows) {
        (Some(object), _) => ReachQuestion::Changers(purpose, object),
        (None, Some(object)) => ReachQuestion::Chain(purpose, object),
        (None, None) => ReachQuestion::Set(purpose),
    }
}

/// The query of `describe` with these sizes.
pub fn describing(sizes: &command_line::Sizes) -> Query<'static>
    ensures { IsDescribing sizes.now result }
{
    Query::Describe(Sizes {
        nodes: sizes.nodes,
        pages: sizes.pages,
        log: sizes.log,
    })
}

/// The query of `draw` with these options.
pub fn drawing(from: Option<u64>, reads: bool, to: Option<u64>) -> Query<'static>
    ensures { IsDrawing from reads to result }
{
    Query::Draw(Focus {
        from,
        purpose: purpose_of(reads),
        to,
    })
}

/// The query of `info`.
pub fn telling(json: bool) -> Query<'static>
    ensures { IsTelling json result }
{
    Query::Info(format_of(json))
}

/// The query of `reach`.
pub fn reaching<'j>(reach: &'j Reach<'_>) -> Query<'j>
    ensures { IsReaching reach.entry.now result }
{
    Query::Reach {
        processes: reach.processes.as_slice(),
        trusted: reach.trusted.as_slice(),
        question: question_of(purpose_of(reach.reads), reach.to, reach.shows),
        format: format_of(reach.json),
    }
}

/// The question that a job asks about an image, if it is one.
pub(crate) fn query_of<'j>(job: &'j Job<'_>) -> Option<Query<'j>>
    ensures { MatchOption result (IsNoQuestion job.entry.now) (IsQueryOf job.entry.now) }
{
    match job {
        Job::Describe { sizes, .. } => Some(describing(sizes)),
        Job::Draw {
            from,
            reads,
            to,
            ..
        } => Some(drawing(*from, *reads, *to)),
        Job::Info { json, .. } => Some(telling(*json)),
        Job::Reach(reach) => Some(reaching(reach)),
        _ => None,
    }
}
