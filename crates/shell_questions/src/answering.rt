// A line that asks about what is saved.
ghost use Rattle.std.specs.Prelude.{◌≡◌, IfErr};
ghost use Rattle.command_line.specs.Arguments.{texts_of};
ghost use Rattle.shell_questions.specs.Questions as questions;
ghost use Rattle.shell_questions.specs.Questions.{AnswersJob, AnswersLine, AnswersNamed, AnswersQuery, AnswersWords, Refuses, RunsOut};

use crate::query::query_of;
use crate::words::{WordsFault, command_words};
use command_line::{Job, JobFault, command_line};
use device::Device;
use jobs::{Fault, status};
use migrator::WholeStore;
use queries::{Query, answer};
use script::{Output, RunFault};
use std::alloc::Global;

// Whether the output took an answer, by the fault of the command.
fn end_of(fault: Option<Fault>) -> Result<(), RunFault>
    ensures end { result ≡ questions.end_of fault }
    ensures fault { IfErr result (λ e. e ≡ RunFault.Write) }
{
    match fault {
        Some(Fault::CannotWriteOutput) => Err(RunFault::Write),
        _ => Ok(()),
    }
}

// Says that memory ran out.
fn refuse_memory<V: Output>(errors: &mut V) -> Result<(), RunFault>
    ensures runs_out { RunsOut (V.written errors.old) (V.written errors.new) result }
    ensures fault { IfErr result (λ e. e ≡ RunFault.Write) }
{
    let _status = status(Err(Fault::NoMemory), errors);
    Ok(())
}

// Answers that a line is bad, and says where its words are explained.
fn refuse<W: Output, V: Output>(writer: &mut W, errors: &mut V) -> Result<(), RunFault>
    ensures answers { Refuses (W.written writer.old) (W.written writer.new) (V.written errors.old) (V.written errors.new) result }
    ensures fault { IfErr result (λ e. e ≡ RunFault.Write) }
{
    let _reported = errors.write_fully(
        b"Type help and the first word for the words that may follow.\n",
    );
    writer.write_fully(b"bad line\n")
}

// Answers a question.
fn answer_query<D: Device, S: WholeStore<D>, W: Output, V: Output>(
    alloc: Global,
    query: Query<'_>,
    device: D,
    setting: S::Setting,
    writer: &mut W,
    errors: &mut V,
) -> Result<(), RunFault>
    ensures answers { AnswersQuery D.disk query.entry device (W.written writer.old) (W.written writer.new) (V.written errors.old)
        (V.written errors.new) result }
    ensures fault { IfErr result (λ e. e ≡ RunFault.Write) }
{
    let done = answer::<D, S, W, V>(alloc, device, setting, query, writer, errors);
    end_of(done.fault)
}

// Answers the question of a job.
fn answer_job<D: Device, S: WholeStore<D>, W: Output, V: Output>(
    alloc: Global,
    job: &Job<'_>,
    device: D,
    setting: S::Setting,
    writer: &mut W,
    errors: &mut V,
) -> Result<(), RunFault>
    ensures answers { AnswersJob D.disk job.now device (W.written writer.old) (W.written writer.new) (V.written errors.old)
        (V.written errors.new) result }
    ensures fault { IfErr result (λ e. e ≡ RunFault.Write) }
{
    match query_of(job) {
        Some(query) => answer_query::<D, S, W, V>(alloc, query, device, setting, writer, errors),
        None => refuse(writer, errors),
    }
}

// Answers the question of a job, unless a file of names is given: a shell has its own.
fn answer_named<D: Device, S: WholeStore<D>, W: Output, V: Output>(
    alloc: Global,
    has_names: bool,
    job: &Job<'_>,
    device: D,
    setting: S::Setting,
    writer: &mut W,
    errors: &mut V,
) -> Result<(), RunFault>
    ensures answers { AnswersNamed D.disk has_names job.now device (W.written writer.old) (W.written writer.new)
        (V.written errors.old) (V.written errors.new) result }
    ensures fault { IfErr result (λ e. e ≡ RunFault.Write) }
{
    if has_names {
        refuse(writer, errors)
    } else {
        answer_job::<D, S, W, V>(alloc, job, device, setting, writer, errors)
    }
}

// Answers the question of the job that words name.
fn answer_words<D: Device, S: WholeStore<D>, W: Output, V: Output>(
    alloc: Global,
    words: &[&str],
    device: D,
    setting: S::Setting,
    writer: &mut W,
    errors: &mut V,
) -> Result<(), RunFault>
    ensures answers { AnswersWords D.disk (texts_of words.now) device (W.written writer.old) (W.written writer.new)
        (V.written errors.old) (V.written errors.new) result }
    ensures fault { IfErr result (λ e. e ≡ RunFault.Write) }
{
    match command_line(alloc, words) {
        Ok(command) => answer_named::<D, S, W, V>(
            alloc,
            command.names.is_some(),
            &command.job,
            device,
            setting,
            writer,
            errors,
        ),
        Err(JobFault::NoMemory) => refuse_memory(errors),
        Err(_) => refuse(writer, errors),
    }
}

/// Opens a device as a run does, and answers a line of a shell about what it saves, as `eros` answers these words with the
/// image after the first. The answer goes to `writer`, and a fault to `errors`. A line that asks nothing of the kind is
/// answered `bad line`. `RunFault::Write` if a call of the writer failed.
///
/// Nothing is written to the device at any moment.
pub fn answer_line<D: Device, S: WholeStore<D>, W: Output, V: Output>(
    alloc: Global,
    line: &[u8],
    device: D,
    setting: S::Setting,
    writer: &mut W,
    errors: &mut V,
) -> Result<(), RunFault>
    ensures answers { AnswersLine D.disk line.now device (W.written writer.old) (W.written writer.new) (V.written errors.old)
        (V.written errors.new) result }
    ensures fault { IfErr result (λ e. e ≡ RunFault.Write) }
{
    match command_words(alloc, line) {
        Ok(words) => answer_words::<D, S, W, V>(alloc, &words, device, setting, writer, errors),
        Err(WordsFault::NoMemory) => refuse_memory(errors),
        Err(WordsFault::NotText) => refuse(writer, errors),
    }
}
