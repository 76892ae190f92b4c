// Running a whole script in one call.
ghost use Rattle.vezhnake.specs.Sessions.{IsFirstFault, RunsBatch, RunsScript};

use crate::session::Session;
use crate::status::Status;
use std::alloc::Global;

/// The lengths of a batch's answers and of its device calls, in bytes.
#[repr(C)]
#[derive(Drop)]
pub struct Batch {
    pub answers: usize,
    pub calls: usize,
}

// Returns the first status that isn't `Done`; if there is none, `Done`.
fn first_fault(first: Status, second: Status) -> Status
    ensures { IsFirstFault first second result }
{
    match first {
        Status::Done => second,
        Status::Bad(_)
        | Status::NoMemory
        | Status::BadSize
        | Status::BadCache
        | Status::AlreadyOpen
        | Status::NotOpen
        | Status::SmallBuffer
        | Status::CallsLost
        | Status::Failed
        | Status::BadCommand => first,
    }
}

// Runs a script in a session, and copies the answers and the device calls.
fn run_script(
    session: &mut Session,
    script: &[u8],
    answers: &mut [u8],
    calls: &mut [u8],
    batch: &mut Batch,
) -> Status
    ensures { RunsScript session.old session.new script.now answers.old answers.new calls.old calls.new
        batch.new.answers batch.new.calls result }
{
    let answered = session.step(script, answers, &mut batch.answers);
    let taken = session.take_calls(calls, &mut batch.calls);
    first_fault(answered, taken)
}

/// Opens a session over storage that holds these bytes, as `HostKernel::open` does, runs a script in it, and copies
/// the answers and the device calls.
///
/// Returns the error of opening, or the first error of `Session::step` and `Session::take_calls`.
pub fn run_batch(
    alloc: Global,
    image: &[u8],
    cache: u64,
    script: &[u8],
    answers: &mut [u8],
    calls: &mut [u8],
    batch: &mut Batch,
) -> Status
    ensures { RunsBatch image.now cache script.now answers.old answers.new calls.old calls.new
        batch.new.answers batch.new.calls result }
{
    match Session::open(alloc, image, cache) {
        Ok(mut session) => {
            let status = run_script(&mut session, script, answers, calls, batch);
            drop(session);
            status
        }
        Err(status) => status,
    }
}
