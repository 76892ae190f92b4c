//! The C interface of `vezhnake`. include/vezhnake.h declares these functions, and docs/LIBRARY.md has an example.
//! Nothing checks that a C caller's arguments are valid values of the Rust types.
#![tactic(auto)]

ghost use Rattle.std.specs.Prelude.{◌≡◌};
ghost use Rattle.vezhnake.specs.declared.status.Status.{Status};
ghost use Rattle.vezhnake.specs.Handles.{session_of};
ghost use Rattle.vezhnake.specs.RawCommands.{load_of, store_of};
ghost use Rattle.vezhnake.specs.Sessions.{ClosesHandle, CopiesAnswer, OnSession, OpensHandle, RunsBatch, StepsSession};
ghost use Rattle.vezhnake.specs.Sessions.{TakesCalls};
ghost use Rattle.vezhnake.specs.Statuses.{number_of};
ghost use Rattle.vezhnake.specs.TypedCalls.{SavesSession, ServesBatch, ServesOne, ShowsObject, ShowsPage};
ghost use Rattle.vezhnake_images.specs.BuiltBytes.{BuildsBytes};
ghost use Rattle.vezhnake_images.specs.ImageStatuses.{image_number};
ghost use Rattle.vezhnake_images.specs.ReadBytes.{ChecksBytes, DescribesBytes, ExplainsBytes, ExplainsText};
ghost use Rattle.vezhnake_images.specs.declared.image_status.ImageStatus.{ImageStatus};

use std::alloc::Global;
use vezhnake::{Batch, Handle, RawCommand, RawObject, RawPage, RawReply, run_batch};
use vezhnake_images::{
    RawInfo, build_bytes, check_bytes, describe_bytes, explain_bytes, explain_text,
};

/// Opens the image in these bytes. If `cache` is 0, all objects are kept in memory; otherwise it is the capacity of a
/// cache.
#[unsafe(no_mangle)]
pub extern "C" fn vezhnake_open(image: &[u8], cache: u64, handle: &mut Handle) -> u32
    ensures { (status : Status) × (result ≡ number_of status)
        × OpensHandle (session_of handle.old) (session_of handle.new) image.now cache status }
{
    handle.open(image, cache).number()
}

/// Runs a text as a script, as `eros run` does, and copies the answers.
#[unsafe(no_mangle)]
pub extern "C" fn vezhnake_step(
    handle: &mut Handle,
    text: &[u8],
    answer: &mut [u8],
    size: &mut usize,
) -> u32
    ensures { (status : Status) × (result ≡ number_of status)
        × OnSession (session_of handle.old) (session_of handle.new) status
        ((answer.new ≡ answer.old) × (size.new ≡ size.old))
        (λ old new. StepsSession old new text.now answer.old answer.new size.new status) }
{
    handle.step(text, answer, size).number()
}

/// Copies the answers to the last text again.
#[unsafe(no_mangle)]
pub extern "C" fn vezhnake_answer(handle: &mut Handle, answer: &mut [u8], size: &mut usize) -> u32
    ensures { (status : Status) × (result ≡ number_of status)
        × OnSession (session_of handle.old) (session_of handle.new) status
        ((answer.new ≡ answer.old) × (size.new ≡ size.old))
        (λ old new. CopiesAnswer old new answer.old answer.new size.new status) }
{
    handle.copy_answer(answer, size).number()
}

/// Copies the device calls since the last call of this function. The host must carry them out in order before it
/// trusts the answers.
#[unsafe(no_mangle)]
pub extern "C" fn vezhnake_calls(handle: &mut Handle, calls: &mut [u8], size: &mut usize) -> u32
    ensures { (status : Status) × (result ≡ number_of status)
        × OnSession (session_of handle.old) (session_of handle.new) status
        ((calls.new ≡ calls.old) × (size.new ≡ size.old))
        (λ old new. TakesCalls old new calls.old calls.new size.new status) }
{
    handle.take_calls(calls, size).number()
}

/// Carries out commands one after another, each as the script line with the same meaning, and writes their answers as
/// numbers.
#[unsafe(no_mangle)]
pub extern "C" fn vezhnake_serve(
    handle: &mut Handle,
    commands: &[RawCommand],
    replies: &mut [RawReply],
    served: &mut usize,
) -> u32
    ensures { (status : Status) × (result ≡ number_of status)
        × OnSession (session_of handle.old) (session_of handle.new) status
        ((replies.new ≡ replies.old) × (served.new ≡ served.old))
        (λ old new. ServesBatch old new commands.now replies.old replies.new served.new status) }
{
    handle.serve(commands, replies, served).number()
}

/// Carries out a command as the script line with the same meaning, and writes its answer as numbers.
#[unsafe(no_mangle)]
pub extern "C" fn vezhnake_serve_one(
    handle: &mut Handle,
    command: &RawCommand,
    reply: &mut RawReply,
) -> u32
    ensures { (status : Status) × (result ≡ number_of status)
        × OnSession (session_of handle.old) (session_of handle.new) status (reply.new ≡ reply.old)
        (λ old new. ServesOne old new command.now reply.old reply.new status) }
{
    handle.serve_one(command, reply).number()
}

/// Loads the word at an address of a process.
#[unsafe(no_mangle)]
pub extern "C" fn vezhnake_load(
    handle: &mut Handle,
    process: u64,
    address: u64,
    reply: &mut RawReply,
) -> u32
    ensures { (status : Status) × (result ≡ number_of status)
        × OnSession (session_of handle.old) (session_of handle.new) status (reply.new ≡ reply.old)
        (λ old new. ServesOne old new (load_of process address) reply.old reply.new status) }
{
    handle
        .serve_one(&RawCommand::load(process, address), reply)
        .number()
}

/// Stores a word at an address of a process.
#[unsafe(no_mangle)]
pub extern "C" fn vezhnake_store(
    handle: &mut Handle,
    process: u64,
    address: u64,
    value: u64,
    reply: &mut RawReply,
) -> u32
    ensures { (status : Status) × (result ≡ number_of status)
        × OnSession (session_of handle.old) (session_of handle.new) status (reply.new ≡ reply.old)
        (λ old new. ServesOne old new (store_of process address value) reply.old reply.new status) }
{
    handle
        .serve_one(&RawCommand::store(process, address, value), reply)
        .number()
}

/// Saves the present state: migrates what an earlier save left, then freezes, stabilizes, commits and migrates.
#[unsafe(no_mangle)]
pub extern "C" fn vezhnake_save(
    handle: &mut Handle,
    replies: &mut [RawReply],
    served: &mut usize,
) -> u32
    ensures { (status : Status) × (result ≡ number_of status)
        × OnSession (session_of handle.old) (session_of handle.new) status
        ((replies.new ≡ replies.old) × (served.new ≡ served.old))
        (λ old new. SavesSession old new replies.old replies.new served.new status) }
{
    handle.save(replies, served).number()
}

/// Shows an object, as the line `show` does. If it is a page, copies its words.
#[unsafe(no_mangle)]
pub extern "C" fn vezhnake_page(
    handle: &mut Handle,
    number: u64,
    page: &mut RawPage,
    reply: &mut RawReply,
) -> u32
    ensures { (status : Status) × (result ≡ number_of status)
        × OnSession (session_of handle.old) (session_of handle.new) status
        ((page.new ≡ page.old) × (reply.new ≡ reply.old))
        (λ old new. ShowsPage old new number page.old.words page.new.words reply.new status) }
{
    handle.page(number, page, reply).number()
}

/// Shows an object, as the line `show` does, and returns it as numbers.
#[unsafe(no_mangle)]
pub extern "C" fn vezhnake_show(
    handle: &mut Handle,
    number: u64,
    object: &mut RawObject,
    reply: &mut RawReply,
) -> u32
    ensures { (status : Status) × (result ≡ number_of status)
        × OnSession (session_of handle.old) (session_of handle.new) status
        ((object.new ≡ object.old) × (reply.new ≡ reply.old))
        (λ old new. ShowsObject old new number object.old object.new reply.new status) }
{
    handle.show(number, object, reply).number()
}

/// Closes the handle, and frees what it owns.
#[unsafe(no_mangle)]
pub extern "C" fn vezhnake_close(handle: &mut Handle) -> u32
    ensures { (status : Status) × (result ≡ number_of status)
        × ClosesHandle (session_of handle.old) (session_of handle.new) status }
{
    handle.close().number()
}

/// Opens the image in these bytes, runs a script, and copies the answers and the device calls.
#[unsafe(no_mangle)]
pub extern "C" fn vezhnake_run(
    alloc: Global,
    image: &[u8],
    cache: u64,
    script: &[u8],
    answers: &mut [u8],
    calls: &mut [u8],
    batch: &mut Batch,
) -> u32
    ensures { (status : Status) × (result ≡ number_of status)
        × RunsBatch image.now cache script.now answers.old answers.new calls.old calls.new
        batch.new.answers batch.new.calls status }
{
    run_batch(alloc, image, cache, script, answers, calls, batch).number()
}

/// Builds the image of the description in a text, as `eros build` does, and copies it.
#[unsafe(no_mangle)]
pub extern "C" fn vezhnake_build(
    alloc: Global,
    text: &[u8],
    image: &mut [u8],
    size: &mut usize,
) -> u32
    ensures { (status : ImageStatus) × (result ≡ image_number status)
        × BuildsBytes text.now image.old image.new size.old size.new status }
{
    build_bytes(alloc, text, image, size).number()
}

/// Opens the image in these bytes, as `eros check` does, and returns its sizes and counts.
#[unsafe(no_mangle)]
pub extern "C" fn vezhnake_check(alloc: Global, image: &[u8], info: &mut RawInfo) -> u32
    ensures { (status : ImageStatus) × (result ≡ image_number status)
        × ChecksBytes image.now info.old info.new status }
{
    check_bytes(alloc, image, info).number()
}

/// Copies a description of the saved state of an image, as `eros describe` prints it.
#[unsafe(no_mangle)]
pub extern "C" fn vezhnake_describe(
    alloc: Global,
    image: &[u8],
    text: &mut [u8],
    size: &mut usize,
) -> u32
    ensures { (status : ImageStatus) × (result ≡ image_number status)
        × DescribesBytes image.now text.old text.new size.old size.new status }
{
    describe_bytes(alloc, image, text, size).number()
}

/// Copies the line that `eros explain` prints about an image.
#[unsafe(no_mangle)]
pub extern "C" fn vezhnake_explain(
    alloc: Global,
    image: &[u8],
    line: &mut [u8],
    size: &mut usize,
) -> u32
    ensures { (status : ImageStatus) × (result ≡ image_number status)
        × ExplainsBytes image.now line.old line.new size.old size.new status }
{
    explain_bytes(alloc, image, line, size).number()
}

/// Copies the line that `eros explain` prints about a description.
#[unsafe(no_mangle)]
pub extern "C" fn vezhnake_explain_text(
    alloc: Global,
    text: &[u8],
    line: &mut [u8],
    size: &mut usize,
) -> u32
    ensures { (status : ImageStatus) × (result ≡ image_number status)
        × ExplainsText text.now line.old line.new size.old size.new status }
{
    explain_text(alloc, text, line, size).number()
}
