// Sessions: an open handle owns one.
ghost use Rattle.std.specs.Prelude.{◌≡◌, IfOk, IfErr, IfSome, Err};
ghost use Rattle.vezhnake.specs.TypedCalls.{SavesSession, ServesBatch, ServesOne, ShowsObject, ShowsPage};
ghost use Rattle.vezhnake.specs.Sessions.{CollectsCalls, CopiesAnswer, CopiesOut, OpensKernel, OpensSession};
ghost use Rattle.vezhnake.specs.Sessions.{StepsSession, TakesCalls};
ghost use Rattle.vezhnake.specs.Statuses.{kept_status};

use crate::host_kernel::HostKernel;
use crate::raw_command::{RawCommand, save_stages};
use crate::raw_object::{RawObject, RawPage, copy_object, copy_words};
use crate::raw_reply::RawReply;
use crate::status::Status;
use model::Command;
use script::RunFault;
use std::alloc::Global;

/// A kernel over the host's storage, the last answers, and the device calls that wait for the host.
#[derive(Drop)]
pub struct Session {
    alloc: Global,
    kernel: HostKernel,
    // The answers to the last text that was run.
    answer: Vec<u8>,
    // The encoded device calls that the host hasn't taken yet.
    waiting: Vec<u8>,
    // How many device calls were collected so far. The host has taken them, or they wait here.
    collected: u64,
}

/// Why device calls can't be collected for the host.
#[derive(Clone, Copy)]
pub enum CallsFault {
    /// Memory for them ran out.
    NoMemory,
    /// The device no longer keeps them.
    CallsLost,
}

// Returns the status of a call that did its work: `Done`, unless its device calls couldn't be
// collected.
fn status_of(kept: Result<(), CallsFault>) -> Status
    ensures { result ≡ kept_status kept }
{
    match kept {
        Ok(()) => Status::Done,
        Err(why) => Status::from(why),
    }
}

/// Copies the bytes to the front of the buffer if they fit, and returns whether they do. Sets `size` to their
/// number in any case.
pub fn copy_out(bytes: &[u8], buffer: &mut [u8], size: &mut usize) -> bool
    ensures { CopiesOut bytes.now buffer.old buffer.new size.new result }
{
    *size = bytes.len();
    if bytes.len() > buffer.len() {
        return false;
    }
    buffer[..bytes.len()].copy_from_slice(bytes);
    true
}

// Moves a value to the heap, or drops it if memory runs out. It is generic to keep its proof short: for a session
// the proof would go through all that a session drops.
fn boxed<T: Drop>(alloc: Global, value: T) -> Option<Box<T>>
    ensures { IfSome result (λ boxed. boxed.value ≡ value) }
{
    match Box::new(alloc, value) {
        Ok(boxed) => Some(boxed),
        Err(_) => None,
    }
}

impl Session {
    /// Opens a session on storage that holds these bytes, as `HostKernel::open` does.
    pub fn open(alloc: Global, image: &[u8], cache: u64) -> Result<Session, Status>
        ensures opened { IfOk result (λ session. OpensSession image.now cache session) }
        ensures refused { IfErr result (λ status. OpensKernel image.now cache (Err status)) }
    {
        match HostKernel::open(alloc, image, cache) {
            Ok(kernel) => Ok(Session {
                alloc,
                kernel,
                answer: Vec::new(alloc),
                waiting: Vec::new(alloc),
                collected: 0,
            }),
            Err(status) => Err(status),
        }
    }

    /// Moves the session to the heap, or drops it if memory runs out.
    pub fn boxed(self) -> Option<Box<Session>>
        ensures { IfSome result (λ session. session.value ≡ self) }
    {
        boxed(self.alloc, self)
    }

    // Collects the device calls since the last time, after those that wait for the host.
    //
    // Returns `NoMemory` if memory for them runs out, and `CallsLost` if the device no longer keeps them. The earlier
    // calls still wait.
    #[inline(always)]
    #[tactic(auto, using(crate::proofs::Sessions::none_new, crate::proofs::Sessions::waits_after))]
    fn collect(&mut self) -> Result<(), CallsFault>
        ensures calls { CollectsCalls self.old self.new result }
        ensures kernel { self.new.kernel ≡ self.old.kernel }
        ensures answer { self.new.answer ≡ self.old.answer }
    {
        if self.kernel.count() == self.collected {
            return Ok(());
        }
        self.collect_new()
    }

    // Collects the device calls as `collect` does.
    #[inline(never)]
    #[tactic(auto, using(crate::proofs::Sessions::none_new, crate::proofs::Sessions::waits_after))]
    fn collect_new(&mut self) -> Result<(), CallsFault>
        ensures calls { CollectsCalls self.old self.new result }
        ensures kernel { self.new.kernel ≡ self.old.kernel }
        ensures answer { self.new.answer ≡ self.old.answer }
    {
        let Some(bytes) = self.kernel.since(self.collected) else {
            return Err(CallsFault::CallsLost);
        };
        match self.waiting.extend_from_slice(bytes) {
            Ok(()) => {
                self.collected = self.kernel.note_taken();
                Ok(())
            }
            Err(_) => Err(CallsFault::NoMemory),
        }
    }

    /// Runs a text as a script, keeps the answers, and copies them to the buffer. Collects the device calls for the
    /// host.
    ///
    /// Returns:
    /// - `SmallBuffer`: the answers don't fit;
    /// - `NoMemory`: memory ran out for the answers (then the lines up to that point were carried out), or for the
    ///   calls;
    /// - `CallsLost`: the device no longer keeps the calls.
    #[tactic(auto, using(crate::proofs::Saving::step_done, crate::proofs::Saving::step_small, crate::proofs::Saving::step_short, crate::proofs::Saving::step_kept))]
    pub fn step(&mut self, text: &[u8], buffer: &mut [u8], size: &mut usize) -> Status
        ensures { StepsSession self.old self.new text.now buffer.old buffer.new size.new result }
    {
        self.answer.clear();
        match self.kernel.run_text(self.alloc, text, &mut self.answer) {
            Ok(()) => {
                if let Err(lost) = self.collect() {
                    return Status::from(lost);
                }
                if copy_out(&self.answer, buffer, size) {
                    Status::Done
                } else {
                    Status::SmallBuffer
                }
            }
            Err(RunFault::Write) => match self.collect() {
                Ok(()) => Status::NoMemory,
                Err(fault) => Status::from(fault),
            },
            Err(RunFault::Read | RunFault::Stopped) => unreachable!(),
        }
    }

    /// Copies the answers to the text that `step` ran last. Returns `SmallBuffer` if they don't fit.
    pub fn copy_answer(&self, buffer: &mut [u8], size: &mut usize) -> Status
        ensures { CopiesAnswer self.now self.now buffer.old buffer.new size.new result }
    {
        if copy_out(&self.answer, buffer, size) {
            Status::Done
        } else {
            Status::SmallBuffer
        }
    }

    /// Carries out commands one after another, each as the script line with the same meaning, and writes their
    /// answers as numbers. Sets `served` to how many it carried out.
    ///
    /// Returns `BadCommand` if the next command is invalid: those before it were carried out. Returns `SmallBuffer`
    /// if there are fewer replies than commands: none was carried out. Returns `NoMemory` and `CallsLost` as
    /// `collect` does.
    #[tactic(auto, using(crate::proofs::Saving::batch_done, crate::proofs::Saving::batch_bad, crate::proofs::Saving::batch_kept))]
    pub fn serve(
        &mut self,
        commands: &[RawCommand],
        replies: &mut [RawReply],
        served: &mut usize,
    ) -> Status
        ensures { ServesBatch self.old self.new commands.now replies.old replies.new served.new result }
    {
        *served = 0;
        if replies.len() < commands.len() {
            return Status::SmallBuffer;
        }
        *served = self.kernel.serve_each(commands, false, replies);
        if let Err(why) = self.collect() {
            return Status::from(why);
        }
        if *served < commands.len() {
            Status::BadCommand
        } else {
            Status::Done
        }
    }

    /// Carries out a command, as `serve` carries out a batch of one.
    ///
    /// Returns `BadCommand` if its numbers encode no command, and else `NoMemory` and `CallsLost` as `collect` does.
    #[inline(always)]
    #[tactic(auto, using(crate::proofs::Saving::one_served, crate::proofs::Saving::one_bad, crate::proofs::Saving::one_kept))]
    pub fn serve_one(&mut self, command: &RawCommand, reply: &mut RawReply) -> Status
        ensures { ServesOne self.old self.new command.now reply.old reply.new result }
    {
        let Some(answer) = self.kernel.serve_one(command) else {
            if let Err(fault) = self.collect() {
                return Status::from(fault);
            }
            return Status::BadCommand;
        };
        *reply = answer;
        status_of(self.collect())
    }

    /// Saves the present state: migrates what an earlier save left, then freezes, stabilizes, commits and migrates,
    /// each as its script line. If one of these five stages is refused, it is the last one.
    ///
    /// Returns `SmallBuffer` if there are fewer than five replies: no stage was carried out. Returns `NoMemory` and
    /// `CallsLost` as `collect` does.
    #[tactic(auto, using(crate::proofs::Saving::saved))]
    pub fn save(&mut self, replies: &mut [RawReply], served: &mut usize) -> Status
        ensures { SavesSession self.old self.new replies.old replies.new served.new result }
    {
        *served = 0;
        let stages = save_stages();
        if replies.len() < stages.len() {
            return Status::SmallBuffer;
        }
        *served = self.kernel.serve_each(&stages, true, replies);
        status_of(self.collect())
    }

    /// Shows an object, as the line `show` does. If it is a page, copies its words. Returns `NoMemory` and
    /// `CallsLost` as `collect` does.
    #[tactic(auto, using(crate::proofs::Saving::page_shown))]
    pub fn page(&mut self, number: u64, page: &mut RawPage, reply: &mut RawReply) -> Status
        ensures { ShowsPage self.old self.new number page.old.words page.new.words reply.new result }
    {
        let served = self.kernel.serve(&Command::Show { number });
        *reply = RawReply::of(&served.answer, served.code);
        copy_words(&served.answer, page);
        drop(served);
        status_of(self.collect())
    }

    /// Shows an object, as the line `show` does, and copies it as numbers. Returns `NoMemory` and `CallsLost`
    /// as `collect` does.
    #[tactic(auto, using(crate::proofs::Saving::object_shown))]
    pub fn show(&mut self, number: u64, object: &mut RawObject, reply: &mut RawReply) -> Status
        ensures { ShowsObject self.old self.new number object.old object.new reply.new result }
    {
        let served = self.kernel.serve(&Command::Show { number });
        *reply = RawReply::of(&served.answer, served.code);
        copy_object(&served.answer, object);
        drop(served);
        status_of(self.collect())
    }

    /// Copies the encoded device calls that wait for the host, which has then taken them. Returns `SmallBuffer` if
    /// they don't fit; then the host has taken none.
    pub fn take_calls(&mut self, buffer: &mut [u8], size: &mut usize) -> Status
        ensures { TakesCalls self.old self.new buffer.old buffer.new size.new result }
    {
        if !copy_out(&self.waiting, buffer, size) {
            return Status::SmallBuffer;
        }
        self.waiting.clear();
        Status::Done
    }
}
