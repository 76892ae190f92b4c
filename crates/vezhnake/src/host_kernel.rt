// A kernel over the host's storage.
ghost use Rattle.std.specs.Prelude.{◌≡◌, ◌≢◌, ◌⊎◌, ◌<◌, ◌≤◌, ◌%◌, true, false, drop, length, IfErr, IfOk, IfNone};
ghost use Rattle.std.specs.Prelude.{IfSome, IsErr, Err, None, map, take, [], ◌∷◌};
ghost use Rattle.kernel.specs.Opening.{IsSetAt, Opens};
ghost use Rattle.vezhnake.specs.Hosting.{IsFresh, RunsText, host_disk};
ghost use Rattle.vezhnake.specs.Sessions.{IsCapacity, OpensKernel, RefusesFrom, RunsKernel, calls_in, kept_from};
ghost use Rattle.vezhnake.specs.HostCalls.{encoded};
ghost use Rattle.vezhnake.specs.RawCommands.{command_of};
ghost use Rattle.vezhnake.specs.Serving.{EndsAt};
ghost use Rattle.vezhnake.specs.TypedCalls.{ServesEachOver, ServesLineOver};

use crate::raw_command::RawCommand;
use crate::raw_reply::RawReply;
use crate::recorder::Recorder;
use crate::serving::{serve, serve_each, serve_one};
use crate::status::Status;
use crate::text_script::TextScript;
use checkpoint::ObjectStore;
use device::{MAX_SECTORS, SECTOR_SIZE};
use devices::{CopiedFile, SectorCopy};
use kernel::{Kernel, Served};
use model::Command;
use object_cache::{BoundedCache, Capacity, PlainStore};
use runs::laws::crashes_in_runs_are_survived;
use runs::run;
use script::{CountedWriter, RunFault};
use std::alloc::{AllocError, Global};
use std::mem::replace;

/// The host's storage, as a device.
pub type HostDevice = CopiedFile<Recorder>;

/// A kernel over the host's storage, with one of the two stores.
#[derive(Drop)]
pub enum HostKernel {
    /// With all objects in memory.
    Plain(Kernel<HostDevice, PlainStore<HostDevice>>),
    /// With a cache of some objects.
    Bounded(Kernel<HostDevice, BoundedCache<HostDevice>>),
}

// Returns a device over storage that holds these bytes. Fails only if memory runs out.
#[tactic(auto, using(crate::proofs::Opening::fresh_of))]
fn device_over(alloc: Global, image: &[u8]) -> Result<HostDevice, AllocError>
    requires whole { length image.now % 512 ≡ 0 }
    requires few { length image.now ≤ 67108864 }
    ensures { IfOk result (λ device. IsFresh image.now device) }
{
    let copy = SectorCopy::of(alloc, image)?;
    let recorder = Recorder::new(alloc, image);
    Ok(CopiedFile::new(copy, recorder))
}

// Opens a kernel over a device, with an object store of type `S`.
#[tactic(auto, using(crate::proofs::Opening::refused_from))]
fn open_kernel<S: ObjectStore<HostDevice>>(
    alloc: Global,
    device: HostDevice,
    setting: S::Setting,
) -> Result<Kernel<HostDevice, S>, Status>
    ensures opened { IfOk result (λ kernel. Opens host_disk S.view S.parts device kernel) }
    ensures set { IfOk result (λ kernel. IsSetAt S.is_set setting kernel) }
    ensures refused { IfErr result (λ status. RefusesFrom device status) }
{
    match Kernel::<HostDevice, S>::open(alloc, device, setting) {
        Ok(kernel) => Ok(kernel),
        Err(refused) => Err(Status::from(refused.fault)),
    }
}

// Returns the capacity that `cache` stands for: `None` if it is 0. Returns `BadCache` if no cache has this capacity.
fn capacity_of(cache: u64) -> Result<Option<Capacity>, Status>
    ensures ok { IfOk result (λ capacity. IsCapacity cache capacity) }
    ensures err { IsErr result → (result ≡ Err Status.BadCache) × (cache ≢ 0) × ((cache < 8) ⊎ (8192 < cache)) }
{
    if cache == 0 {
        return Ok(None);
    }
    match Capacity::new(cache) {
        Some(capacity) => Ok(Some(capacity)),
        None => Err(Status::BadCache),
    }
}

// Runs a text as a script, and appends the answers.
fn run_lines<S: ObjectStore<HostDevice>>(
    alloc: Global,
    kernel: &mut Kernel<HostDevice, S>,
    text: &[u8],
    answers: &mut Vec<u8>,
) -> Result<(), RunFault>
    ensures runs { RunsText S.view S.parts kernel.old kernel.new text.now answers.old.items answers.new.items result }
    ensures fault { IfErr result (λ e. e ≡ RunFault.Write) }
{
    crashes_in_runs_are_survived::<HostDevice, S>();
    let mut reader = TextScript::new(text);
    let mut writer = CountedWriter::new(replace(answers, Vec::new(alloc)));
    let outcome = run(kernel, &mut reader, &mut writer);
    *answers = writer.into_inner();
    outcome
}

impl HostKernel {
    /// Opens a kernel over storage that holds these bytes. If `cache` is 0, all objects are kept in memory;
    /// otherwise it is the capacity of a cache.
    ///
    /// Returns:
    /// - `BadSize` or `BadCache`: an argument is out of range;
    /// - `Bad`: with the least reason to refuse the image;
    /// - `NoMemory`: memory ran out;
    /// - `Failed`: memory ran out for recording the sync that opening begins with.
    #[tactic(auto, using(crate::proofs::Opening::refused_by))]
    pub fn open(alloc: Global, image: &[u8], cache: u64) -> Result<HostKernel, Status>
        ensures { OpensKernel image.now cache result }
    {
        if image.len() % SECTOR_SIZE != 0 || image.len() > MAX_SECTORS as usize * SECTOR_SIZE {
            return Err(Status::BadSize);
        }
        let capacity = match capacity_of(cache) {
            Ok(capacity) => capacity,
            Err(status) => return Err(status),
        };
        let Ok(device) = device_over(alloc, image) else {
            return Err(Status::NoMemory);
        };
        match capacity {
            Some(capacity) => match open_kernel::<BoundedCache<HostDevice>>(
                alloc, device, capacity,
            ) {
                Ok(kernel) => Ok(HostKernel::Bounded(kernel)),
                Err(status) => Err(status),
            },
            None => match open_kernel::<PlainStore<HostDevice>>(alloc, device, ()) {
                Ok(kernel) => Ok(HostKernel::Plain(kernel)),
                Err(status) => Err(status),
            },
        }
    }

    /// Runs a text as a script, as `runs::run` does, and appends the answers.
    ///
    /// Returns `RunFault::Write` if memory for the answers runs out.
    pub fn run_text(
        &mut self,
        alloc: Global,
        text: &[u8],
        answers: &mut Vec<u8>,
    ) -> Result<(), RunFault>
        ensures runs { RunsKernel self.old self.new text.now answers.old.items answers.new.items result }
        ensures fault { IfErr result (λ e. e ≡ RunFault.Write) }
    {
        match self {
            HostKernel::Plain(kernel) => run_lines(alloc, kernel, text, answers),
            HostKernel::Bounded(kernel) => run_lines(alloc, kernel, text, answers),
        }
    }

    /// Carries out a command, as a run does for the script line with the same meaning.
    pub fn serve(&mut self, command: &Command) -> Served
        ensures { ServesLineOver self.old self.new command.now result }
    {
        match self {
            HostKernel::Plain(kernel) => serve(kernel, command),
            HostKernel::Bounded(kernel) => serve(kernel, command),
        }
    }

    /// Carries out a command, as `serving::serve_one` does.
    #[inline(always)]
    pub fn serve_one(&mut self, raw: &RawCommand) -> Option<RawReply>
        ensures served { IfSome result (λ reply. ServesEachOver self.old self.new (command_of raw.now ∷ [])
            (reply ∷ [])) }
        ensures none { IfNone result ((command_of raw.now ≡ None) × ServesEachOver self.old self.new [] []) }
    {
        match self {
            HostKernel::Plain(kernel) => serve_one(kernel, raw),
            HostKernel::Bounded(kernel) => serve_one(kernel, raw),
        }
    }

    /// Carries out commands one after another, as `serving::serve_each` does.
    pub fn serve_each(
        &mut self,
        commands: &[RawCommand],
        stops: bool,
        replies: &mut [RawReply],
    ) -> usize
        requires { length commands.now ≤ length replies.old }
        ensures served { ServesEachOver self.old self.new (take result (map command_of commands.now))
            (take result replies.new) }
        ensures rest { drop result replies.new ≡ drop result replies.old }
        ensures ends { EndsAt stops (map command_of commands.now) replies.new result }
    {
        match self {
            HostKernel::Plain(kernel) => serve_each(kernel, commands, stops, replies),
            HostKernel::Bounded(kernel) => serve_each(kernel, commands, stops, replies),
        }
    }

    // Returns the recorder beneath the kernel.
    #[tactic(auto, using(crate::proofs::Surviving::calls_are, crate::proofs::Surviving::start_is))]
    fn recorder(&self) -> &Recorder
        ensures calls { result.now.history.calls ≡ calls_in self.now }
        ensures start { result.now.pending.start ≡ kept_from self.now }
    {
        match self {
            HostKernel::Plain(kernel) => kernel.device().file(),
            HostKernel::Bounded(kernel) => kernel.device().file(),
        }
    }

    /// Returns the encoded calls after the first `taken`, or `None` if they aren't kept any more. They are kept if
    /// `taken` is the number of calls before the kept ones, or of all calls.
    pub fn since(&self, taken: u64) -> Option<&[u8]>
        ensures some { IfSome result (λ bytes. bytes.now ≡ encoded (drop taken (calls_in self.now))) }
        ensures none { IfNone result ((taken ≢ kept_from self.now) × (taken ≢ length (calls_in self.now))) }
    {
        self.recorder().since(taken)
    }

    /// Returns how many device calls were recorded in all.
    pub fn count(&self) -> u64
        ensures { result ≡ length (calls_in self.now) }
    {
        self.recorder().count()
    }

    /// Records that all device calls so far were taken, as `Recorder::note_taken` does, and returns their count.
    pub fn note_taken(&self) -> u64
        ensures { result ≡ length (calls_in self.now) }
    {
        self.recorder().note_taken()
    }
}
