// A machine that is up or down, and its steps.
ghost use Rattle.std.specs.Prelude.{◌≡◌, List, None, Some, false, true, IfOk, IfErr};
ghost use Rattle.model.specs.declared.command.Command.TheVariants as command;
ghost use Rattle.model.specs.declared.command.Command.TheVariants.{Invoke};
ghost use Rattle.model.specs.declared.command.Invocation.{Invocation};
ghost use Rattle.model.specs.declared.geometry.Geometry.{Geometry};
ghost use Rattle.model.specs.Machine.{Saved};
ghost use Rattle.model.specs.Step.{opens, takes_memory};
ghost use Rattle.kernel.specs.Machine.{MakesNoDeviceCall, NeedsNoDeviceCall, answer_with};
ghost use Rattle.recovery.specs.Denotes.{Leaves};
ghost use Rattle.recovery.specs.Recovered.{RefusesToOpen};
ghost use Rattle.kernel.specs.Power.{power_of};
ghost use Rattle.kernel.specs.Standing.{HasCode, HasDevice, HasNoneToMove, IsCaused, IsDeviceOf, IsReported};
ghost use Rattle.kernel.specs.Standing.{IsSameDisk, SameDevice, Serves, disk_of, done_with};
ghost use Rattle.kernel.specs.Opening.{IsNoReason, IsSetAt, IsSomeDown, Opens, Reopened, refused_by};

use crate::processes::Served;
use crate::serving::{invoke, serve};
use checkpoint::{Checkpoint, ObjectStore, OpenFault, OpenRefused};
use device::Device;
use model::{Answer, Command, Invocation, Refusal, ResultCode};
use recovery::{Live, recover, recover_in};
use std::alloc::Global;
use std::marker::Model;

/// A persistent machine of objects over a device (EROS, KeyKOS). It carries out what processes do,
/// checkpoints the whole machine, and recovers after a restart or a power cut.
///
/// It is up with a store. After a device failure it is down until the device is opened again.
#[derive(Drop)]
pub struct Kernel<D: Device, S: ObjectStore<D>> {
    // `None` while the machine is down.
    live: Option<Live<S>>,
    // The device, while the machine is down.
    device: Option<D>,
    // Memory that a closed store left for the next one.
    memory: Option<S::Memory>,
    setting: S::Setting,
    // For the commands that take memory: `Show`, `Restart` and `Cut`.
    alloc: Global,
}

impl<D: Device, S: ObjectStore<D>> Model for Kernel<D, S> {
    ghost use Rattle.kernel.specs.Power.{Power, power_of};
    ghost use Rattle.kernel.specs.Standing.{IsSomeMachine};

    ghost Value = { Power D S };

    ghost view = { λ k. power_of k.live k.device };

    ghost invariant = { λ k. IsSomeMachine D.disk S.view S.parts (power_of k.live k.device) };
}

// Takes the device from a kernel's fields, and closes the store. The store's memory stays in
// `memory`.
#[inline(never)]
fn take_device<D: Device, S: ObjectStore<D>>(
    live: &mut Option<Live<S>>,
    device: &mut Option<D>,
    memory: &mut Option<S::Memory>,
) -> D
    requires { HasDevice D.disk S.view S.parts (power_of live.old device.old) }
    ensures is { IsDeviceOf D.disk S.view S.parts (power_of live.old device.old) result }
    ensures down { live.new ≡ None }
{
    match live.take() {
        Some(live) => live.store.close(memory),
        None => match device.take() {
            Some(device) => device,
            None => unreachable!(),
        },
    }
}

// Closes the store after a device failure. Afterwards the machine is down.
#[inline(never)]
fn go_down<D: Device, S: ObjectStore<D>>(
    live: &mut Option<Live<S>>,
    device: &mut Option<D>,
    memory: &mut Option<S::Memory>,
)
    requires { HasDevice D.disk S.view S.parts (power_of live.old device.old) }
    ensures down { live.new ≡ None }
    ensures device { (d : D) → IsDeviceOf D.disk S.view S.parts (power_of live.old device.old) d
        → device.new ≡ Some d }
{
    let closed = take_device::<D, S>(live, device, memory);
    *device = Some(closed);
}

// Returns the refusal if a device can't be opened again.
fn refusal(fault: OpenFault) -> Refusal
    requires { IsNoReason fault }
    ensures why { result ≡ refused_by fault }
    ensures only_reads { NeedsNoDeviceCall result → ⊥ }
{
    match fault {
        OpenFault::Failed => Refusal::Fault,
        OpenFault::NoMemory => Refusal::NoMemory,
        OpenFault::Bad(_) => unreachable!(),
    }
}

// Opens a device again, and returns the answer. After a refusal the machine is down.
fn rise<D: Device, S: ObjectStore<D>>(
    alloc: Global,
    opened: D,
    setting: S::Setting,
    memory: &mut Option<S::Memory>,
    live: &mut Option<Live<S>>,
    device: &mut Option<D>,
) -> Answer
    requires left { IsSomeDown D.disk opened }
    requires down { live.old ≡ None }
    ensures reopened { (g : Geometry) (saved : List Saved) → Leaves g (D.disk opened) saved
        → Reopened D.disk S.view S.parts g saved opened result (power_of live.new device.new) }
    ensures only_reads { MakesNoDeviceCall result → ⊥ }
    ensures cause { IsCaused (D.disk opened)
        (disk_of D.disk S.view S.parts (power_of live.new device.new)) result }
{
    match recover_in::<D, S>(alloc, opened, setting, memory) {
        Ok(found) => {
            let saved = found.store.saved();
            *live = Some(found);
            Answer::At {
                generation: saved.generation,
                age: saved.age,
            }
        }
        Err(refused) => {
            let OpenRefused {
                fault,
                device: back,
            } = refused;
            *device = Some(back);
            Answer::Refused(refusal(fault))
        }
    }
}

impl<D: Device, S: ObjectStore<D>> Kernel<D, S> {
    /// Opens a device without writing to it. The machine is up at the saved state that its sectors
    /// denote.
    ///
    /// A refusal gives the device back: `Failed` exactly if the device failed, `NoMemory` only if
    /// memory ran out, else the least of the ten reasons to refuse an image. No reason applies to
    /// an image that a crash of a kernel left.
    #[tactic(auto, using(crate::proofs::Machines::opens_up))]
    pub fn open(alloc: Global, device: D, setting: S::Setting) -> Result<Self, OpenRefused<D>>
        ensures opened { IfOk result (λ k. Opens D.disk S.view S.parts device k) }
        ensures set { IfOk result (λ k. IsSetAt S.is_set setting k) }
        ensures refused { IfErr result (λ r. RefusesToOpen D.disk device r.device r.fault) }
    {
        match recover::<D, S>(alloc, device, setting) {
            Ok(live) => Ok(Kernel {
                live: Some(live),
                device: None,
                memory: None,
                setting,
                alloc,
            }),
            Err(refused) => Err(refused),
        }
    }

    // Serves a command that neither invokes nor opens the device. After a device failure the
    // machine is down.
    fn go_on(&mut self, command: Command) -> Answer
        requires goes_on { opens command ≡ false }
        requires other { (i : Invocation) → command ≡ Invoke i → ⊥ }
        ensures serves { Serves D.disk S.view S.parts self.old command result self.new }
        ensures untouched { MakesNoDeviceCall result → SameDevice D.disk S.view S.parts self.old self.new }
        ensures none_to_move { HasNoneToMove D.disk S.view S.parts self.old command
            → SameDevice D.disk S.view S.parts self.old self.new }
        ensures cause { IsCaused (disk_of D.disk S.view S.parts self.old)
            (disk_of D.disk S.view S.parts self.new) result }
    {
        let alloc = self.alloc;
        match &mut self.live {
            Some(live) => match serve::<D, S>(alloc, live, command) {
                Ok(answer) => answer,
                Err(why) => match why {
                    Refusal::Fault => {
                        go_down::<D, S>(&mut self.live, &mut self.device, &mut self.memory);
                        Answer::Refused(Refusal::Fault)
                    }
                    refusal => Answer::Refused(refusal),
                },
            },
            None => Answer::Refused(Refusal::Down),
        }
    }

    // Carries out an invocation. After a device failure the machine is down.
    fn invoke(&mut self, invocation: &Invocation) -> Result<Option<ResultCode>, Refusal>
        ensures serves { Serves D.disk S.view S.parts self.old (Invoke invocation.now) (answer_with result) self.new }
        ensures untouched { MakesNoDeviceCall (answer_with result)
            → SameDevice D.disk S.view S.parts self.old self.new }
        ensures cause { IsCaused (disk_of D.disk S.view S.parts self.old)
            (disk_of D.disk S.view S.parts self.new) (answer_with result) }
        ensures code { IfOk result
            (λ code. HasCode D.disk S.view S.parts self.old (Invoke invocation.now) (done_with code)) }
    {
        match &mut self.live {
            Some(live) => match invoke::<D, S>(live, invocation) {
                Ok(code) => Ok(code),
                Err(why) => match why {
                    Refusal::Fault => {
                        go_down::<D, S>(&mut self.live, &mut self.device, &mut self.memory);
                        Err(Refusal::Fault)
                    }
                    refusal => Err(refusal),
                },
            },
            None => Err(Refusal::Down),
        }
    }

    // Opens the device again.
    #[inline(never)]
    fn restart(&mut self) -> Answer
        ensures serves { Serves D.disk S.view S.parts self.old command.Restart result self.new }
        ensures only_reads { MakesNoDeviceCall result → ⊥ }
        ensures cause { IsCaused (disk_of D.disk S.view S.parts self.old)
            (disk_of D.disk S.view S.parts self.new) result }
    {
        let device = take_device::<D, S>(&mut self.live, &mut self.device, &mut self.memory);
        rise::<D, S>(
            self.alloc,
            device,
            self.setting,
            &mut self.memory,
            &mut self.live,
            &mut self.device,
        )
    }

    // Cuts the power, and opens the device again.
    #[inline(never)]
    fn cut(&mut self) -> Answer
        ensures serves { Serves D.disk S.view S.parts self.old command.Cut result self.new }
        ensures only_reads { MakesNoDeviceCall result → ⊥ }
        ensures cause { IsCaused (disk_of D.disk S.view S.parts self.old)
            (disk_of D.disk S.view S.parts self.new) result }
    {
        let mut device = take_device::<D, S>(&mut self.live, &mut self.device, &mut self.memory);
        device.power_cut();
        rise::<D, S>(
            self.alloc,
            device,
            self.setting,
            &mut self.memory,
            &mut self.live,
            &mut self.device,
        )
    }

    /// Serves one command, and returns its answer.
    ///
    /// - A refusal changes nothing, with two exceptions that leave the machine down: `Fault`, and
    ///   `NoMemory` at `Restart` or `Cut`.
    /// - If several refusals apply, the answer is the first (see `Refusal`).
    /// - `Fault` is answered exactly if the device failed. `NoMemory` is answered only to `Show`,
    ///   `Restart` and `Cut`: no other command takes memory.
    /// - A machine that is down accepts only `Restart` and `Cut`.
    /// - `BadNumber`, `NoProcess` and `Down` make no device call, nor does `Migrate` if everything saved
    ///   is home.
    ///
    /// After a crash at any moment the image denotes the saved state, or a candidate if the machine is
    /// down. During a `Commit`, a `Journal`, or the `Migrate` that brings the last object home, it may
    /// denote the state that this command saves.
    pub fn step(&mut self, command: Command) -> Answer
        ensures serves { Serves D.disk S.view S.parts self.old command result self.new }
        ensures untouched { MakesNoDeviceCall result
            → SameDevice D.disk S.view S.parts self.old self.new }
        ensures none_to_move { HasNoneToMove D.disk S.view S.parts self.old command
            → SameDevice D.disk S.view S.parts self.old self.new }
        ensures cause { IsCaused (disk_of D.disk S.view S.parts self.old)
            (disk_of D.disk S.view S.parts self.new) result }
        ensures memory { result ≡ Answer.Refused Refusal.NoMemory → takes_memory command ≡ true }
    {
        self.step_with_code(&command).answer
    }

    /// Serves one command as `step` does, and returns the result code too. The code is `None`
    /// unless an invocation of a kernel object was carried out.
    pub fn step_with_code(&mut self, command: &Command) -> Served
        ensures serves { Serves D.disk S.view S.parts self.old command.now result.answer self.new }
        ensures untouched { MakesNoDeviceCall result.answer
            → SameDevice D.disk S.view S.parts self.old self.new }
        ensures none_to_move { HasNoneToMove D.disk S.view S.parts self.old command.now
            → SameDevice D.disk S.view S.parts self.old self.new }
        ensures cause { IsCaused (disk_of D.disk S.view S.parts self.old)
            (disk_of D.disk S.view S.parts self.new) result.answer }
        ensures code { HasCode D.disk S.view S.parts self.old command.now result }
        ensures memory { result.answer ≡ Answer.Refused Refusal.NoMemory → takes_memory command.now ≡ true }
    {
        // For the proof of `memory`: this borrow brings in the kernel's invariant.
        let _ = &self.live;
        match command {
            Command::Invoke(invocation) => match self.invoke(invocation) {
                Ok(code) => Served {
                    answer: Answer::Done,
                    code,
                },
                Err(why) => Served::from(Answer::Refused(why)),
            },
            Command::Restart => Served::from(self.restart()),
            Command::Cut => Served::from(self.cut()),
            other => Served::from(self.go_on(*other)),
        }
    }

    /// Returns the generation, age and entries of the committed checkpoint, or `None` if the
    /// machine is down.
    pub fn saved(&self) -> Option<Checkpoint>
        ensures { IsReported D.disk S.view S.parts self.now result }
    {
        match &self.live {
            Some(live) => Some(live.store.saved()),
            None => None,
        }
    }

    /// Returns the device beneath. Makes no device call.
    pub fn device(&self) -> &D
        ensures is { IsDeviceOf D.disk S.view S.parts self.now result.now }
        ensures beneath { IsSameDisk (D.disk result.now) (disk_of D.disk S.view S.parts self.now) }
    {
        match &self.live {
            Some(live) => live.store.device(),
            None => match &self.device {
                Some(device) => device,
                None => unreachable!(),
            },
        }
    }

    /// Returns the device beneath, and drops the rest. Makes no device call.
    pub fn into_device(self) -> D
        ensures is { IsDeviceOf D.disk S.view S.parts self result }
        ensures beneath { IsSameDisk (D.disk result) (disk_of D.disk S.view S.parts self) }
    {
        let Kernel { live, device, .. } = self;
        match live {
            Some(live) => live.store.into_device(),
            None => match device {
                Some(device) => device,
                None => unreachable!(),
            },
        }
    }
}
