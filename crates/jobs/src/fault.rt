// The faults of the commands of `eros`.
ghost use Rattle.std.specs.Prelude.{◌≡◌, ◌≤◌, ◌∷◌, [], codes, length};
ghost use Rattle.json_lines.specs.Objects.{text_object};
ghost use Rattle.model.specs.Text.{line_of};
ghost use Rattle.script.specs.Writing.{Writes};
ghost use Rattle.jobs.specs.Faults.{HasStop, IsRunEnd, IsReported, after_write, build_text, fault_json, fault_text};
ghost use Rattle.jobs.specs.Faults.{open_json, open_text};
ghost use Rattle.jobs.specs.Faults.{not_saved_text, sizes_text, status_of, stop_text, upgrade_text};

use checkpoint::OpenFault;
use description::GrowthFault;
use image_builder::{BuildFault, UpgradeFault};
use json_lines::{Key, Member, text_object};
use model::Refusal;
use runs::Stop;
use script::{LineText, Output, RunFault, refusal_line};

/// Why a command of `eros` failed.
#[derive(Clone, Copy)]
pub enum Fault {
    /// The description's file can't be read.
    CannotReadDescription,
    /// The description isn't TOML.
    NotToml,
    /// The image's file can't be made, or is too small.
    CannotWriteImage,
    /// The image's file can't be opened as a device.
    CannotOpenImage,
    /// The script's file can't be read.
    CannotReadScript,
    /// Standard output can't be written.
    CannotWriteOutput,
    /// Memory ran out.
    NoMemory,
    /// No image was built, for this reason.
    Build(BuildFault),
    /// The device could not be opened, for this reason.
    Open(OpenFault),
    /// No image was upgraded, for this reason.
    Upgrade(UpgradeFault),
    /// A strict run ended at a line.
    Stopped(Stop),
    /// This number isn't the number of a process.
    NoProcess(u64),
    /// The graph has no object with this number.
    NoObject(u64),
    /// The description can't be renumbered for these sizes.
    Sizes(GrowthFault),
    /// A stage of saving was refused.
    NotSaved(Refusal),
}

/// Returns the outcome of a run as the outcome of its command. If an observer ended the run, `stop` says
/// where.
pub(crate) fn of_run(
    outcome: Result<Result<(), RunFault>, OpenFault>,
    stop: Option<Stop>,
) -> Result<(), Fault>
    requires { HasStop outcome stop }
    ensures { IsRunEnd outcome stop result }
{
    match outcome {
        Ok(Ok(())) => Ok(()),
        Ok(Err(RunFault::Read)) => Err(Fault::CannotReadScript),
        Ok(Err(RunFault::Write)) => Err(Fault::CannotWriteOutput),
        Ok(Err(RunFault::Stopped)) => match stop {
            Some(stop) => Err(Fault::Stopped(stop)),
            None => unreachable!(),
        },
        Err(fault) => Err(Fault::Open(fault)),
    }
}

/// Returns the outcome of a command whose last step is a write with this result.
pub fn of_write(wrote: Result<(), RunFault>) -> Result<(), Fault>
    ensures { result ≡ after_write wrote }
{
    match wrote {
        Ok(()) => Ok(()),
        Err(_) => Err(Fault::CannotWriteOutput),
    }
}

// Returns the message for an image that was not built.
fn build_line(fault: BuildFault) -> LineText
    ensures text { result ≡ build_text fault }
    ensures short { length result ≤ 60 }
{
    match fault {
        BuildFault::Small => LineText::new(b"eros: cannot write image"),
        BuildFault::Failed => LineText::new(b"eros: device failed"),
        BuildFault::NoMemory => LineText::new(b"eros: no memory"),
        BuildFault::Shape
        | BuildFault::Limits
        | BuildFault::Number
        | BuildFault::Field
        | BuildFault::Target
        | BuildFault::Owner => LineText::numbered(b"eros: bad description", fault.number()),
    }
}

// Returns the message for a device that was not opened.
fn open_line(fault: OpenFault) -> LineText
    ensures text { result ≡ open_text fault }
    ensures short { length result ≤ 60 }
{
    match fault {
        OpenFault::Failed => LineText::new(b"eros: device failed"),
        OpenFault::NoMemory => LineText::new(b"eros: no memory"),
        OpenFault::Bad(reason) => LineText::numbered(b"eros: bad image", reason.number()),
    }
}

// Returns the JSON object for a device that was not opened.
fn open_json(fault: OpenFault) -> LineText
    ensures text { result ≡ open_json fault }
    ensures short { length result ≤ 300 }
{
    match fault {
        OpenFault::Failed => text_object(b"fault", b"device failed", &[]),
        OpenFault::NoMemory => text_object(b"fault", b"no memory", &[]),
        OpenFault::Bad(reason) => {
            let reason = Member::Number(Key::Reason, reason.number());
            text_object(b"fault", b"bad image", &[reason])
        }
    }
}

// Returns the JSON object for a fault about a number.
fn numbered_json(name: &[u8], number: u64) -> LineText
    requires { length name.now ≤ 40 }
    ensures text { result ≡ text_object (codes "fault") name.now (Member.Number Key.Number number ∷ []) }
    ensures short { length result ≤ 300 }
{
    text_object(b"fault", name, &[Member::Number(Key::Number, number)])
}

// Returns the message for an image that was not upgraded.
fn upgrade_line(fault: UpgradeFault) -> LineText
    ensures text { result ≡ upgrade_text fault }
    ensures short { length result ≤ 60 }
{
    match fault {
        UpgradeFault::Old(why) => open_line(why),
        UpgradeFault::Small => LineText::new(b"eros: cannot write image"),
        UpgradeFault::Failed => LineText::new(b"eros: device failed"),
        UpgradeFault::NoMemory => LineText::new(b"eros: no memory"),
    }
}

// Returns the message for a description that can't be renumbered.
fn sizes_line(fault: GrowthFault) -> LineText
    ensures text { result ≡ sizes_text fault }
    ensures short { length result ≤ 60 }
{
    match fault {
        GrowthFault::Limits => LineText::new(b"eros: no image has these sizes"),
        GrowthFault::Nodes => LineText::new(b"eros: too few nodes"),
        GrowthFault::Pages => LineText::new(b"eros: too few pages"),
        GrowthFault::NoMemory => LineText::new(b"eros: no memory"),
    }
}

// Returns the message for where a strict run ended.
fn stop_line(stop: Stop) -> LineText
    ensures text { result ≡ stop_text stop }
    ensures short { length result ≤ 120 }
{
    let mut line = LineText::numbered(b"eros: stopped at line", stop.line);
    line.push(b":");
    stop.cause.add_to(&mut line);
    line
}

// Returns the message for a stage of saving that was refused.
fn unsaved_line(refusal: Refusal) -> LineText
    ensures text { result ≡ not_saved_text refusal }
    ensures short { length result ≤ 60 }
{
    let mut line = LineText::new(b"eros: not saved:");
    line.word(refusal_line(refusal).as_bytes());
    line
}

impl Fault {
    // Returns the message of this fault.
    fn line(self) -> LineText
        ensures text { result ≡ fault_text self }
        ensures short { length result ≤ 120 }
    {
        match self {
            Fault::CannotReadDescription => LineText::new(b"eros: cannot read description"),
            Fault::NotToml => LineText::new(b"eros: bad description"),
            Fault::CannotWriteImage => LineText::new(b"eros: cannot write image"),
            Fault::CannotOpenImage => LineText::new(b"eros: cannot open image"),
            Fault::CannotReadScript => LineText::new(b"eros: cannot read script"),
            Fault::CannotWriteOutput => LineText::new(b"eros: cannot write output"),
            Fault::NoMemory => LineText::new(b"eros: no memory"),
            Fault::Build(fault) => build_line(fault),
            Fault::Open(fault) => open_line(fault),
            Fault::Upgrade(fault) => upgrade_line(fault),
            Fault::Stopped(stop) => stop_line(stop),
            Fault::NoProcess(number) => LineText::numbered(b"eros: no process", number),
            Fault::NoObject(number) => LineText::numbered(b"eros: no object", number),
            Fault::Sizes(fault) => sizes_line(fault),
            Fault::NotSaved(refusal) => unsaved_line(refusal),
        }
    }

    // Returns the fault as a JSON object. If no command with `--json` has this fault, the object has
    // only a name.
    fn json(self) -> LineText
        ensures text { result ≡ fault_json self }
        ensures short { length result ≤ 300 }
    {
        match self {
            Fault::CannotReadDescription => {
                text_object(b"fault", b"cannot read description", &[])
            }
            Fault::NotToml => text_object(b"fault", b"bad description", &[]),
            Fault::CannotWriteImage => text_object(b"fault", b"cannot write image", &[]),
            Fault::CannotOpenImage => text_object(b"fault", b"cannot open image", &[]),
            Fault::CannotReadScript => text_object(b"fault", b"cannot read script", &[]),
            Fault::CannotWriteOutput => text_object(b"fault", b"cannot write output", &[]),
            Fault::NoMemory => text_object(b"fault", b"no memory", &[]),
            Fault::Open(fault) => open_json(fault),
            Fault::NoProcess(number) => numbered_json(b"no process", number),
            Fault::NoObject(number) => numbered_json(b"no object", number),
            Fault::Build(_) => text_object(b"fault", b"not built", &[]),
            Fault::Upgrade(_) => text_object(b"fault", b"not upgraded", &[]),
            Fault::Stopped(_) => text_object(b"fault", b"stopped", &[]),
            Fault::Sizes(_) => text_object(b"fault", b"not renumbered", &[]),
            Fault::NotSaved(_) => text_object(b"fault", b"not saved", &[]),
        }
    }

    /// Writes the fault as a JSON object, on a line. Returns `RunFault::Write` if the writer fails or accepts no
    /// bytes.
    pub fn tell_json<W: Output>(self, writer: &mut W) -> Result<(), RunFault>
        ensures { Writes (W.written writer.old) (W.written writer.new) result
            (line_of (fault_json self)) }
    {
        self.json().write_to(writer)
    }

    /// Writes the message of the fault as a line. Returns `RunFault::Write` if the writer fails or accepts no bytes.
    pub fn tell<V: Output>(self, errors: &mut V) -> Result<(), RunFault>
        ensures { Writes (V.written errors.old) (V.written errors.new) result
            (line_of (fault_text self)) }
    {
        self.line().write_to(errors)
    }
}

/// Returns the exit status of a command with this outcome: 0 for success, 1 for a fault. Before that, writes the
/// message of a fault.
pub fn status<V: Output>(outcome: Result<(), Fault>, errors: &mut V) -> u8
    ensures status { result ≡ status_of outcome }
    ensures reported { IsReported outcome (V.written errors.old) (V.written errors.new) }
{
    match outcome {
        Ok(()) => 0,
        Err(fault) => {
            let _reported = fault.tell(errors);
            1
        }
    }
}
