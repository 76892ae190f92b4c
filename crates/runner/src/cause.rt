// Telling a person why a command failed: the file and the cause.
use crate::reading::Reading;
use crate::{Streams, read};
use checkpoint::OpenFault;
use command_line::{Job, Script};
use devices::{FileDevice, FileFault};
use image_builder::{BuildFault, UpgradeFault};
use jobs::Fault;
use queries::explain_description;
use script::CountedWriter;
use std::fmt::Display;
use std::fs::{self, OpenOptions};
use std::io::{self, ErrorKind, Sink};
use std::os::unix::fs::FileTypeExt;

/// The message about a file that is neither a regular file nor, for an image, a block device.
pub(crate) const NO_FILE: &str = "not a regular file";

/// The cause of a fault, if the program recorded it.
#[derive(Drop)]
pub(crate) enum Cause {
    /// The cause wasn't recorded.
    Unknown,
    /// The system returned this error.
    System(io::Error),
    /// The file can't be used as a device.
    File(FileFault),
    /// The new file was made, but the system refused a later call.
    Unfinished,
    /// The file is neither a regular file nor a block device.
    NoImageFile,
    /// The file of the new image is the file that the image is made from.
    Source,
}

/// A fault whose message hasn't been written, with its cause.
#[derive(Drop)]
pub(crate) struct Refusal {
    pub(crate) fault: Fault,
    pub(crate) cause: Cause,
}

impl From<Fault> for Refusal {
    fn from(fault: Fault) -> Refusal {
        Refusal::new(fault, Cause::Unknown)
    }
}

impl Refusal {
    /// Returns a fault with this cause.
    pub(crate) fn new(fault: Fault, cause: Cause) -> Refusal {
        Refusal { fault, cause }
    }

    /// Returns the refusal for an error of the system: `NoMemory` if memory ran out, else the fault `otherwise`.
    pub(crate) fn of_io(error: io::Error, otherwise: Fault) -> Refusal {
        if error.kind() == ErrorKind::OutOfMemory {
            Refusal::from(Fault::NoMemory)
        } else {
            Refusal::new(otherwise, Cause::System(error))
        }
    }

    /// Returns the refusal for a file that can't be used as a device: `NoMemory` if memory ran out, else the fault
    /// `otherwise`.
    pub(crate) fn of_file(fault: FileFault, otherwise: Fault) -> Refusal {
        match fault {
            FileFault::NoMemory => Refusal::from(Fault::NoMemory),
            FileFault::Io | FileFault::Held => Refusal::new(otherwise, Cause::File(fault)),
        }
    }
}

// Returns the file of a job's description, if it has one.
fn description_of<'j>(job: &Job<'j>) -> Option<&'j str> {
    match job {
        Job::Build { description, .. } => Some(*description),
        _ => None,
    }
}

// Returns the file of the image that a job makes, if it makes one.
fn made_by<'j>(job: &Job<'j>) -> Option<&'j str> {
    match job {
        Job::Build { image, .. } => Some(*image),
        Job::Upgrade { new, .. } | Job::Copy { new, .. } => Some(*new),
        _ => None,
    }
}

// Returns the file of the image that a job opens, if it opens one.
fn opened_by<'j>(job: &Job<'j>) -> Option<&'j str> {
    match job {
        Job::Run(run) => Some(run.image),
        Job::Reach(reach) => Some(reach.image),
        Job::Shell { image, .. }
        | Job::Check { image, .. }
        | Job::Info { image, .. }
        | Job::Copy { image, .. }
        | Job::Describe { image, .. }
        | Job::Draw { image, .. } => Some(*image),
        Job::Upgrade { old, .. } => Some(*old),
        Job::Build { .. } | Job::Explain { .. } => None,
    }
}

// Returns the file of a job's script, if it has one.
fn script_of<'j>(job: &Job<'j>) -> Option<&'j str> {
    match job {
        Job::Run(run) => match run.script {
            Script::File(script) => Some(script),
            Script::Input => None,
        },
        _ => None,
    }
}

/// Writes a line about a file: the name of the file, and what is wrong with it.
pub(crate) fn tell_line<C: Display + Drop>(rt: &HostRuntime, file: &str, cause: C) {
    let _reported = eprintln!(rt; "eros: {file}: {cause}");
}

/// Returns streams in which the output is kept in memory, and errors are dropped.
pub(crate) fn line_in(rt: &HostRuntime) -> Streams<CountedWriter<Vec<u8>>, CountedWriter<Sink>> {
    Streams {
        output: CountedWriter::new(Vec::new(rt.alloc())),
        errors: CountedWriter::new(io::sink()),
    }
}

// Writes the line that `explain` wrote.
fn tell_explained(rt: &HostRuntime, file: &str, line: &[u8]) {
    if let Ok(line) = str::from_utf8(line)
        && !line.is_empty()
    {
        tell_line(rt, file, line.trim_end());
    }
}

// Writes why a description is bad, as `explain` does.
fn tell_description(rt: &HostRuntime, file: &str) {
    let Ok(bytes) = fs::read(rt, file) else {
        return;
    };
    let Ok(text) = str::from_utf8(&bytes) else {
        tell_line(rt, file, "not a text in UTF-8");
        return;
    };
    let Streams {
        mut output,
        mut errors,
    } = line_in(rt);
    if explain_description(rt.alloc(), text, &mut output, &mut errors) != 0 {
        tell_explained(rt, file, output.get_ref());
    }
}

// Writes why an image is bad, as `explain` does.
fn tell_image(rt: &HostRuntime, file: &str) {
    let Ok(device) = FileDevice::open_to_read(rt, file) else {
        return;
    };
    let mut line = line_in(rt);
    match read(
        rt,
        device,
        Reading::Explain,
        &mut line.output,
        &mut line.errors,
    ) {
        Ok(end) if end.status != 0 => tell_explained(rt, file, line.output.get_ref()),
        _ => {}
    }
}

// Whether a file is of a type that can hold an image.
fn may_have_image(rt: &HostRuntime, file: &str) -> bool {
    match fs::metadata(rt, file) {
        Ok(found) => {
            let kind = found.file_type();
            kind.is_file() || kind.is_block_device()
        }
        Err(_) => true,
    }
}

// Writes why a file can't be used as a device. It tries to open the file again, to get the system's message.
fn tell_file(rt: &HostRuntime, file: &str, how: &OpenOptions, fault: FileFault) {
    match fault {
        FileFault::Io => match how.open(rt, file) {
            Err(error) => tell_line(rt, file, error),
            Ok(_) if !may_have_image(rt, file) => tell_line(rt, file, NO_FILE),
            Ok(_) => tell_line(rt, file, fault),
        },
        FileFault::Held | FileFault::NoMemory => tell_line(rt, file, fault),
    }
}

// Writes why a script can't be read: it may be a folder, for example. It doesn't open a pipe again.
fn tell_script(rt: &HostRuntime, file: &str) {
    let is_pipe = match fs::metadata(rt, file) {
        Ok(found) => !found.is_file() && !found.is_dir(),
        Err(_) => false,
    };
    if is_pipe {
        return;
    }
    if let Err(error) = fs::read(rt, file) {
        tell_line(rt, file, error);
    }
}

// Writes why a file could not be opened with these options.
fn tell_refused(rt: &HostRuntime, file: &str, how: &OpenOptions, cause: Cause) {
    match cause {
        Cause::Unknown => {}
        Cause::System(error) => tell_line(rt, file, error),
        Cause::File(fault) => tell_file(rt, file, how, fault),
        Cause::Unfinished => tell_line(rt, file, "it can't have the length of the image"),
        Cause::NoImageFile => tell_line(rt, file, NO_FILE),
        Cause::Source => tell_line(rt, file, "the image is made of this file"),
    }
}

// Returns the options to open an image: to write it if `is_written`, to make it if `is_made`.
fn options(is_written: bool, is_made: bool) -> OpenOptions {
    let mut how = OpenOptions::new();
    how.read(true).write(is_written).create(is_made);
    how
}

// Writes why the image of a job could not be opened.
fn tell_unopened(rt: &HostRuntime, job: &Job<'_>, cause: Cause) {
    let is_written = match job {
        Job::Run(_) | Job::Shell { .. } => true,
        _ => false,
    };
    if let Some(file) = opened_by(job) {
        tell_refused(rt, file, &options(is_written, false), cause);
    }
}

// Writes why the description of a job is bad or could not be read.
fn tell_undescribed(rt: &HostRuntime, job: &Job<'_>, cause: Cause) {
    let Some(file) = description_of(job) else {
        return;
    };
    match cause {
        Cause::System(error) => tell_line(rt, file, error),
        _ => tell_description(rt, file),
    }
}

/// Writes a line with the file and the cause of a job's fault, to follow the line of the fault. If the fault is about
/// no file, or its cause isn't known, writes nothing.
pub(crate) fn tell_cause(rt: &HostRuntime, job: &Job<'_>, fault: Fault, cause: Cause) {
    match fault {
        Fault::CannotReadDescription
        | Fault::NotToml
        | Fault::Build(
            BuildFault::Shape
            | BuildFault::Limits
            | BuildFault::Number
            | BuildFault::Field
            | BuildFault::Target
            | BuildFault::Owner,
        ) => tell_undescribed(rt, job, cause),
        Fault::CannotWriteImage => {
            if let Some(file) = made_by(job) {
                tell_refused(rt, file, &options(true, true), cause);
            }
        }
        Fault::CannotOpenImage => tell_unopened(rt, job, cause),
        Fault::Open(OpenFault::Bad(_)) | Fault::Upgrade(UpgradeFault::Old(OpenFault::Bad(_))) => {
            if let Some(file) = opened_by(job) {
                tell_image(rt, file);
            }
        }
        Fault::CannotReadScript => match (script_of(job), cause) {
            (Some(file), Cause::System(error)) => tell_line(rt, file, error),
            (Some(file), _) => tell_script(rt, file),
            (None, _) => {}
        },
        _ => {}
    }
}
