//! `eros`: the core of a persistent capability system, over images in files.
#![tactic(auto)]

mod cause;
mod explaining;
mod inspection;
mod json;
mod making;
mod named_input;
mod naming;
mod reading;

use crate::cause::{Cause, Refusal, tell_cause};
use crate::explaining::explain;
use crate::inspection::Inspection;
use crate::json::{explain_in_json, format_of, is_json, tell_json};
use crate::making::build;
use crate::named_input::NamedInput;
use crate::naming::{Naming, NoNames, naming_of};
use crate::reading::{Reading, writing};
use checkpoint::ObjectStore;
use command_line::{CommandLine, Job, JobFault, Run, Script, Sizes, command_line};
use device::Device;
use devices::{FileDevice, Fuse, SharedDevice};
use image_builder::NewLayout;
use jobs::{Done, Fault, check_image, finish, run_and_save, run_image, run_shell, run_traced};
use json_lines::Format;
use names::{NamedLines, NamedOutput, Names};
use object_cache::{Capacity, KeepAll, KeepRecent, PlainStore, Policy, Store};
use queries::Query;
use runs::{ScriptReader, TraceOptions, Tracer};
use script::{BufferedOutput, CountedWriter, Output};
use shell::{Inspector, Shell, TOPICS, TypedLines};
use shell_questions::{describing, drawing, reaching, telling};
use std::alloc::Global;
use std::fs::{self, File};
use std::io::{self, BufWriter, ErrorKind, IsTerminal, Read, Stderr, Stdout};
use std::os::unix::fs::FileTypeExt;
use std::process::ExitCode;

/// The streams that a command writes to: its output, and its errors.
#[derive(Drop)]
pub(crate) struct Streams<W, V> {
    output: W,
    errors: V,
}

// Standard error.
type StandardError = NamedOutput<CountedWriter<Stderr>>;

/// Standard output, which is buffered, and standard error.
pub(crate) type Stdio = Streams<
    NamedOutput<BufferedOutput<BufWriter<Stdout, Global>>>,
    StandardError,
>;

/// How a command ended. The messages of its faults are written already.
#[derive(Clone, Copy)]
pub(crate) struct End {
    /// The exit status.
    pub(crate) status: u8,
    /// The fault, if there was one.
    pub(crate) fault: Option<Fault>,
}

impl End {
    /// Returns the end of a command with no fault.
    pub(crate) fn of_status(status: u8) -> End {
        End {
            status,
            fault: None,
        }
    }

    /// Returns the end of a command with this outcome.
    pub(crate) fn of_outcome(outcome: Result<(), Fault>) -> End {
        match outcome {
            Ok(()) => End::of_status(0),
            Err(fault) => End {
                status: 1,
                fault: Some(fault),
            },
        }
    }

    /// Returns the end of a command that returned its device.
    pub(crate) fn of_done<D: Device>(done: Done<D>) -> End {
        End {
            status: done.status,
            fault: done.fault,
        }
    }
}

// Returns standard error, without names.
fn errors_of(rt: &HostRuntime) -> StandardError {
    NamedOutput::new(CountedWriter::new(rt.stderr()), None)
}

// Returns standard output, which adds these names to its lines if there are any, and standard
// error.
fn stdio_of(rt: &HostRuntime, lines: Option<NamedLines>) -> Result<Stdio, Fault> {
    match BufWriter::new(rt.alloc(), rt.stdout()) {
        Ok(buffer) => Ok(Stdio {
            output: NamedOutput::new(BufferedOutput::new(buffer), lines),
            errors: errors_of(rt),
        }),
        Err(_) => Err(Fault::NoMemory),
    }
}

// Opens a device in the file of an existing image.
fn open(rt: &HostRuntime, image: &str) -> Result<FileDevice, Refusal> {
    match FileDevice::open(rt, image) {
        Ok(device) => Ok(device),
        Err(fault) => Err(Refusal::of_file(fault, Fault::CannotOpenImage)),
    }
}

// Refuses a file that is neither a regular file nor a block device, such as a FIFO. Opening one to read would wait
// until somebody writes to it. If the file is replaced before it is opened, the command may still wait. It then
// checks what it opens, as it does any image.
fn refuse_pipe(rt: &HostRuntime, image: &str) -> Result<(), Refusal> {
    let kind = match fs::metadata(rt, image) {
        Ok(found) => found.file_type(),
        Err(error) => return Err(Refusal::of_io(error, Fault::CannotOpenImage)),
    };
    if kind.is_file() || kind.is_block_device() {
        Ok(())
    } else {
        Err(Refusal::new(Fault::CannotOpenImage, Cause::NoImageFile))
    }
}

// Opens a device in the file of an existing image, to read only.
fn open_to_read(rt: &HostRuntime, image: &str) -> Result<FileDevice, Refusal> {
    refuse_pipe(rt, image)?;
    match FileDevice::open_to_read(rt, image) {
        Ok(device) => Ok(device),
        Err(fault) => Err(Refusal::of_file(fault, Fault::CannotOpenImage)),
    }
}

// What is done with an image.
#[derive(Clone, Copy)]
enum Mode<'w> {
    Plain,
    // Run a script with a trace, as a strict run, or with saving at the end.
    Watched { options: TraceOptions, saves: bool },
    // Run a shell, which answers questions by this.
    Shell(Inspection<'w>),
    // Check the image, without running a script.
    Check(Format),
}

// Runs a script with a tracer over the image on a device, with a store of type `S`. Returns the end of the
// command.
fn trace_by<D: Device, S: ObjectStore<D>, R: Read, W: Output, V: Output + Drop>(
    alloc: Global,
    device: D,
    setting: S::Setting,
    script: &mut ScriptReader<R>,
    tracer: &mut Tracer<V>,
    streams: &mut Streams<W, V>,
    saves: bool,
) -> End {
    let Streams { output, errors } = streams;
    if saves {
        return End::of_done(run_and_save::<_, S, _, _, _, _>(
            alloc, device, setting, script, output, tracer, errors,
        ));
    }
    let done = run_traced::<_, S, _, _, _, _>(
        alloc, device, setting, script, output, tracer, errors,
    );
    End::of_done(done)
}

// Runs a shell over the image on a device, and returns the end of the command. If standard input and standard error
// are a terminal, the shell writes prompts to `notes`.
fn shell_by<
    D: Device,
    S: ObjectStore<D>,
    Q: Inspector<D, W>,
    R: Read + Drop,
    W: Output,
    V: Output + Drop,
>(
    rt: &HostRuntime,
    device: D,
    setting: S::Setting,
    inspector: &Q,
    input: R,
    notes: V,
    streams: &mut Streams<W, V>,
) -> End {
    let is_prompting = rt.stdin().is_terminal() && rt.stderr().is_terminal();
    let mut lines = TypedLines::new(input);
    let mut shell = Shell::new(notes, TOPICS, is_prompting);
    let Streams { output, errors } = streams;
    let done = run_shell::<_, S, _, _, _, _, _>(
        rt.alloc(),
        device,
        setting,
        &mut lines,
        &mut shell,
        inspector,
        output,
        errors,
    );
    End::of_done(done)
}

// Carries out a mode over the image on a device, with a store of type `S`. Returns the end of the command.
fn run_in_mode<D: SharedDevice, S: ObjectStore<D>, R: Read + Drop, B: Output, V: Output + Drop>(
    rt: &HostRuntime,
    device: D,
    setting: S::Setting,
    script: R,
    mode: Mode<'_>,
    notes: V,
    streams: &mut Streams<NamedOutput<B>, V>,
) -> End {
    match mode {
        Mode::Plain => {
            let (alloc, mut script) = (rt.alloc(), ScriptReader::new(script));
            let Streams { output, errors } = streams;
            let done = run_image::<_, S, _, _, _>(
                alloc,
                device,
                setting,
                &mut script,
                output,
                errors,
            );
            End::of_done(done)
        }
        Mode::Watched { options, saves } => {
            let (mut script, mut tracer) = (ScriptReader::new(script), Tracer::new(notes, options));
            trace_by::<_, S, _, _, _>(
                rt.alloc(),
                device,
                setting,
                &mut script,
                &mut tracer,
                streams,
                saves,
            )
        }
        Mode::Shell(inspection) => shell_by::<_, S, _, _, _, _>(
            rt,
            device,
            setting,
            &inspection,
            script,
            notes,
            streams,
        ),
        Mode::Check(format) => {
            let alloc = rt.alloc();
            let Streams { output, errors } = streams;
            let done = check_image::<_, S, _, _>(alloc, device, setting, format, output, errors);
            End::of_done(done)
        }
    }
}

// Carries out a mode, as `run_in_mode` does, with the store of a policy. Only this function names that store, because
// each function that names one compiles slowly.
fn run_by_policy<D: SharedDevice, P: Policy, R: Read + Drop, B: Output, V: Output + Drop>(
    rt: &HostRuntime,
    device: D,
    setting: P::Setting,
    script: R,
    mode: Mode<'_>,
    notes: V,
    streams: &mut Streams<NamedOutput<B>, V>,
) -> End {
    run_in_mode::<_, Store<_, P>, _, _, _>(rt, device, setting, script, mode, notes, streams)
}

// Carries out a mode, as `run_in_mode` does: with a bounded cache if there is a capacity, else with
// all objects in memory.
fn run_with_cache<D: SharedDevice, R: Read + Drop, B: Output, V: Output + Drop>(
    rt: &HostRuntime,
    device: D,
    cache: Option<Capacity>,
    script: R,
    mode: Mode<'_>,
    notes: V,
    streams: &mut Streams<NamedOutput<B>, V>,
) -> End {
    match cache {
        Some(most) => run_by_policy::<_, KeepRecent, _, _, _>(
            rt, device, most, script, mode, notes, streams,
        ),
        None => run_by_policy::<_, KeepAll, _, _, _>(rt, device, (), script, mode, notes, streams),
    }
}

// Opens a script, runs it over the image on a device, and returns the end of the command.
fn open_script_and_run<D: SharedDevice>(
    rt: &HostRuntime,
    device: D,
    script: &Script<'_>,
    cache: Option<Capacity>,
    mode: Mode<'_>,
    notes: StandardError,
    stdio: &mut Stdio,
) -> Result<End, Refusal> {
    match script {
        Script::Input => Ok(run_with_cache(rt, device, cache, rt.stdin(), mode, notes, stdio)),
        Script::File(path) => match File::open(rt, *path) {
            Ok(file) => Ok(run_with_cache(rt, device, cache, file, mode, notes, stdio)),
            Err(error) => Err(Refusal::of_io(error, Fault::CannotReadScript)),
        },
    }
}

// Opens an image and runs a script over it. If there is a `stop_after`, the device fails after that many calls.
// Returns the end of the command.
fn open_image_and_run(
    rt: &HostRuntime,
    image: &str,
    script: &Script<'_>,
    cache: Option<Capacity>,
    mode: Mode<'_>,
    stop_after: Option<u64>,
    notes: StandardError,
    stdio: &mut Stdio,
) -> Result<End, Refusal> {
    let device = open(rt, image)?;
    let device = match stop_after {
        Some(calls) => Fuse::new(device, calls),
        None => Fuse::mended(device),
    };
    open_script_and_run(rt, device, script, cache, mode, notes, stdio)
}

// Checks whether an image can be opened, with at most 8 objects in memory, and returns the end of the command.
fn check(rt: &HostRuntime, image: &str, format: Format, stdio: &mut Stdio) -> Result<End, Refusal> {
    let device = open_to_read(rt, image)?;
    let Some(least) = Capacity::new(8) else {
        unreachable!()
    };
    let (cache, notes) = (Some(least), errors_of(rt));
    Ok(run_with_cache(
        rt,
        device,
        cache,
        io::empty(),
        Mode::Check(format),
        notes,
        stdio,
    ))
}

/// Reads the image on a device, and returns the end of the command. Only this function names a store type for
/// `WholeStore`, because each function that names one compiles slowly.
pub(crate) fn read<D: Device, W: Output, V: Output>(
    rt: &HostRuntime,
    device: D,
    reading: Reading<'_>,
    output: &mut W,
    errors: &mut V,
) -> Result<End, Refusal> {
    reading.read::<_, PlainStore<_>, _, _>(rt, device, (), output, errors)
}

// Reads an image, and returns the end of the command.
fn inspect(
    rt: &HostRuntime,
    image: &str,
    reading: Reading<'_>,
    stdio: &mut Stdio,
) -> Result<End, Refusal> {
    let device = open_to_read(rt, image)?;
    let Stdio { output, errors } = stdio;
    read(rt, device, reading, output, errors)
}

// Returns the mode for running a script with these options.
fn mode_of(trace: bool, strict: bool, saves: bool) -> Mode<'static> {
    if trace || strict || saves {
        Mode::Watched {
            options: TraceOptions { trace, strict },
            saves,
        }
    } else {
        Mode::Plain
    }
}

// Runs a script over an image, and returns the end of the command. The trace is written to `notes`.
fn run_script(
    rt: &HostRuntime,
    run: &Run<'_>,
    notes: StandardError,
    stdio: &mut Stdio,
) -> Result<End, Refusal> {
    let mode = mode_of(run.trace, run.strict, run.saves);
    open_image_and_run(
        rt,
        run.image,
        &run.script,
        run.cache,
        mode,
        run.stop_after,
        notes,
        stdio,
    )
}

// Opens an image, serves a shell over it, and returns its end.
fn open_shell(
    rt: &HostRuntime,
    image: &str,
    cache: Option<Capacity>,
    names: Option<Names>,
    stdio: &mut Stdio,
) -> Result<End, Refusal> {
    let (device, notes, mode) = (
        Fuse::mended(open(rt, image)?),
        errors_of(rt),
        Mode::Shell(Inspection::new(rt, image)),
    );
    match names {
        Some(names) => {
            let lines = NamedInput::new(rt, rt.stdin(), names);
            Ok(run_with_cache(rt, device, cache, lines, mode, notes, stdio))
        }
        None => Ok(run_with_cache(rt, device, cache, rt.stdin(), mode, notes, stdio)),
    }
}

// Returns the query of `describe`, with names if there are some.
fn described<'n>(sizes: &Sizes, names: &'n Option<Names>) -> Query<'n> {
    match (describing(sizes), names) {
        (Query::Describe(sizes), Some(names)) => Query::DescribeNamed(sizes, names.entries()),
        (query, _) => query,
    }
}

// Does a job, and returns the end of the command. Traces are written to `notes`.
fn serve(
    rt: &HostRuntime,
    job: &Job<'_>,
    names: Option<Names>,
    notes: StandardError,
    stdio: &mut Stdio,
) -> Result<End, Refusal> {
    let (image, reading) = match job {
        Job::Build {
            description,
            image,
            is_new,
        } => return build(rt, description, image, *is_new, stdio),
        Job::Run(run) => return run_script(rt, run, notes, stdio),
        Job::Shell { image, cache } => return open_shell(rt, image, *cache, names, stdio),
        Job::Check { image, json } => return check(rt, image, format_of(*json), stdio),
        Job::Explain { file, json: false } => return explain(rt, file, stdio),
        Job::Explain { file, json: true } => return explain_in_json(rt, file, stdio),
        Job::Describe { image, sizes } => {
            return inspect(rt, image, Reading::Answer(described(sizes, &names)), stdio);
        }
        Job::Upgrade { old, new } => (*old, writing(old, new, NewLayout::Newest)),
        Job::Copy { image, new } => (*image, writing(image, new, NewLayout::Kept)),
        Job::Draw {
            image,
            from,
            reads,
            to,
        } => (*image, Reading::Answer(drawing(*from, *reads, *to))),
        Job::Info { image, json } => (*image, Reading::Answer(telling(*json))),
        Job::Reach(reach) => (reach.image, Reading::Answer(reaching(reach))),
    };
    inspect(rt, image, reading, stdio)
}

// Does a job, passes on its output, and returns the end of the command.
fn serve_whole(rt: &HostRuntime, job: &Job<'_>, naming: Naming) -> Result<End, Refusal> {
    let Naming {
        output,
        trace,
        names,
    } = naming;
    let mut stdio = stdio_of(rt, output)?;
    let notes = NamedOutput::new(CountedWriter::new(rt.stderr()), trace);
    match serve(rt, job, names, notes, &mut stdio) {
        Ok(end) => {
            let Stdio { output, errors } = &mut stdio;
            let status = finish(output, end.status, errors);
            Ok(End { status, ..end })
        }
        Err(refusal) => Err(refusal),
    }
}

// Does a job, with the names of objects in a file if one is given, and returns the end of the
// command.
fn serve_named(rt: &HostRuntime, job: &Job<'_>, names: Option<&str>) -> Result<End, Refusal> {
    match naming_of(rt, job, is_json(job), names) {
        Ok(naming) => serve_whole(rt, job, naming),
        Err(NoNames::NoMemory) => Err(Refusal::from(Fault::NoMemory)),
        Err(NoNames::Told) => Ok(End::of_status(1)),
    }
}

// Does a job, and returns the exit status. If the job fails, writes why. Writes the cause too if `is_verbose`, or
// if standard error is a terminal.
fn serve_line(rt: &HostRuntime, job: &Job<'_>, is_verbose: bool, names: Option<&str>) -> u8 {
    let (end, cause) = match serve_named(rt, job, names) {
        Ok(end) => (end, Cause::Unknown),
        Err(Refusal { fault, cause }) => {
            let _reported = fault.tell(&mut errors_of(rt));
            (End::of_outcome(Err(fault)), cause)
        }
    };
    if let Some(fault) = end.fault {
        tell_json(rt, job, fault);
    }
    if let Some(fault) = end.fault
        && (is_verbose || rt.stderr().is_terminal())
    {
        tell_cause(rt, job, fault, cause);
    }
    end.status
}

// Returns the words of the command line.
fn words(rt: &HostRuntime) -> Result<Vec<String>, JobFault> {
    match std::env::args(rt) {
        Ok(words) => Ok(words.collect(rt.alloc())?),
        Err(error) if error.kind() == ErrorKind::OutOfMemory => Err(JobFault::NoMemory),
        Err(_) => Err(JobFault::not_text(rt.alloc())),
    }
}

// Writes why the words name no job, and returns the exit status.
fn refuse(rt: &HostRuntime, fault: &JobFault) -> Result<u8, Fault> {
    match fault {
        JobFault::NoMemory => Err(Fault::NoMemory),
        JobFault::BadWords(error) => match error.print(rt) {
            Err(_) if !error.use_stderr() => Err(Fault::CannotWriteOutput),
            _ => Ok(error.exit_code() as u8),
        },
    }
}

// Does the job that the words name, and returns the exit status.
fn work_by(rt: &HostRuntime, words: &[String]) -> Result<u8, Fault> {
    match command_line(rt.alloc(), words) {
        Ok(
            CommandLine {
                job,
                is_verbose,
                names,
            },
        ) => Ok(serve_line(rt, &job, is_verbose, names)),
        Err(fault) => refuse(rt, &fault),
    }
}

// Does the job that the command line names, and returns the exit status.
fn work(rt: &HostRuntime) -> Result<u8, Fault> {
    match words(rt) {
        Ok(words) => work_by(rt, words.as_slice()),
        Err(fault) => refuse(rt, &fault),
    }
}

// Opens three files that can't be written. If standard output or standard error was closed, one of them takes its
// descriptor, so no image opened later gets it.
fn guards(rt: &HostRuntime) -> [Option<File>; 3] {
    [
        File::open(rt, "/dev/null").ok(),
        File::open(rt, "/dev/null").ok(),
        File::open(rt, "/dev/null").ok(),
    ]
}

fn main(rt: HostRuntime) -> ExitCode {
    let _guards = guards(&rt);
    let status = match work(&rt) {
        Ok(status) => status,
        Err(fault) => {
            let _reported = fault.tell(&mut errors_of(&rt));
            1
        }
    };
    ExitCode::from(status)
}
