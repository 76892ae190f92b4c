// Answers and faults as JSON.
use crate::cause::{Refusal, line_in};
use crate::explaining::explain;
use crate::{End, Stdio};
use command_line::Job;
use jobs::Fault;
use json_lines::{Format, string_object};
use script::{CountedWriter, Output};

/// Returns the format of answers.
pub(crate) fn format_of(json: bool) -> Format {
    if json { Format::Json } else { Format::Text }
}

/// Whether a job answers in JSON.
pub(crate) fn is_json(job: &Job<'_>) -> bool {
    match job {
        Job::Check { json, .. } | Job::Info { json, .. } | Job::Explain { json, .. } => *json,
        Job::Reach(reach) => reach.json,
        _ => false,
    }
}

/// If a job answers in JSON, writes its fault to standard output, as an object on a line after its answers. If the
/// fault is that standard output can't be written, writes nothing.
pub(crate) fn tell_json(rt: &HostRuntime, job: &Job<'_>, fault: Fault) {
    if !is_json(job) || matches!(fault, Fault::CannotWriteOutput) {
        return;
    }
    let mut output = CountedWriter::new(rt.stdout());
    let _written = fault.tell_json(&mut output);
    let _passed = output.pass_on();
}

// Writes an explanation as a JSON object, on a line.
fn tell_explanation(rt: &HostRuntime, line: &[u8], stdio: &mut Stdio) -> Result<(), Fault> {
    let Ok(object) = string_object(rt.alloc(), b"explanation", line) else {
        return Err(Fault::NoMemory);
    };
    if stdio.output.write_fully(&object).is_err() || stdio.output.write_fully(b"\n").is_err() {
        return Err(Fault::CannotWriteOutput);
    }
    Ok(())
}

/// Writes why a file is refused, as a JSON object on a line, and returns the end of the command.
pub(crate) fn explain_in_json(
    rt: &HostRuntime,
    file: &str,
    stdio: &mut Stdio,
) -> Result<End, Refusal> {
    let mut memory = line_in(rt);
    let end = explain(rt, file, &mut memory)?;
    if let Some(fault) = end.fault {
        return Err(Refusal::from(fault));
    }
    let text = memory.output.get_ref().as_slice();
    match text.strip_suffix(b"\n") {
        Some(line) => match tell_explanation(rt, line, stdio) {
            Ok(()) => Ok(end),
            Err(fault) => Err(Refusal::from(fault)),
        },
        None => Ok(end),
    }
}
