// The command that says why a file is refused.
use crate::cause::{NO_FILE, Refusal, tell_line};
use crate::reading::Reading;
use crate::{End, Streams, read};
use devices::{FileDevice, FileFault};
use jobs::Fault;
use queries::explain_description;
use script::Output;
use std::fmt::Display;
use std::fs;
use std::io::{self, ErrorKind};
use std::os::unix::fs::FileTypeExt;

// Writes why a file can't be explained, and returns the end of the command.
fn refuse_file<C: Display + Drop>(rt: &HostRuntime, file: &str, cause: C) -> End {
    tell_line(rt, file, cause);
    End::of_status(1)
}

// Refuses a file, as `refuse_file` does, because of an error of the system. If memory ran out, returns a fault instead.
fn refuse_for(rt: &HostRuntime, file: &str, error: &io::Error) -> Result<End, Refusal> {
    if error.kind() == ErrorKind::OutOfMemory {
        Err(Refusal::from(Fault::NoMemory))
    } else {
        Ok(refuse_file(rt, file, error))
    }
}

// Writes why the image in a file is refused, and returns the end of the command.
fn explain_file<W: Output, V: Output>(
    rt: &HostRuntime,
    image: &str,
    streams: &mut Streams<W, V>,
) -> Result<End, Refusal> {
    match FileDevice::open_to_read(rt, image) {
        Ok(device) => {
            let Streams { output, errors } = streams;
            read(rt, device, Reading::Explain, output, errors)
        }
        Err(FileFault::NoMemory) => Err(Refusal::from(Fault::NoMemory)),
        Err(fault) => Ok(refuse_file(rt, image, fault)),
    }
}

// Writes why the bytes of a file are refused as a description or an image, and returns the end of the command. The
// bytes are taken for an image if they aren't UTF-8 or one of them is zero.
fn explain_bytes<W: Output, V: Output>(
    rt: &HostRuntime,
    file: &str,
    bytes: &[u8],
    streams: &mut Streams<W, V>,
) -> Result<End, Refusal> {
    match str::from_utf8(bytes) {
        Ok(text) if !bytes.contains(&0) => {
            let Streams { output, errors } = streams;
            let status = explain_description(rt.alloc(), text, output, errors);
            Ok(End::of_status(status))
        }
        _ => explain_file(rt, file, streams),
    }
}

// Writes why a regular file is refused as a description or an image, and returns the end of the command.
fn explain_regular<W: Output, V: Output>(
    rt: &HostRuntime,
    file: &str,
    streams: &mut Streams<W, V>,
) -> Result<End, Refusal> {
    match fs::read(rt, file) {
        Ok(bytes) => explain_bytes(rt, file, &bytes, streams),
        Err(error) => refuse_for(rt, file, &error),
    }
}

/// Writes why a file is refused as a description or an image. Returns the end of the command. A block device may hold
/// an image. Any other irregular file, such as a FIFO, isn't opened: reading one waits until somebody writes to it.
pub(crate) fn explain<W: Output, V: Output>(
    rt: &HostRuntime,
    file: &str,
    streams: &mut Streams<W, V>,
) -> Result<End, Refusal> {
    let kind = match fs::metadata(rt, file) {
        Ok(found) => found.file_type(),
        Err(error) => return refuse_for(rt, file, &error),
    };
    if kind.is_block_device() {
        explain_file(rt, file, streams)
    } else if kind.is_file() {
        explain_regular(rt, file, streams)
    } else {
        Ok(refuse_file(rt, file, NO_FILE))
    }
}
