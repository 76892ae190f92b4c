// Answers to writers that accept few bytes, are interrupted, or fail.
use crate::worlds::{FIRST_WORLD, device_of, run_over};
use device::Device;
use runs::ScriptReader;
use script::{BufferedOutput, CountedWriter, RunFault};
use std::alloc::Global;
use std::io;
use std::io::{BufWriter, ErrorKind, Write};
use std::process::Abort;
use std::test::Fail;

// A writer that accepts `width` bytes at a time, up to `room` in all; then it fails or accepts nothing. Every other
// write is interrupted.
#[derive(Drop)]
struct Narrow {
    taken: Vec<u8>,
    width: usize,
    room: usize,
    fails: bool,
    interrupted: bool,
}

impl Narrow {
    fn new(alloc: Global, width: usize, room: usize, fails: bool) -> Narrow {
        Narrow {
            taken: Vec::new(alloc),
            width,
            room,
            fails,
            interrupted: false,
        }
    }
}

impl Write for Narrow {
    fn write(&mut self, buf: &[u8]) -> io::Result<usize> {
        self.interrupted = !self.interrupted;
        if self.interrupted {
            return Err(io::Error::from(ErrorKind::Interrupted));
        }
        let count = buf.len().min(self.width).min(self.room);
        if count == 0 && self.fails {
            return Err(io::Error::from(ErrorKind::StorageFull));
        }
        self.taken.extend_from_slice(&buf[..count])?;
        self.room -= count;
        Ok(count)
    }

    fn flush(&mut self) -> io::Result<()> {
        Ok(())
    }
}

// Writes the answers to a script. If the writer's room is too small, it accepts what fits, and the run fails.
fn is_written<D: Device>(
    rt: &(impl Abort + AllocGlobal),
    device: D,
    writer: Narrow,
    script: &[u8],
    expected: &[u8],
) -> Result<(), Fail> {
    let room = writer.room;
    let mut reader = ScriptReader::new(script);
    let mut writer = CountedWriter::new(writer);
    let is_expected = match run_over(rt.alloc(), device, &mut reader, &mut writer)? {
        Ok(()) => room >= expected.len(),
        Err(RunFault::Write) => room < expected.len(),
        Err(_) => false,
    };
    assert!(rt; is_expected, "room for {room}");
    assert_eq!(rt;
        writer.get_ref().taken.as_slice(),
        &expected[..room.min(expected.len())]
    );
    Ok(())
}

// At whatever byte of the answers a writer fails or accepts nothing, it has accepted the bytes before.
#[test]
fn a_failing_writer_ends_the_run(rt: HostRuntime) -> Result<(), Fail> {
    let script = b"show 5\nshow 01\nshow 16\n";
    let expected = b"node 5 owner 0\nend\nbad line\npage 16 owner 0\nend\n";
    for width in [1, 7, 4096] {
        for fails in [false, true] {
            for room in 0..expected.len() + 2 {
                let writer = Narrow::new(rt.alloc(), width, room, fails);
                let device = device_of(rt.alloc(), FIRST_WORLD)?;
                is_written(&rt, device, writer, script, expected)?;
            }
        }
    }
    Ok(())
}

// Writes an answer of 19 bytes through a buffer to a writer with this room. The run fails unless the writer accepts
// all 19.
fn is_passed_on<D: Device>(
    rt: &(impl Abort + AllocGlobal),
    device: D,
    room: usize,
) -> Result<(), Fail> {
    let buffer = BufWriter::new(rt.alloc(), Narrow::new(rt.alloc(), 4096, room, true))?;
    let mut writer = BufferedOutput::new(buffer);
    let mut reader = ScriptReader::new(b"show 5\n".as_slice());
    let is_expected = match run_over(rt.alloc(), device, &mut reader, &mut writer)? {
        Ok(()) => room == 19,
        Err(RunFault::Write) => room < 19,
        Err(_) => false,
    };
    assert!(rt; is_expected, "room for {room}");
    assert_eq!(rt; writer.get_ref().taken.len(), room);
    Ok(())
}

// If answers in a buffer can't be passed on, the run fails.
#[test]
fn what_is_not_passed_on_ends_the_run(rt: HostRuntime) -> Result<(), Fail> {
    for room in [19, 18] {
        is_passed_on(&rt, device_of(rt.alloc(), FIRST_WORLD)?, room)?;
    }
    Ok(())
}
