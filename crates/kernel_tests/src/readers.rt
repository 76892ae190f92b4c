// Scripts that are read in pieces, or whose reader is interrupted or fails.
use crate::worlds::{FIRST_WORLD, SECOND_WORLD, device_of, run_over};
use device::Device;
use runs::ScriptReader;
use script::{CountedWriter, RunFault};
use std::alloc::{AllocError, Global};
use std::io;
use std::io::{ErrorKind, Read};
use std::process::Abort;
use std::test::Fail;

// How many bytes each read of a run requests.
const READ_SIZE: usize = 4096;

const WIDTHS: [usize; 4] = [1, 7, 4095, 4096];

// A reader that returns `width` bytes at a time. If `interrupts`, an interrupted read comes before each piece.
// If `fails`, the read after the last piece fails. It records whether a read requested another number of bytes
// than `READ_SIZE`.
#[derive(Drop)]
struct Pieces<'a> {
    rest: &'a [u8],
    width: usize,
    interrupts: bool,
    interrupted: bool,
    fails: bool,
    requested_otherwise: bool,
}

impl Read for Pieces<'_> {
    fn read(&mut self, buf: &mut [u8]) -> io::Result<usize> {
        self.requested_otherwise = self.requested_otherwise || buf.len() != READ_SIZE;
        self.interrupted = self.interrupts && !self.interrupted;
        if self.interrupted {
            return Err(io::Error::from(ErrorKind::Interrupted));
        }
        if self.rest.is_empty() && self.fails {
            return Err(io::Error::from(ErrorKind::BrokenPipe));
        }
        let count = self.width.min(buf.len()).min(self.rest.len());
        buf[..count].copy_from_slice(&self.rest[..count]);
        self.rest = &self.rest[count..];
        Ok(count)
    }
}

// Runs the script of a reader over a device. Asserts the answers, how the run ends, and how many bytes each read
// requested.
fn is_answered<D: Device>(
    rt: &(impl Abort + AllocGlobal),
    device: D,
    reader: &mut Pieces<'_>,
    expected: &[u8],
) -> Result<(), Fail> {
    let mut answers = CountedWriter::new(Vec::new(rt.alloc()));
    let mut script = ScriptReader::new(&mut *reader);
    let is_expected = match run_over(rt.alloc(), device, &mut script, &mut answers)? {
        Ok(()) => !reader.fails,
        Err(RunFault::Read) => reader.fails,
        Err(_) => false,
    };
    assert!(rt; is_expected);
    assert_eq!(rt; answers.get_ref().as_slice(), expected);
    assert!(rt; !reader.requested_otherwise);
    Ok(())
}

// Asserts the answers to a script over a world. The script is read in pieces of each width, with and
// without interruptions.
fn is_answered_in_pieces(
    rt: &(impl Abort + AllocGlobal),
    world: &str,
    script: &[u8],
    fails: bool,
    expected: &[u8],
) -> Result<(), Fail> {
    for width in WIDTHS {
        for interrupts in [false, true] {
            let mut reader = Pieces {
                rest: script,
                width,
                interrupts,
                interrupted: false,
                fails,
                requested_otherwise: false,
            };
            is_answered(rt, device_of(rt.alloc(), world)?, &mut reader, expected)?;
        }
    }
    Ok(())
}

// Returns the texts one after another, all repeated `times` times.
fn repeated(alloc: Global, texts: &[&[u8]], times: usize) -> Result<Vec<u8>, AllocError> {
    let mut whole = Vec::new(alloc);
    for _ in 0..times {
        for text in texts {
            whole.extend_from_slice(text)?;
        }
    }
    Ok(whole)
}

// A world, the parts of a script, and the parts of the answers. The parts are repeated `times` times. If `fails`, the
// reader fails after the script.
struct Row {
    world: &'static str,
    script: &'static [&'static [u8]],
    expected: &'static [&'static [u8]],
    times: usize,
    fails: bool,
}

const SHOWN: &[u8] = b"node 5 owner 0\nend\n";

// These rows have long lines, and lines that are repeated so that they end anywhere in a piece. A line that a
// failure cuts off isn't answered.
const ROWS: &[Row] = &[
    Row {
        world: FIRST_WORLD,
        script: &[],
        expected: &[],
        times: 1,
        fails: false,
    },
    Row {
        world: FIRST_WORLD,
        script: &[b"show 5\n\n#\nshow 01\ncut\nshow 5"],
        expected: &[SHOWN, b"bad line\nat 0 0\n", SHOWN],
        times: 1,
        fails: false,
    },
    Row {
        world: FIRST_WORLD,
        script: &[
            &[b'#'; 256],
            b"\n",
            &[b'#'; 257],
            b"\n",
            &[b'a'; 600],
            b"\n",
            &[b'#'; 9000],
            b"\nshow 5\n",
            &[b'a'; 257],
        ],
        expected: &[b"bad line\nbad line\nbad line\n", SHOWN, b"bad line\n"],
        times: 1,
        fails: false,
    },
    Row {
        world: FIRST_WORLD,
        script: &[&[b'#'; 250], b"\nshow 5\n"],
        expected: &[SHOWN],
        times: 40,
        fails: false,
    },
    Row {
        world: SECOND_WORLD,
        script: &[
            b"call 1 2 1 0 0 0 0 0 0 0\nsend 1 28 2 0 42 0 0 0 0 0\ncheckpoint\n",
            b"send 1 28 2 0 43 0 0 0 0 0\nstabilize 5\ncommit\ncheckpoint\nmigrate 2\n",
            b"cut\nmigrate 1\nmigrate 9\ncheckpoint\ncommit\ncut\nshow 16\n",
        ],
        expected: &[
            b"done\ndone\nfrozen 3\ndone\nleft 0\ncommitted 1\nmigration pending\nleft 1\n",
            b"at 1 3\nleft 2\nleft 0\nfrozen 0\ncommitted 2\nat 2 4\n",
            b"page 16 owner 0\nword 0 42\nend\n",
        ],
        times: 1,
        fails: false,
    },
    Row {
        world: FIRST_WORLD,
        script: &[b"show 5\nshow 5"],
        expected: &[SHOWN],
        times: 1,
        fails: true,
    },
    Row {
        world: FIRST_WORLD,
        script: &[b"show 5\n"],
        expected: &[SHOWN],
        times: 1,
        fails: true,
    },
    Row {
        world: FIRST_WORLD,
        script: &[],
        expected: &[],
        times: 1,
        fails: true,
    },
];

#[test]
fn scripts_are_answered_in_pieces(rt: HostRuntime) -> Result<(), Fail> {
    for row in ROWS {
        let script = repeated(rt.alloc(), row.script, row.times)?;
        let expected = repeated(rt.alloc(), row.expected, row.times)?;
        is_answered_in_pieces(&rt, row.world, &script, row.fails, &expected)?;
    }
    Ok(())
}
