// Names in the lines that are typed at a shell.
use crate::cause::tell_line;
use names::{Names, Unnumbered, number_objects};
use std::alloc::AllocError;
use std::io::{self, ErrorKind, Read};

/// Reads lines, and puts the number of each object in the place of its name.
#[derive(Drop)]
pub(crate) struct NamedInput<'r, R> {
    rt: &'r HostRuntime,
    inner: R,
    names: Names,
    // A line that isn't whole.
    line: Vec<u8>,
    // A line with numbers, and how much of it was read.
    numbered: Vec<u8>,
    given: usize,
}

// The error if memory ran out.
fn no_memory(_error: AllocError) -> io::Error {
    io::Error::from(ErrorKind::OutOfMemory)
}

impl<'r, R: Read> NamedInput<'r, R> {
    /// Reads the lines of `inner`.
    pub(crate) fn new(rt: &'r HostRuntime, inner: R, names: Names) -> NamedInput<'r, R> {
        NamedInput {
            rt,
            inner,
            names,
            line: Vec::new(rt.alloc()),
            numbered: Vec::new(rt.alloc()),
            given: 0,
        }
    }

    // Returns the line with numbers in place of names. If no object has a name, says so and returns the line unchanged.
    fn number(&self) -> Result<Vec<u8>, AllocError> {
        match number_objects(self.rt.alloc(), &self.names, &self.line) {
            Ok(numbered) => Ok(numbered),
            Err(Unnumbered::NoMemory) => Err(AllocError),
            Err(Unnumbered::Unknown(word)) => {
                if let Ok(name) = str::from_utf8(word) {
                    tell_line(self.rt, name, "no object has this name");
                }
                Vec::from_slice(self.rt.alloc(), &self.line)
            }
        }
    }

    // Ends the line that was read.
    fn end_line(&mut self, newline: &[u8]) -> Result<(), AllocError> {
        let mut numbered = self.number()?;
        numbered.extend_from_slice(newline)?;
        self.numbered = numbered;
        self.given = 0;
        self.line.clear();
        Ok(())
    }

    // Ends the last line, if one began.
    fn end_input(&mut self) -> Result<(), AllocError> {
        if self.line.is_empty() {
            self.numbered.clear();
            self.given = 0;
            return Ok(());
        }
        self.end_line(b"")
    }

    // Reads one byte, and returns whether a line ended.
    fn read_byte(&mut self) -> io::Result<bool> {
        let mut byte = [0];
        if self.inner.read(&mut byte)? == 0 {
            self.end_input().map_err(no_memory)?;
            return Ok(true);
        }
        if byte[0] == b'\n' {
            self.end_line(b"\n").map_err(no_memory)?;
            return Ok(true);
        }
        let blank = if byte[0] == b'\t' { b' ' } else { byte[0] };
        match self.line.push(blank) {
            Ok(()) => Ok(false),
            Err(_) => Err(io::Error::from(ErrorKind::OutOfMemory)),
        }
    }

    // Reads up to the end of a line.
    fn read_line(&mut self) -> io::Result<()> {
        for _ in 0..u64::MAX {
            if self.read_byte()? {
                return Ok(());
            }
        }
        Ok(())
    }
}

impl<R: Read> Read for NamedInput<'_, R> {
    fn read(&mut self, into: &mut [u8]) -> io::Result<usize> {
        if self.given >= self.numbered.len() {
            self.read_line()?;
        }
        let Some(rest) = self.numbered.get(self.given..) else {
            return Ok(0);
        };
        let count = rest.len().min(into.len());
        into[..count].copy_from_slice(&rest[..count]);
        self.given += count;
        Ok(count)
    }
}
