// A writer that adds names.
ghost use Rattle.std.specs.Prelude.{◌≡◌, ◌++◌, [], None, OnOk, Option, Some};
ghost use Rattle.names.specs.Output.{HasSameNames, inner_output, lines_in, named_lines, waiting_by, written_by};
ghost use Rattle.names.specs.declared.lines.NamedLines.{NamedLines};
ghost use Rattle.script.specs.Writing.{Writes};

use crate::lines::NamedLines;
use collections::Tally;
use script::{Output, RunFault};

/// A writer that adds the name of each object after its number, line by line. Without names it passes on all bytes
/// unchanged.
#[derive(Drop)]
pub struct NamedOutput<W> {
    inner: W,
    lines: Option<NamedLines>,
    // How many calls failed because memory ran out. The failures of `inner` aren't included.
    failures: Tally,
}

impl<W: Output> NamedOutput<W> {
    /// Returns a writer to `inner` whose count of failures is 0.
    pub fn new(inner: W, lines: Option<NamedLines>) -> NamedOutput<W>
        ensures inner { inner_output result ≡ inner }
        ensures lines { lines_in result ≡ lines }
    {
        NamedOutput {
            inner,
            lines,
            failures: Tally::new(),
        }
    }

    /// Makes a number that of an object after one of the words `kinds`, and after no other.
    pub fn set_kinds(&mut self, kinds: &'static [&'static [u8]])
        ensures inner { inner_output self.new ≡ inner_output self.old }
        ensures kinds { (l : NamedLines) → lines_in self.new ≡ Some l → l.kinds.now ≡ kinds.now }
        ensures names { HasSameNames (lines_in self.old) (lines_in self.new) }
        ensures written { written_by W.written self.new ≡ written_by W.written self.old }
        ensures waiting { waiting_by W.waiting self.new ≡ waiting_by W.waiting self.old }
    {
        if let Some(lines) = &mut self.lines {
            lines.set_kinds(kinds);
        }
    }
}

impl<W: Output> Output for NamedOutput<W> {
    ghost written = { written_by W.written };

    ghost waiting = { waiting_by W.waiting };

    fn write_fully(&mut self, text: &[u8]) -> Result<(), RunFault>
        ensures written { Writes (written_by W.written self.old) (written_by W.written self.new) result text.now }
        ensures plain { lines_in self.old ≡ None
            → Writes (W.written (inner_output self.old)) (W.written (inner_output self.new)) result text.now }
        ensures named { (l : NamedLines) → lines_in self.old ≡ Some l
            → OnOk result (Writes (W.written (inner_output self.old)) (W.written (inner_output self.new)) result
            (named_lines l (l.line.items ++ text.now))) }
    {
        match &mut self.lines {
            None => self.inner.write_fully(text),
            Some(lines) => match lines.take(text) {
                Ok(named) => self.inner.write_fully(&named),
                Err(_) => {
                    self.failures = self.failures.next();
                    Err(RunFault::Write)
                }
            },
        }
    }

    fn pass_on(&mut self) -> Result<(), RunFault> {
        match &mut self.lines {
            None => self.inner.pass_on(),
            Some(lines) => match lines.end() {
                Ok(named) => {
                    self.inner.write_fully(&named)?;
                    self.inner.pass_on()
                }
                Err(_) => {
                    self.failures = self.failures.next();
                    Err(RunFault::Write)
                }
            },
        }
    }
}
