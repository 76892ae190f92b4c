// Questions that are typed at a shell, and copies.
ghost use Rattle.std.specs.Prelude.{◌≡◌, ◌⊎◌, IfErr, IfSome, codes, take, true};
ghost use Rattle.std.specs.Str.{bytes_eq};
ghost use Rattle.names.specs.Output.{written_by};
ghost use Rattle.shell_questions.specs.Here.{AnswersHere};

use crate::cause::{Refusal, tell_cause};
use crate::read;
use crate::reading::writing;
use command_line::Job;
use devices::{ReadOnly, SharedDevice};
use image_builder::NewLayout;
use jobs::Fault;
use names::{DRAWN, NamedOutput, TOLD};
use script::{Output, RunFault};
use shell::Inspector;
use shell_questions::Questions;
use std::io::IsTerminal;

/// Answers the questions of a shell over the image in a file, and copies it.
#[derive(Clone, Copy)]
pub(crate) struct Inspection<'r> {
    rt: &'r HostRuntime,
    image: &'r str,
}

// The file that `copy NEW` names.
fn copied_to(line: &[u8]) -> Option<&[u8]>
    ensures { IfSome result (λ _. bytes_eq (take 5 line.now) (codes "copy ") ≡ true) }
{
    match line.strip_prefix(b"copy ") {
        Some(rest) => {
            if rest.contains(&b' ') || rest.starts_with(b"-") {
                None
            } else {
                Some(rest)
            }
        }
        None => None,
    }
}

// The words before the number of an object in the answer to a question. Descriptions and JSON have no names.
fn kinds_in(line: &[u8]) -> &'static [&'static [u8]] {
    if line.starts_with(b"describe") || line.windows(6).any(|word| word == b"--json".as_slice()) {
        &[]
    } else if line.starts_with(b"draw") {
        DRAWN
    } else {
        TOLD
    }
}

impl<'r> Inspection<'r> {
    /// Over the image in this file.
    pub(crate) fn new(rt: &'r HostRuntime, image: &'r str) -> Inspection<'r> {
        Inspection { rt, image }
    }

    // Says that no copy was made, and on a terminal why.
    fn refuse<V: Output>(&self, new: &str, refusal: Refusal, notes: &mut V) {
        let Refusal { fault, cause } = refusal;
        let _reported = fault.tell(notes);
        if self.rt.stderr().is_terminal() {
            let job = Job::Copy {
                image: self.image,
                new,
            };
            tell_cause(self.rt, &job, fault, cause);
        }
    }

    // Writes what is saved to a new image.
    fn copy<D: SharedDevice, W: Output, V: Output>(
        &self,
        new: &str,
        device: &D,
        writer: &mut W,
        notes: &mut V,
    ) -> Result<(), RunFault>
        ensures fault { IfErr result (λ e. e ≡ RunFault.Write) }
    {
        let copy = writing(self.image, new, NewLayout::Kept);
        match read(self.rt, ReadOnly::new(device), copy, writer, notes) {
            Ok(end) => match end.fault {
                Some(Fault::CannotWriteOutput) => Err(RunFault::Write),
                _ => Ok(()),
            },
            Err(refusal) => {
                self.refuse(new, refusal, notes);
                Ok(())
            }
        }
    }

    // The same to a file whose name has these bytes.
    fn copy_to<D: SharedDevice, W: Output, V: Output>(
        &self,
        new: &[u8],
        device: &D,
        writer: &mut W,
        notes: &mut V,
    ) -> Result<(), RunFault>
        ensures fault { IfErr result (λ e. e ≡ RunFault.Write) }
    {
        match str::from_utf8(new) {
            Ok(new) => self.copy(new, device, writer, notes),
            Err(_) => {
                let _reported = Fault::CannotWriteImage.tell(notes);
                Ok(())
            }
        }
    }

    // Answers a question, with names where they may stand.
    fn answer<D: SharedDevice, B: Output, V: Output>(
        &self,
        line: &[u8],
        device: &D,
        writer: &mut NamedOutput<B>,
        notes: &mut V,
    ) -> Result<(), RunFault>
        ensures answers { AnswersHere D.disk device.now line.now (written_by B.written writer.old)
            (written_by B.written writer.new) (V.written notes.old) (V.written notes.new) result }
        ensures fault { IfErr result (λ e. e ≡ RunFault.Write) }
    {
        writer.set_kinds(kinds_in(line));
        let answered = Questions::new(self.rt.alloc()).inspect(line, device, writer, notes);
        writer.set_kinds(TOLD);
        answered
    }
}

impl<D: SharedDevice, B: Output> Inspector<D, NamedOutput<B>> for Inspection<'_> {
    ghost inspects = { λ i device line output output_left notes notes_left r. (bytes_eq (take 5 line) (codes "copy ") ≡ true)
        ⊎ AnswersHere D.disk device line output output_left notes notes_left r };

    fn inspect<V: Output>(
        &self,
        line: &[u8],
        device: &D,
        writer: &mut NamedOutput<B>,
        notes: &mut V,
    ) -> Result<(), RunFault> {
        match copied_to(line) {
            Some(new) => self.copy_to(new, device, writer, notes),
            None => self.answer(line, device, writer, notes),
        }
    }
}
