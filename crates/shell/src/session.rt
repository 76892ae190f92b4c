// Sessions: what a shell does with each line.
ghost use Rattle.std.specs.Prelude.{◌≡◌, ◌≢◌, ◌&&◌, ◌||◌, [], IfErr, IsErrOf, OnOk, codes, false, not};
ghost use Rattle.script.specs.Writing.{Writes};
ghost use Rattle.runs.specs.KernelRuns.{IsCounted};
ghost use Rattle.runs.specs.Reader.{failed_reads};
ghost use Rattle.runs.specs.Unsaved.{nothing_unsaved};
ghost use Rattle.shell.specs.Lines.{ahead_of};
ghost use Rattle.shell.specs.Served.{Notes, greeting, question};
ghost use Rattle.shell.specs.Sessions.{HasServed, InspectsIn, ListsIn, Quits, RunsIn, SavesIn, ServesFrom, ServesLine, session_at};

use crate::help::{Topic, help_on};
use crate::inspector::Inspector;
use crate::listing::list;
use crate::request::{Request, request_of};
use crate::saving::{pass_on_if, print_line, save_all, saved_line};
use crate::typed_lines::TypedLines;
use crate::watch::{Watch, note_remark};
use checkpoint::ObjectStore;
use device::Device;
use kernel::Kernel;
use runs::{RawReader, Unsaved, run_line};
use script::{Output, RunFault};

/// A shell over a kernel. It carries out `help`, `help WORD`, `list`, `save`, `quit` and `exit` itself. An `Inspector`
/// answers questions about what is saved. All other lines go to the machine; help, prompts and remarks go to `notes`.
#[derive(Drop)]
pub struct Shell<V> {
    notes: V,
    topics: &'static [Topic],
    is_prompting: bool,
    // Records whether the lines so far did something that isn't committed.
    unsaved: Unsaved,
    // Whether the last line was `quit` or `exit`, and the shell asked about unsaved work.
    is_asked: bool,
}

// Writes a text to the notes if `is_there`. Ignores failures to write.
fn note<V: Output>(is_there: bool, text: &[u8], notes: &mut V)
    ensures { Notes is_there text.now (V.written notes.old) (V.written notes.new) }
{
    if is_there {
        let _reported = notes.write_fully(text);
    }
}

impl<V: Output> Shell<V> {
    /// Returns a shell that has served no line, with these help topics. If `is_prompting`, it greets, prompts, and
    /// asks about unsaved work.
    pub fn new(mut notes: V, topics: &'static [Topic], is_prompting: bool) -> Shell<V>
        ensures topics { result.topics.now ≡ topics.now }
        ensures prompts { result.is_prompting ≡ is_prompting }
        ensures unsaved { result.unsaved ≡ nothing_unsaved }
        ensures unasked { result.is_asked ≡ false }
        ensures greets { Notes is_prompting greeting (V.written notes) (V.written result.notes) }
    {
        note(
            is_prompting,
            b"Type help for the commands, and quit or Control-D to end.\n",
            &mut notes,
        );
        Shell {
            notes,
            topics,
            is_prompting,
            unsaved: Unsaved::new(),
            is_asked: false,
        }
    }

    /// Returns the uncommitted work of the lines so far.
    pub fn unsaved(&self) -> Unsaved
        ensures { result ≡ self.now.unsaved }
    {
        self.unsaved
    }

    // Passes a line to the machine, and then writes the remark about it, if there is one.
    fn run<D: Device, S: ObjectStore<D>, W: Output>(
        &mut self,
        line: &[u8],
        kernel: &mut Kernel<D, S>,
        writer: &mut W,
    ) -> Result<bool, RunFault>
        ensures runs { RunsIn D.disk S.view S.parts line.now (session_at V.written self.old kernel.old (W.written writer.old))
            (session_at V.written self.new kernel.new (W.written writer.new)) result }
        ensures topics { self.new.topics ≡ self.old.topics }
        ensures prompts { self.new.is_prompting ≡ self.old.is_prompting }
        ensures none_waits { OnOk result (W.waiting writer.new ≡ []) }
        ensures fault { IfErr result (λ e. e ≡ RunFault.Write) }
    {
        let mut watch = Watch::new(self.unsaved);
        let ran = run_line(kernel, line, writer, &mut watch);
        self.unsaved = watch.unsaved;
        self.is_asked = false;
        if ran.is_ok() {
            note_remark(watch.remark, &mut self.notes);
        }
        ran
    }

    // Lists all objects.
    fn list<D: Device, S: ObjectStore<D>, W: Output>(
        &mut self,
        kernel: &mut Kernel<D, S>,
        writer: &mut W,
    ) -> Result<bool, RunFault>
        ensures lists { ListsIn D.disk S.view S.parts (session_at V.written self.old kernel.old (W.written writer.old))
            (session_at V.written self.new kernel.new (W.written writer.new)) result }
        ensures topics { self.new.topics ≡ self.old.topics }
        ensures prompts { self.new.is_prompting ≡ self.old.is_prompting }
        ensures none_waits { OnOk result (W.waiting writer.new ≡ []) }
        ensures fault { IfErr result (λ e. e ≡ RunFault.Write) }
    {
        self.is_asked = false;
        match list(kernel, writer) {
            Ok(()) => Ok(true),
            Err(fault) => Err(fault),
        }
    }

    // Saves the present state, and writes the answer.
    fn save<D: Device, S: ObjectStore<D>, W: Output>(
        &mut self,
        kernel: &mut Kernel<D, S>,
        writer: &mut W,
    ) -> Result<bool, RunFault>
        ensures saves { SavesIn D.disk S.view S.parts (session_at V.written self.old kernel.old (W.written writer.old))
            (session_at V.written self.new kernel.new (W.written writer.new)) result }
        ensures topics { self.new.topics ≡ self.old.topics }
        ensures prompts { self.new.is_prompting ≡ self.old.is_prompting }
        ensures none_waits { OnOk result (W.waiting writer.new ≡ []) }
        ensures fault { IfErr result (λ e. e ≡ RunFault.Write) }
    {
        self.is_asked = false;
        let saved = save_all(kernel, &mut self.unsaved);
        match print_line(saved_line(saved), writer) {
            Ok(()) => Ok(true),
            Err(fault) => Err(fault),
        }
    }

    // Asks about unsaved work, if there is some and the previous line didn't ask. Returns whether it asked.
    fn asks(&mut self) -> bool
        ensures quits { Quits self.old.is_prompting self.old.unsaved self.old.is_asked self.new.is_asked
            (V.written self.old.notes) (V.written self.new.notes) result }
        ensures topics { self.new.topics ≡ self.old.topics }
        ensures prompts { self.new.is_prompting ≡ self.old.is_prompting }
        ensures unsaved { self.new.unsaved ≡ self.old.unsaved }
    {
        let asks = self.is_prompting && !self.is_asked && self.unsaved.is_some();
        self.is_asked = asks;
        note(
            asks,
            b"Some invocations or stores are not saved: type save to keep them, or quit again to lose them.\n",
            &mut self.notes,
        );
        asks
    }

    // Answers a question about what is saved.
    fn inspect<D: Device, S: ObjectStore<D>, Q: Inspector<D, W>, W: Output>(
        &mut self,
        line: &[u8],
        kernel: &Kernel<D, S>,
        inspector: &Q,
        writer: &mut W,
    ) -> Result<bool, RunFault>
        ensures inspects { InspectsIn D.disk S.view S.parts (Q.inspects inspector.now) line.now
            (session_at V.written self.old kernel.now (W.written writer.old))
            (session_at V.written self.new kernel.now (W.written writer.new)) result }
        ensures topics { self.new.topics ≡ self.old.topics }
        ensures prompts { self.new.is_prompting ≡ self.old.is_prompting }
        ensures none_waits { OnOk result (W.waiting writer.new ≡ []) }
        ensures fault { IfErr result (λ e. e ≡ RunFault.Write) }
    {
        self.is_asked = false;
        let answered = inspector.inspect(line, kernel.device(), writer, &mut self.notes);
        pass_on_if(answered, writer)
    }

    // Serves a line, and returns whether the shell goes on. Returns `RunFault::Write` if an answer couldn't be
    // written.
    fn serve<D: Device, S: ObjectStore<D>, Q: Inspector<D, W>, W: Output>(
        &mut self,
        line: &[u8],
        kernel: &mut Kernel<D, S>,
        inspector: &Q,
        writer: &mut W,
    ) -> Result<bool, RunFault>
        requires { W.waiting writer.old ≡ [] }
        ensures served { ServesLine D.disk S.view S.parts (Q.inspects inspector.now) self.old.topics.now self.old.is_prompting line.now
            (session_at V.written self.old kernel.old (W.written writer.old))
            (session_at V.written self.new kernel.new (W.written writer.new)) result }
        ensures topics { self.new.topics ≡ self.old.topics }
        ensures prompts { self.new.is_prompting ≡ self.old.is_prompting }
        ensures none_waits { OnOk result (W.waiting writer.new ≡ []) }
        ensures fault { IfErr result (λ e. e ≡ RunFault.Write) }
    {
        match request_of(line) {
            Request::Pass => self.run(line, kernel, writer),
            Request::Help(word) => {
                self.is_asked = false;
                help_on(self.topics, word, &mut self.notes);
                Ok(true)
            }
            Request::List => self.list(kernel, writer),
            Request::Inspect => self.inspect(line, kernel, inspector, writer),
            Request::Save => self.save(kernel, writer),
            Request::Quit => Ok(self.asks()),
        }
    }

    // Serves lines up to one that ends the shell, or to the end of the input.
    fn serve_lines<D: Device, S: ObjectStore<D>, Q: Inspector<D, W>, R: RawReader, W: Output>(
        &mut self,
        lines: &mut TypedLines<R>,
        kernel: &mut Kernel<D, S>,
        inspector: &Q,
        writer: &mut W,
    ) -> Result<(), RunFault>
        requires { W.waiting writer.old ≡ [] }
        ensures served { HasServed D.disk S.view S.parts (Q.inspects inspector.now) self.old.topics.now self.old.is_prompting (ahead_of R.rest lines.old)
            (ahead_of R.rest lines.new) (session_at V.written self.old kernel.old (W.written writer.old))
            (session_at V.written self.new kernel.new (W.written writer.new)) result }
        ensures none_waits { OnOk result (W.waiting writer.new ≡ []) }
        ensures read_failed { IsCounted (IsErrOf result RunFault.Read) (failed_reads lines.old.reader)
            (failed_reads lines.new.reader) }
        ensures unstopped { IfErr result (λ e. e ≢ RunFault.Stopped) }
    {
        loop {
            note(self.is_prompting, b"eros> ", &mut self.notes);
            match lines.next(writer)? {
                Some(line) => {
                    let goes_on = self.serve(line.as_slice(), kernel, inspector, writer)?;
                    if !goes_on {
                        return Ok(());
                    }
                }
                None => {
                    note(self.is_prompting, b"\n", &mut self.notes);
                    return Ok(());
                }
            }
        }
    }

    /// Serves lines over a kernel, each before it reads the next, up to `quit`, `exit` or the end of the input.
    /// Answers go to `writer`. Each is passed on before the next line is read, and before the remark about its line
    /// is written.
    ///
    /// If the shell prompts and there is unsaved work, `quit` asks once about it.
    ///
    /// Returns `RunFault::Read` exactly if a read failed: then the line that was being read isn't served. Returns
    /// `RunFault::Write` exactly if a call of the writer failed: then only the last answer may be cut short.
    pub fn serve_all<D: Device, S: ObjectStore<D>, Q: Inspector<D, W>, R: RawReader, W: Output>(
        &mut self,
        lines: &mut TypedLines<R>,
        kernel: &mut Kernel<D, S>,
        inspector: &Q,
        writer: &mut W,
    ) -> Result<(), RunFault>
        ensures served { ServesFrom D.disk S.view S.parts (Q.inspects inspector.now) self.old.topics.now self.old.is_prompting (ahead_of R.rest lines.old)
            (ahead_of R.rest lines.new) (session_at V.written self.old kernel.old (W.written writer.old))
            (session_at V.written self.new kernel.new (W.written writer.new)) result }
        ensures none_waits { OnOk result (W.waiting writer.new ≡ []) }
        ensures read_failed { IsCounted (IsErrOf result RunFault.Read) (failed_reads lines.old.reader)
            (failed_reads lines.new.reader) }
        ensures unstopped { IfErr result (λ e. e ≢ RunFault.Stopped) }
    {
        writer.pass_on()?;
        self.serve_lines(lines, kernel, inspector, writer)
    }
}
