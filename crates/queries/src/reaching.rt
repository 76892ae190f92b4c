// The command that prints what processes can ever change or read, and which processes can change or read an object.
ghost use Rattle.std.specs.Prelude.{◌≡◌, ℕ, [], false, true, IfSome, IsNone, Result, Some};
ghost use Rattle.model.specs.Object.{is_free};
ghost use Rattle.model.specs.World.{content_at};
ghost use Rattle.reach.specs.Reached.{AreSoundObjects};
ghost use Rattle.jobs.specs.Faults.{IsEnd, IsReported};
ghost use Rattle.queries.specs.Reaching.{AreProcesses, IsFirstMissing, ReachesImage, TellsOf, TellsReach, object_of};
ghost use Rattle.queries.specs.declared.reaching.ReachQuestion.TheVariants.{Chain, Changers, Set};

use crate::saved::read_saved;
use device::Device;
use jobs::{Done, Fault, of_write};
use json_lines::Format;
use migrator::WholeStore;
use model::{Content, Object};
use reach::{
    Purpose, all_processes, changers, missing_process, print_chain, print_changers, print_reach,
    reach, shortest_chain,
};
use script::Output;
use std::alloc::Global;

/// A question to `reach` about some processes.
#[derive(Clone, Copy)]
pub enum ReachQuestion {
    /// What these processes can ever change or read.
    Set(Purpose),
    /// A shortest chain of steps by which these processes can change or read this object.
    Chain(Purpose, u64),
    /// Which of these processes can ever change or read this object.
    Changers(Purpose, u64),
}

impl ReachQuestion {
    // Returns the object in the question, if there is one.
    fn object(self) -> Option<u64>
        ensures { result ≡ object_of self }
    {
        match self {
            ReachQuestion::Set(_) => None,
            ReachQuestion::Chain(_, object) | ReachQuestion::Changers(_, object) => Some(object),
        }
    }
}

// Writes the least closed set that contains some processes.
fn tell_set<W: Output>(
    alloc: Global,
    format: Format,
    objects: &[Object],
    purpose: Purpose,
    processes: &[u64],
    trusted: &[u64],
    writer: &mut W,
) -> Result<(), Fault>
    requires sound { AreSoundObjects objects.now }
    requires processes { AreProcesses objects.now processes.now }
    requires trusted { AreProcesses objects.now trusted.now }
    ensures { TellsOf format objects.now processes.now trusted.now (Set purpose) (W.written writer.old)
        (W.written writer.new) result }
{
    match reach(alloc, objects, purpose, processes, trusted) {
        Ok(inside) => of_write(print_reach(format, objects, &inside, writer)),
        Err(_) => Err(Fault::NoMemory),
    }
}

// Writes a shortest chain from some processes to an object.
fn tell_chain<W: Output>(
    alloc: Global,
    format: Format,
    objects: &[Object],
    purpose: Purpose,
    processes: &[u64],
    trusted: &[u64],
    object: u64,
    writer: &mut W,
) -> Result<(), Fault>
    requires sound { AreSoundObjects objects.now }
    requires processes { AreProcesses objects.now processes.now }
    requires trusted { AreProcesses objects.now trusted.now }
    requires there { is_free (content_at objects.now object) ≡ false }
    ensures { TellsOf format objects.now processes.now trusted.now (Chain purpose object) (W.written writer.old)
        (W.written writer.new) result }
{
    match shortest_chain(alloc, objects, purpose, processes, trusted, object) {
        Ok(chain) => of_write(print_chain(format, objects, purpose, object, &chain, writer)),
        Err(_) => Err(Fault::NoMemory),
    }
}

// Writes which of some processes can ever change or read an object.
fn tell_changers<W: Output>(
    alloc: Global,
    format: Format,
    objects: &[Object],
    purpose: Purpose,
    processes: &[u64],
    trusted: &[u64],
    object: u64,
    writer: &mut W,
) -> Result<(), Fault>
    requires sound { AreSoundObjects objects.now }
    requires processes { AreProcesses objects.now processes.now }
    requires trusted { AreProcesses objects.now trusted.now }
    requires there { is_free (content_at objects.now object) ≡ false }
    ensures { TellsOf format objects.now processes.now trusted.now (Changers purpose object) (W.written writer.old)
        (W.written writer.new) result }
{
    match changers(alloc, objects, purpose, processes, trusted, object) {
        Ok(inside) => of_write(print_changers(format, objects, &inside, writer)),
        Err(_) => Err(Fault::NoMemory),
    }
}

// Whether a number has no object.
fn is_free(objects: &[Object], number: u64) -> bool
    ensures { result ≡ is_free (content_at objects.now number) }
{
    match objects.get(number as usize) {
        Some(object) => matches!(object.content, Content::Free),
        None => true,
    }
}

// Returns the number in a question if it has no object, else `None`.
fn missing_object(objects: &[Object], question: ReachQuestion) -> Option<u64>
    ensures some { IfSome result (λ o. (object_of question ≡ Some o) × (is_free (content_at objects.now o) ≡ true)) }
    ensures none { IsNone result → (o : ℕ) → object_of question ≡ Some o → is_free (content_at objects.now o) ≡ false }
{
    let object = question.object()?;
    if is_free(objects, object) {
        Some(object)
    } else {
        None
    }
}

// Writes the answer to a question about some processes.
fn tell_of<W: Output>(
    alloc: Global,
    format: Format,
    objects: &[Object],
    processes: &[u64],
    trusted: &[u64],
    question: ReachQuestion,
    writer: &mut W,
) -> Result<(), Fault>
    requires sound { AreSoundObjects objects.now }
    requires processes { AreProcesses objects.now processes.now }
    requires trusted { AreProcesses objects.now trusted.now }
    ensures { TellsOf format objects.now processes.now trusted.now question (W.written writer.old)
        (W.written writer.new) result }
{
    if let Some(object) = missing_object(objects, question) {
        return Err(Fault::NoObject(object));
    }
    match question {
        ReachQuestion::Set(purpose) => {
            tell_set(alloc, format, objects, purpose, processes, trusted, writer)
        }
        ReachQuestion::Chain(purpose, object) => tell_chain(
            alloc, format, objects, purpose, processes, trusted, object, writer,
        ),
        ReachQuestion::Changers(purpose, object) => tell_changers(
            alloc, format, objects, purpose, processes, trusted, object, writer,
        ),
    }
}

// Writes the answer to a question about all processes.
fn tell_of_all<W: Output>(
    alloc: Global,
    format: Format,
    objects: &[Object],
    trusted: &[u64],
    question: ReachQuestion,
    writer: &mut W,
) -> Result<(), Fault>
    requires sound { AreSoundObjects objects.now }
    requires trusted { AreProcesses objects.now trusted.now }
    ensures { TellsReach format objects.now [] trusted.now question (W.written writer.old)
        (W.written writer.new) result }
{
    match all_processes(alloc, objects) {
        Ok(all) => tell_of(alloc, format, objects, &all, trusted, question, writer),
        Err(_) => Err(Fault::NoMemory),
    }
}

// Writes the answer to a question about the processes `named`, or about all processes if `named` is empty.
fn tell_named<W: Output>(
    alloc: Global,
    format: Format,
    objects: &[Object],
    named: &[u64],
    trusted: &[u64],
    question: ReachQuestion,
    writer: &mut W,
) -> Result<(), Fault>
    requires sound { AreSoundObjects objects.now }
    requires named { AreProcesses objects.now named.now }
    requires trusted { AreProcesses objects.now trusted.now }
    ensures { TellsReach format objects.now named.now trusted.now question (W.written writer.old) (W.written writer.new)
        result }
{
    if named.is_empty() {
        return tell_of_all(alloc, format, objects, trusted, question, writer);
    }
    tell_of(alloc, format, objects, named, trusted, question, writer)
}

// Returns the first of `named` that isn't a process's number, else the first of `trusted`, else
// `None`.
fn first_missing(objects: &[Object], named: &[u64], trusted: &[u64]) -> Option<u64>
    ensures some { IfSome result (IsFirstMissing objects.now named.now trusted.now) }
    ensures named { IsNone result → AreProcesses objects.now named.now }
    ensures trusted { IsNone result → AreProcesses objects.now trusted.now }
{
    if let Some(number) = missing_process(objects, named) {
        return Some(number);
    }
    missing_process(objects, trusted)
}

// Checks the numbers in a question, and writes the answer about the processes `named`, or about all if `named` is
// empty.
fn tell_reach<W: Output>(
    alloc: Global,
    format: Format,
    objects: &[Object],
    named: &[u64],
    trusted: &[u64],
    question: ReachQuestion,
    writer: &mut W,
) -> Result<(), Fault>
    requires { AreSoundObjects objects.now }
    ensures { TellsReach format objects.now named.now trusted.now question (W.written writer.old) (W.written writer.new)
        result }
{
    if let Some(number) = first_missing(objects, named, trusted) {
        return Err(Fault::NoProcess(number));
    }
    tell_named(alloc, format, objects, named, trusted, question, writer)
}

/// Opens a device as a run does, and answers a question in a format, about the processes `named`, or about all if
/// `named` is empty. The status is 0. The answer is one of:
/// - what these processes can ever change or read, apart from messages to the processes `trusted`: the least
///   closed set that contains them, whose members may start trusted processes outside;
/// - a shortest chain of steps to an object; if the set doesn't contain the object, `cannot change` or `cannot
///   read` with its kind and number;
/// - which of these processes can ever change or read an object.
///
/// After a fault the status is 1, and one line is written to `errors`:
/// - `bad image` with a number from 1 to 10, `device failed` or `no memory`;
/// - `no process` with the first of `named`, else of `trusted`, that isn't a process's number;
/// - `no object` with the object's number, if it is free or beyond the image;
/// - `cannot write output` if the writer fails.
///
/// Returns the device, and writes nothing to it.
pub fn reach_image<D: Device, S: WholeStore<D>, W: Output, V: Output>(
    alloc: Global,
    device: D,
    setting: S::Setting,
    format: Format,
    named: &[u64],
    trusted: &[u64],
    question: ReachQuestion,
    writer: &mut W,
    errors: &mut V,
) -> Done<D>
    ensures { (outcome : Result (Unit {0}) Fault) × IsEnd outcome result.status result.fault
        × IsReported outcome (V.written errors.old) (V.written errors.new)
        × ReachesImage format D.disk named.now trusted.now question device result.device
        (W.written writer.old) (W.written writer.new) outcome }
{
    match read_saved::<Vec<Object>, D, S>(alloc, device, setting) {
        Ok((objects, device)) => {
            let outcome = tell_reach(alloc, format, &objects, named, trusted, question, writer);
            Done::report(outcome, device, errors)
        }
        Err(refused) => Done::unopened(refused, errors),
    }
}
