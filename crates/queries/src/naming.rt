// Names in the numbers of an image of other sizes.
ghost use Rattle.std.specs.Prelude.{◌≡◌, ◌+◌, ◌<◌, ◌^◌, Result, Some};
ghost use Rattle.home_ranges.specs.Laid.{MayBeLaid};
ghost use Rattle.description.specs.Described.{HasFields};
ghost use Rattle.image_describer.specs.Spelled.{CanBeSpelled};
ghost use Rattle.jobs.specs.Faults.{IsEnd, IsReported};
ghost use Rattle.script.specs.Writing.{Writes};
ghost use Rattle.queries.specs.Naming.{DescribesNamed, TellsNamed, name_line, named_line, names_text, place_of};

use crate::describing::tell_grown;
use crate::saved::read_saved;
use description::{Description, Sizes};
use device::Device;
use jobs::{Done, Fault, of_write};
use migrator::WholeStore;
use model::Geometry;
use names::Name;
use script::{LineText, Output, RunFault};
use std::alloc::Global;

// Returns the number of a node or a page in an image of other sizes, if it has one there.
#[tactic(auto, using(std::proofs::lemmas::Bool::Decides::nat_tests))]
fn place_of(old: Geometry, new: Geometry, number: u64) -> Option<u64>
    requires { new.nodes + new.pages < 2 ^ 64 }
    ensures { result ≡ place_of old new number }
{
    if number < old.nodes {
        return if number < new.nodes {
            Some(number)
        } else {
            None
        };
    }
    let index = number - old.nodes;
    if index < old.pages && index < new.pages {
        Some(index + new.nodes)
    } else {
        None
    }
}

// Writes a name and a number, as a comment.
fn tell_line<W: Output>(name: &[u8], number: u64, writer: &mut W) -> Result<(), RunFault>
    ensures { Writes (W.written writer.old) (W.written writer.new) result (named_line name.now (Some number)) }
{
    writer.write_fully(b"# ")?;
    writer.write_fully(name)?;
    LineText::numbered(b" =", number).print(writer)
}

// Writes a name with its number in an image of other sizes, as a comment, if it has one there.
#[tactic(auto, unfolding(crate::specs::Naming::name_line))]
fn tell_name<W: Output>(
    old: Geometry,
    new: Geometry,
    name: &Name,
    writer: &mut W,
) -> Result<(), RunFault>
    requires { new.nodes + new.pages < 2 ^ 64 }
    ensures { Writes (W.written writer.old) (W.written writer.new) result (name_line old new name.now) }
{
    match place_of(old, new, name.number) {
        Some(number) => tell_line(name.text.as_bytes(), number, writer),
        None => Ok(()),
    }
}

// Writes names with their numbers in an image of other sizes, each as a comment. Leaves out names of numbers that this
// image or the other one hasn't.
fn tell_names<W: Output>(
    old: Geometry,
    new: Geometry,
    names: &[Name],
    writer: &mut W,
) -> Result<(), RunFault>
    requires { new.nodes + new.pages < 2 ^ 64 }
    ensures { Writes (W.written writer.old) (W.written writer.new) result (names_text old new names.now) }
{
    for name in names {
        tell_name(old, new, name, writer)?;
    }
    Ok(())
}

// Does what `tell_grown` does, then writes names with their new numbers.
fn tell_named<W: Output>(
    alloc: Global,
    description: Description,
    sizes: Sizes,
    names: &[Name],
    writer: &mut W,
) -> Result<(), Fault>
    requires laid { MayBeLaid description.geometry description.ranges.items }
    requires fields { HasFields description }
    requires spelled { CanBeSpelled description }
    ensures { TellsNamed description sizes names.now (W.written writer.old) (W.written writer.new) result }
{
    let own = description.geometry;
    match tell_grown(alloc, description, sizes, writer) {
        Ok(()) => of_write(tell_names(own, sizes.over(own), names, writer)),
        Err(fault) => Err(fault),
    }
}

/// Does what `describe_image` does, then writes each name with its number in an image of these sizes, as a comment like
/// `# viewer = 14`. So these lines without `# ` are a file of names for an image that is built from the text. A name is
/// left out if no object of that image has its number.
///
/// The status, the faults and the device are those of `describe_image`.
pub fn describe_named<D: Device, S: WholeStore<D>, W: Output, V: Output>(
    alloc: Global,
    device: D,
    setting: S::Setting,
    sizes: Sizes,
    names: &[Name],
    writer: &mut W,
    errors: &mut V,
) -> Done<D>
    ensures { (outcome : Result (Unit {0}) Fault) × IsEnd outcome result.status result.fault
        × IsReported outcome (V.written errors.old) (V.written errors.new)
        × DescribesNamed D.disk sizes names.now device result.device (W.written writer.old) (W.written writer.new) outcome }
{
    match read_saved::<Description, D, S>(alloc, device, setting) {
        Ok((description, device)) => {
            let outcome = tell_named(alloc, description, sizes, names, writer);
            Done::report(outcome, device, errors)
        }
        Err(refused) => Done::unopened(refused, errors),
    }
}
