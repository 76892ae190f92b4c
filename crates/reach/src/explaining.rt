// The lines that print a chain of steps.
ghost use Rattle.std.specs.Prelude.{◌≡◌, ◌≤◌, ◌<◌, length};
ghost use Rattle.std.specs.List.{flat_map};
ghost use Rattle.model.specs.Text.{line_of};
ghost use Rattle.model.specs.World.{content_at, object_at};
ghost use Rattle.script.specs.Writing.{Writes};
ghost use Rattle.reach.specs.ChainLines.{chain_text, denial_of, denied_key, kind_of, place_of, step_line, step_text};
ghost use Rattle.reach.specs.ChainLines.{steps_text, unchanged_text};
ghost use Rattle.reach.specs.Lines.{object_text};
ghost use Rattle.json_lines.specs.declared.format.Format.TheVariants.{Json, Text};
ghost use Rattle.reach.specs.declared.step.Way.TheVariants.{Owner};

use crate::authority::Purpose;
use crate::printing::{line_of_held, line_of_object};
use crate::step::{Step, Way};
use json_lines::{Format, Key, Member, text_object};
use model::{Content, Object};
use script::{LineText, Output, RunFault};

// Returns the word for the kind of an object.
fn kind_at(objects: &[Object], number: u64) -> &'static [u8]
    ensures kind { result.now ≡ kind_of (content_at objects.now number) }
    ensures short { length result.now ≤ 8 }
{
    match objects.get(number as usize) {
        Some(object) => match object.content {
            Content::Free => b"free",
            Content::Page(_) => b"page",
            Content::Node(_) => b"node",
            Content::Root(_) => b"process",
            Content::Annex(_) => b"annex",
            Content::Bank { .. } => b"bank",
        },
        None => b"free",
    }
}

// Returns the word for where an object holds capabilities: slot or register.
fn place_at(objects: &[Object], number: u64) -> Key
    ensures { result ≡ place_of (content_at objects.now number) }
{
    match objects.get(number as usize) {
        Some(object) => match object.content {
            Content::Node(_) => Key::Slot,
            _ => Key::Register,
        },
        None => Key::Register,
    }
}

// Returns the line of a step from a bank to an object that it owns.
fn line_of_owner(objects: &[Object], bank: u64, owned: u64) -> LineText
    ensures text { result ≡ step_text Text objects.now bank Owner owned }
    ensures short { length result < 320 }
{
    let mut line = LineText::numbered(b"bank", bank);
    line.word(b"owns");
    line.named(kind_at(objects, owned), owned);
    line
}

// Returns the line of a step, as text for people.
fn words_of_step(objects: &[Object], step: Step) -> LineText
    ensures text { result ≡ step_text Text objects.now step.from step.way step.to }
    ensures short { length result < 320 }
{
    match step.way {
        Way::Annex => {
            let mut line = LineText::numbered(b"process", step.from);
            line.named(b"has annex", step.to);
            line
        }
        Way::Owner => line_of_owner(objects, step.from, step.to),
        Way::Space(capability) => {
            let mut line = LineText::numbered(b"process", step.from);
            line.push(b", space:");
            line.capability(capability);
            line
        }
        Way::Slot { index, capability } => {
            let (kind, place) = (kind_at(objects, step.from), place_at(objects, step.from));
            line_of_held(Format::Text, kind, step.from, place, index, capability)
        }
    }
}

// Returns the JSON object of a step.
fn json_of_step(objects: &[Object], step: Step) -> LineText
    ensures text { result ≡ step_text Json objects.now step.from step.way step.to }
    ensures short { length result < 320 }
{
    let number = Member::Number(Key::Number, step.from);
    match step.way {
        Way::Annex => {
            let annex = Member::Number(Key::Annex, step.to);
            text_object(b"kind", b"process", &[number, annex])
        }
        Way::Owner => {
            let owns = Member::Number(Key::Owns, step.to);
            text_object(b"kind", b"bank", &[number, owns])
        }
        Way::Space(capability) => {
            let space = Member::Capability(Key::Space, capability);
            text_object(b"kind", b"process", &[number, space])
        }
        Way::Slot { index, capability } => {
            let (kind, place) = (kind_at(objects, step.from), place_at(objects, step.from));
            line_of_held(Format::Json, kind, step.from, place, index, capability)
        }
    }
}

// Returns the line of a step, in a format.
fn line_of_step(format: Format, objects: &[Object], step: Step) -> LineText
    ensures text { result ≡ step_text format objects.now step.from step.way step.to }
    ensures short { length result < 320 }
{
    match format {
        Format::Text => words_of_step(objects, step),
        Format::Json => json_of_step(objects, step),
    }
}

// Writes the lines of steps.
#[tactic(auto, using(crate::proofs::TextLines::plain_all))]
fn print_steps<W: Output>(
    format: Format,
    objects: &[Object],
    steps: &[Step],
    writer: &mut W,
) -> Result<(), RunFault>
    ensures { Writes (W.written writer.old) (W.written writer.new) result
        (flat_map (step_line format objects.now) steps.now) }
{
    for step in steps {
        line_of_step(format, objects, *step).write_to(writer)?;
    }
    Ok(())
}

// Writes the line of an object.
fn print_object<W: Output>(
    format: Format,
    objects: &[Object],
    number: u64,
    writer: &mut W,
) -> Result<(), RunFault>
    ensures { Writes (W.written writer.old) (W.written writer.new) result
        (line_of (object_text format number (object_at objects.now number))) }
{
    match objects.get(number as usize) {
        Some(object) => line_of_object(format, number, object).write_to(writer),
        None => {
            let free = Object {
                owner: 0,
                content: Content::Free,
            };
            line_of_object(format, number, &free).write_to(writer)
        }
    }
}

// Writes a line for each step of a chain, then the line of the object that it leads to.
#[tactic(auto, using(script::proofs::Fronts::writes_after))]
fn print_to<W: Output>(
    format: Format,
    objects: &[Object],
    object: u64,
    steps: &[Step],
    writer: &mut W,
) -> Result<(), RunFault>
    ensures { Writes (W.written writer.old) (W.written writer.new) result
        (steps_text format objects.now steps.now object) }
{
    print_steps(format, objects, steps, writer)?;
    print_object(format, objects, object, writer)
}

// Returns the words before an object that no chain leads to.
fn denial(purpose: Purpose) -> &'static [u8]
    ensures text { result.now ≡ denial_of purpose }
    ensures short { length result.now ≤ 16 }
{
    match purpose {
        Purpose::Change => b"cannot change",
        Purpose::Read => b"cannot read",
    }
}

// Returns the JSON key for an object that no chain leads to.
fn denied(purpose: Purpose) -> Key
    ensures { result ≡ denied_key purpose }
{
    match purpose {
        Purpose::Change => Key::CanChange,
        Purpose::Read => Key::CanRead,
    }
}

// Returns the line of an object that no chain leads to.
fn line_of_unchanged(format: Format, objects: &[Object], purpose: Purpose, number: u64) -> LineText
    ensures text { result ≡ unchanged_text format objects.now purpose number }
    ensures short { length result < 320 }
{
    match format {
        Format::Text => {
            let mut line = LineText::new(denial(purpose));
            line.named(kind_at(objects, number), number);
            line
        }
        Format::Json => {
            let members = [
                Member::Number(Key::Number, number),
                Member::No(denied(purpose)),
            ];
            text_object(b"kind", kind_at(objects, number), &members)
        }
    }
}

/// Writes a chain to an object in a format: a line for each step, first step first, then the object's line as `show`
/// begins it. If there is no chain, writes `cannot change` or `cannot read` with the object's kind and number.
///
/// Returns `RunFault::Write` if the writer fails or accepts no bytes; then it accepted only a beginning of the text.
/// It takes no memory.
pub fn print_chain<W: Output>(
    format: Format,
    objects: &[Object],
    purpose: Purpose,
    object: u64,
    chain: &Option<Vec<Step>>,
    writer: &mut W,
) -> Result<(), RunFault>
    ensures { Writes (W.written writer.old) (W.written writer.new) result
        (chain_text format objects.now purpose object chain.now) }
{
    match chain {
        Some(steps) => print_to(format, objects, object, steps, writer),
        None => line_of_unchanged(format, objects, purpose, object).write_to(writer),
    }
}
