// The lines that print a closed set.
ghost use Rattle.std.specs.Prelude.{◌≡◌, ◌≤◌, ◌<◌, [], ◌∷◌, length, codes, decimal};
ghost use Rattle.std.specs.List.{count_by, enumerate_from, flat_map};
ghost use Rattle.model.specs.Object.{slots_in};
ghost use Rattle.model.specs.Text.{spaced};
ghost use Rattle.model.specs.World.{content_at};
ghost use Rattle.script.specs.Writing.{Writes};
ghost use Rattle.reach.specs.Lines.{held_text, member_line, member_pulls, object_pulls, pull_line, pull_lines, pulls};
ghost use Rattle.reach.specs.Lines.{changers_text, counted_text, object_json, object_text, reach_text};
ghost use Rattle.reach.specs.Lines.{words_of};

use collections::NumberSet;
use json_lines::{Format, Key, Member, number_line, text_object};
use model::{Capability, Content, Object};
use script::{LineText, Output, RunFault};

// Returns the beginning of an object's line.
fn begin(name: &[u8], number: u64, owner: u64) -> LineText
    requires { length name.now ≤ 8 }
    ensures text { result ≡ spaced (name.now ∷ decimal number ∷ codes "owner" ∷ decimal owner ∷ []) }
    ensures short { length result ≤ 60 }
{
    let mut line = LineText::numbered(name, number);
    line.named(b"owner", owner);
    line
}

// Returns the line of an object, as `show` begins it.
fn words_of_object(number: u64, object: &Object) -> LineText
    ensures text { result ≡ spaced (words_of number object.now) }
    ensures short { length result ≤ 120 }
{
    let owner = object.owner;
    match &object.content {
        Content::Free => LineText::numbered(b"free", number),
        Content::Page(_) => begin(b"page", number, owner),
        Content::Node(_) => begin(b"node", number, owner),
        Content::Annex(_) => begin(b"annex", number, owner),
        Content::Root(root) => {
            let mut line = begin(b"process", number, owner);
            line.named(b"annex", root.annex);
            line
        }
        Content::Bank { limit } => {
            let mut line = begin(b"bank", number, owner);
            line.named(b"limit", *limit);
            line
        }
    }
}

// Returns the JSON object that describes an object.
fn json_of_object(number: u64, object: &Object) -> LineText
    ensures text { result ≡ object_json number object.now }
    ensures short { length result ≤ 300 }
{
    let number = Member::Number(Key::Number, number);
    let owner = Member::Number(Key::Owner, object.owner);
    match &object.content {
        Content::Free => text_object(b"kind", b"free", &[number]),
        Content::Page(_) => text_object(b"kind", b"page", &[number, owner]),
        Content::Node(_) => text_object(b"kind", b"node", &[number, owner]),
        Content::Annex(_) => text_object(b"kind", b"annex", &[number, owner]),
        Content::Root(root) => {
            let annex = Member::Number(Key::Annex, root.annex);
            text_object(b"kind", b"process", &[number, owner, annex])
        }
        Content::Bank { limit } => {
            let limit = Member::Number(Key::Limit, *limit);
            text_object(b"kind", b"bank", &[number, owner, limit])
        }
    }
}

/// Returns the line of an object, in a format.
pub(crate) fn line_of_object(format: Format, number: u64, object: &Object) -> LineText
    ensures text { result ≡ object_text format number object.now }
    ensures short { length result ≤ 300 }
{
    match format {
        Format::Text => words_of_object(number, object),
        Format::Json => json_of_object(number, object),
    }
}

// Writes the line of an object if it is a member.
fn print_member<W: Output>(
    format: Format,
    inside: &NumberSet,
    number: usize,
    object: &Object,
    writer: &mut W,
) -> Result<(), RunFault>
    requires { number < length inside.now }
    ensures { Writes (W.written writer.old) (W.written writer.new) result
        (member_line format inside.now (number, object.now)) }
{
    if !inside.contains(number) {
        return Ok(());
    }
    line_of_object(format, number as u64, object).write_to(writer)
}

// Whether a capability of an object gives authority over another process or bank. Then it pulls this into the set.
fn pulls(number: u64, capability: Capability) -> bool
    ensures { result ≡ pulls number capability }
{
    match capability {
        Capability::Process(named)
        | Capability::Start { process: named, .. }
        | Capability::Resume(named)
        | Capability::Bank(named) => named != number,
        _ => false,
    }
}

/// Returns the line of a capability that an object holds.
pub(crate) fn line_of_held(
    format: Format,
    name: &[u8],
    number: u64,
    place: Key,
    index: u64,
    capability: Capability,
) -> LineText
    requires { length name.now ≤ 8 }
    ensures text { result ≡ held_text format name.now number place index capability }
    ensures short { length result < 320 }
{
    match format {
        Format::Text => {
            let mut line = LineText::numbered(name, number);
            line.push(b",");
            line.named(place.name(), index);
            line.push(b":");
            line.capability(capability);
            line
        }
        Format::Json => {
            let number = Member::Number(Key::Number, number);
            let index = Member::Number(place, index);
            let held = Member::Capability(Key::Capability, capability);
            text_object(b"kind", name, &[number, index, held])
        }
    }
}

// Writes the line of a capability if it pulls another process or bank into the set.
fn print_pull<W: Output>(
    format: Format,
    name: &[u8],
    number: u64,
    place: Key,
    index: usize,
    capability: Capability,
    writer: &mut W,
) -> Result<(), RunFault>
    requires { length name.now ≤ 8 }
    ensures { Writes (W.written writer.old) (W.written writer.new) result
        (pull_line format name.now number place (index, capability)) }
{
    if !pulls(number, capability) {
        return Ok(());
    }
    line_of_held(format, name, number, place, index as u64, capability).write_to(writer)
}

// Writes the lines of all members.
fn print_members<W: Output>(
    format: Format,
    objects: &[Object],
    inside: &NumberSet,
    writer: &mut W,
) -> Result<(), RunFault>
    requires { length inside.now ≡ length objects.now }
    ensures { Writes (W.written writer.old) (W.written writer.new) result
        (flat_map (member_line format inside.now) (enumerate_from 0 objects.now)) }
{
    for (number, object) in objects.iter().enumerate() {
        print_member(format, inside, number, object, writer)?;
    }
    Ok(())
}

// Writes the lines of all capabilities of an object that pull processes and banks into the set.
#[tactic(auto, using(script::proofs::NumberedLines::lines_all))]
fn print_pulls<W: Output>(
    format: Format,
    name: &[u8],
    number: u64,
    place: Key,
    capabilities: &[Capability],
    writer: &mut W,
) -> Result<(), RunFault>
    requires { length name.now ≤ 8 }
    ensures { Writes (W.written writer.old) (W.written writer.new) result
        (pull_lines format name.now number place capabilities.now) }
{
    for (index, capability) in capabilities.iter().enumerate() {
        print_pull(format, name, number, place, index, *capability, writer)?;
    }
    Ok(())
}

/// Returns the capabilities that an object holds in slots or registers.
pub(crate) fn slots_of(objects: &[Object], number: u64) -> &[Capability]
    ensures { result.now ≡ slots_in (content_at objects.now number) }
{
    match objects.get(number as usize) {
        Some(object) => match &object.content {
            Content::Node(slots) | Content::Annex(slots) => slots.as_slice(),
            _ => &[],
        },
        None => &[],
    }
}

// Writes a line for each capability by which an object pulls another process or bank into the set. A process
// holds them in its annex's registers.
fn print_object_pulls<W: Output>(
    format: Format,
    objects: &[Object],
    number: u64,
    object: &Object,
    writer: &mut W,
) -> Result<(), RunFault>
    ensures { Writes (W.written writer.old) (W.written writer.new) result
        (object_pulls format objects.now number object.now) }
{
    match &object.content {
        Content::Node(slots) => print_pulls(
            format,
            b"node",
            number,
            Key::Slot,
            slots.as_slice(),
            writer,
        ),
        Content::Root(root) => {
            let registers = slots_of(objects, root.annex);
            print_pulls(format, b"process", number, Key::Register, registers, writer)
        }
        _ => Ok(()),
    }
}

// If the object is a member, writes a line for each capability by which it pulls another process or bank into the set.
fn print_member_pulls<W: Output>(
    format: Format,
    objects: &[Object],
    inside: &NumberSet,
    number: usize,
    object: &Object,
    writer: &mut W,
) -> Result<(), RunFault>
    requires { number < length inside.now }
    ensures { Writes (W.written writer.old) (W.written writer.new) result
        (member_pulls format objects.now inside.now (number, object.now)) }
{
    if !inside.contains(number) {
        return Ok(());
    }
    print_object_pulls(format, objects, number as u64, object, writer)
}

// Writes a line for each capability by which a member pulls another process or bank into the set.
#[tactic(auto, using(script::proofs::NumberedLines::lines_all))]
fn print_all_pulls<W: Output>(
    format: Format,
    objects: &[Object],
    inside: &NumberSet,
    writer: &mut W,
) -> Result<(), RunFault>
    requires { length inside.now ≡ length objects.now }
    ensures { Writes (W.written writer.old) (W.written writer.new) result
        (flat_map (member_pulls format objects.now inside.now) (enumerate_from 0 objects.now)) }
{
    for (number, object) in objects.iter().enumerate() {
        print_member_pulls(format, objects, inside, number, object, writer)?;
    }
    Ok(())
}

// Returns how many numbers below `total` are members.
fn count_members(inside: &NumberSet, total: usize) -> u64
    requires { total ≡ length inside.now }
    ensures { result ≡ count_by (λ b. b) inside.now }
{
    let mut count = 0;
    for number in 0..total {
        if inside.contains(number) {
            count += 1;
        }
    }
    count
}

// Writes the lines of a set's members, as `show` begins them, in rising order, then `word` with their count.
fn print_counted<W: Output>(
    format: Format,
    word: &[u8],
    objects: &[Object],
    inside: &NumberSet,
    writer: &mut W,
) -> Result<(), RunFault>
    requires word { length word.now ≤ 9 }
    requires count { length inside.now ≡ length objects.now }
    ensures { Writes (W.written writer.old) (W.written writer.new) result
        (counted_text format word.now objects.now inside.now) }
{
    print_members(format, objects, inside, writer)?;
    number_line(format, word, count_members(inside, objects.len())).write_to(writer)
}

/// Writes a set of objects in a format: the line of each as `show` begins it, in rising order; `closed` with their
/// count; and each capability of a member that names another process or bank.
///
/// Returns `RunFault::Write` if the writer fails or accepts no bytes; then it accepted only a beginning of the text.
/// It takes no memory.
pub fn print_reach<W: Output>(
    format: Format,
    objects: &[Object],
    inside: &NumberSet,
    writer: &mut W,
) -> Result<(), RunFault>
    requires { length inside.now ≡ length objects.now }
    ensures { Writes (W.written writer.old) (W.written writer.new) result
        (reach_text format objects.now inside.now) }
{
    print_counted(format, b"closed", objects, inside, writer)?;
    print_all_pulls(format, objects, inside, writer)
}

/// Writes a set of processes in a format: the line of each as `show` begins it, in rising order, then `processes`
/// with their count.
///
/// Returns `RunFault::Write` if the writer fails or accepts no bytes; then it accepted only a beginning of the text.
/// It takes no memory.
pub fn print_changers<W: Output>(
    format: Format,
    objects: &[Object],
    inside: &NumberSet,
    writer: &mut W,
) -> Result<(), RunFault>
    requires { length inside.now ≡ length objects.now }
    ensures { Writes (W.written writer.old) (W.written writer.new) result
        (changers_text format objects.now inside.now) }
{
    print_counted(format, b"processes", objects, inside, writer)
}
