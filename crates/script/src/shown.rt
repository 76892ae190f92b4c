// Writing the text of an object.
ghost use Rattle.std.specs.Prelude.{◌≡◌, ◌<◌, ◌≤◌, [], ◌∷◌, ◌++◌, map, length, codes, decimal};
ghost use Rattle.model.specs.Text.{spaced, headed, capability_text, state_text, word_line, word_lines, capability_line};
ghost use Rattle.model.specs.Text.{capability_lines, line_of, registers_of, object_text};
ghost use Rattle.script.specs.Writing.{Writes};

use crate::fault::RunFault;
use crate::line_text::LineText;
use crate::output::Output;
use model::{Capability, Content, Object, Root, Slots, State};

// Writes `NAME number owner OWNER`, the beginning of every object's first line, into `line`.
fn begin_heading(line: &mut LineText, name: &[u8], number: u64, owner: u64)
    requires { length name.now ≤ 8 }
    ensures text { line.new ≡ spaced (headed name.now number owner) }
    ensures short { length line.new ≤ 56 }
{
    line.begin(name);
    line.number(number);
    line.named(b"owner", owner);
}

/// Returns the word for a state.
pub fn state_word(state: State) -> &'static [u8]
    ensures word { result.now ≡ state_text state }
    ensures short { length result.now ≤ 9 }
{
    match state {
        State::Available => b"available",
        State::Running => b"running",
        State::Waiting => b"waiting",
    }
}

// Writes the first line of a process into `line`, without the newline.
fn begin_process(line: &mut LineText, number: u64, owner: u64, root: &Root<Capability>)
    ensures text { line.new ≡ spaced (headed (codes "process") number owner
        ++ (codes "annex" ∷ decimal root.now.annex ∷ state_text root.now.state
        ∷ codes "key" ∷ decimal root.now.key ∷ codes "words" ∷ [])
        ++ map decimal root.now.words ++ (codes "space" ∷ capability_text root.now.space ∷ [])) }
    ensures short { length line.new < 320 }
{
    begin_heading(line, b"process", number, owner);
    line.named(b"annex", root.annex);
    line.word(state_word(root.state));
    line.named(b"key", u64::from(root.key));
    line.word(b"words");
    line.numbers(&root.words);
    line.word(b"space");
    line.capability(root.space);
}

// Writes the line of a bank into `line`, without the newline.
#[tactic(auto, using(crate::proofs::Texts::bank_text))]
fn begin_bank(line: &mut LineText, number: u64, owner: u64, limit: u64, used: u64)
    ensures text { line.new ≡ spaced (headed (codes "bank") number owner
        ++ (codes "limit" ∷ decimal limit ∷ codes "used" ∷ decimal used ∷ [])) }
    ensures short { length line.new < 320 }
{
    begin_heading(line, b"bank", number, owner);
    line.named(b"limit", limit);
    line.named(b"used", used);
}

// Writes the line of one word, unless the word is 0.
#[tactic(auto, using(crate::proofs::Fronts::writes_same))]
fn print_word<W: Output>(
    line: &mut LineText,
    index: usize,
    word: u64,
    writer: &mut W,
) -> Result<(), RunFault>
    ensures { Writes (W.written writer.old) (W.written writer.new) result
        (word_line (index, word)) }
{
    if word == 0 {
        return Ok(());
    }
    line.begin(b"word");
    line.number(index as u64);
    line.number(word);
    line.print(writer)
}

// Writes a line for each word that isn't 0.
fn print_words<W: Output>(
    line: &mut LineText,
    words: &[u64],
    writer: &mut W,
) -> Result<(), RunFault>
    ensures { Writes (W.written writer.old) (W.written writer.new) result (word_lines words.now) }
{
    for (index, word) in words.iter().enumerate() {
        print_word(line, index, *word, writer)?;
    }
    Ok(())
}

// Writes the line of one capability, unless it is void.
#[tactic(auto, using(crate::proofs::Fronts::writes_same, crate::proofs::Texts::capability_has_line))]
fn print_capability<W: Output>(
    line: &mut LineText,
    name: &[u8],
    index: usize,
    capability: Capability,
    writer: &mut W,
) -> Result<(), RunFault>
    requires { length name.now ≤ 8 }
    ensures { Writes (W.written writer.old) (W.written writer.new) result
        (capability_line name.now (index, capability)) }
{
    if let Capability::Void = capability {
        return Ok(());
    }
    line.begin(name);
    line.number(index as u64);
    line.capability(capability);
    line.print(writer)
}

// Writes a line for each capability that isn't void.
fn print_capabilities<W: Output>(
    line: &mut LineText,
    name: &[u8],
    capabilities: &[Capability],
    writer: &mut W,
) -> Result<(), RunFault>
    requires { length name.now ≤ 8 }
    ensures { Writes (W.written writer.old) (W.written writer.new) result
        (capability_lines name.now capabilities.now) }
{
    for (index, capability) in capabilities.iter().enumerate() {
        print_capability(line, name, index, *capability, writer)?;
    }
    Ok(())
}

// Writes `line`, then a line for each capability that isn't void.
fn print_holder<W: Output>(
    line: &mut LineText,
    name: &[u8],
    capabilities: &[Capability],
    writer: &mut W,
) -> Result<(), RunFault>
    requires line { length line.old < 320 }
    requires name { length name.now ≤ 8 }
    ensures { Writes (W.written writer.old) (W.written writer.new) result
        (line_of line.old ++ capability_lines name.now capabilities.now) }
{
    line.print(writer)?;
    print_capabilities(line, name, capabilities, writer)
}

// Returns the registers, or no capabilities if there are no registers.
fn held_by(registers: &Option<Slots<Capability>>) -> &[Capability]
    ensures { result.now ≡ registers_of registers.now }
{
    match registers {
        Some(registers) => registers.as_slice(),
        None => &[],
    }
}

/// Writes the lines of an object, except the last, `end`.
#[tactic(auto, using(crate::proofs::Fronts::writes_same, crate::proofs::Texts::object_free))]
#[inline(never)]
pub fn print_object<W: Output>(
    number: u64,
    object: &Object,
    registers: &Option<Slots<Capability>>,
    used: u64,
    writer: &mut W,
) -> Result<(), RunFault>
    ensures { Writes (W.written writer.old) (W.written writer.new) result
        (object_text number object.now registers.now used) }
{
    let mut line = LineText::empty();
    match &object.content {
        Content::Free => {
            line.begin(b"free");
            line.number(number);
            line.print(writer)
        }
        Content::Page(words) => {
            begin_heading(&mut line, b"page", number, object.owner);
            line.print(writer)?;
            print_words(&mut line, words.as_slice(), writer)
        }
        Content::Node(slots) => {
            begin_heading(&mut line, b"node", number, object.owner);
            print_holder(&mut line, b"slot", slots.as_slice(), writer)
        }
        Content::Root(root) => {
            begin_process(&mut line, number, object.owner, root);
            print_holder(&mut line, b"register", held_by(registers), writer)
        }
        Content::Annex(slots) => {
            begin_heading(&mut line, b"annex", number, object.owner);
            print_holder(&mut line, b"register", slots.as_slice(), writer)
        }
        Content::Bank { limit } => {
            begin_bank(&mut line, number, object.owner, *limit, used);
            line.print(writer)
        }
    }
}
