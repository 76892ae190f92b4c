// JSON objects with a few members, each assembled as a line.
ghost use Rattle.std.specs.Prelude.{◌≡◌, ◌≤◌, ◌+◌, ◌++◌, ◌∷◌, length, codes};
ghost use Rattle.model.specs.Text.{capability_text};
ghost use Rattle.json_lines.specs.Objects.{next_text, number_line, number_object, quoted, rest_text, text_object};

use crate::format::Format;
use crate::key::Key;
use model::Capability;
use script::LineText;

/// A member of a JSON object, other than the first.
#[derive(Clone, Copy)]
pub enum Member {
    /// A number.
    Number(Key, u64),
    /// A capability, as `show` prints it.
    Capability(Key, Capability),
    /// The value `false`.
    No(Key),
}

// Appends the name of a member, and a colon.
fn add_name(line: &mut LineText, name: &[u8])
    requires { length line.old + length name.now + 3 ≤ 320 }
    ensures text { line.new ≡ line.old ++ quoted name.now ++ codes ":" }
    ensures short { length line.new ≤ length line.old + length name.now + 3 }
{
    line.push(b"\"");
    line.push(name);
    line.push(b"\":");
}

// Appends a capability as a JSON string.
fn add_capability(line: &mut LineText, capability: Capability)
    requires { length line.old ≤ 240 }
    ensures text { line.new ≡ line.old ++ 32 ∷ quoted (capability_text capability) }
    ensures short { length line.new ≤ length line.old + 58 }
{
    let mut text = LineText::empty();
    text.capability(capability);
    line.push(b" \"");
    line.push(&text.as_bytes()[1..]);
    line.push(b"\"");
}

// Appends a member after the first.
fn add_member(line: &mut LineText, member: Member)
    requires { length line.old ≤ 220 }
    ensures text { line.new ≡ line.old ++ next_text member }
    ensures short { length line.new ≤ length line.old + 73 }
{
    line.push(b", ");
    match member {
        Member::Number(key, number) => {
            add_name(line, key.name());
            line.number(number);
        }
        Member::Capability(key, capability) => {
            add_name(line, key.name());
            add_capability(line, capability);
        }
        Member::No(key) => {
            add_name(line, key.name());
            line.word(b"false");
        }
    }
}

// Appends the members after the first, and ends the object.
fn add_rest(mut line: LineText, rest: &[Member]) -> LineText
    requires first { length line ≤ 70 }
    requires few { length rest.now ≤ 3 }
    ensures text { result ≡ line ++ rest_text rest.now }
    ensures short { length result ≤ 300 }
{
    for member in rest {
        add_member(&mut line, *member);
    }
    line.push(b"}");
    line
}

/// Returns the object whose first member is this string. The string may have no character that JSON
/// escapes.
pub fn text_object(name: &[u8], text: &[u8], rest: &[Member]) -> LineText
    requires name { length name.now ≤ 20 }
    requires first { length text.now ≤ 40 }
    requires few { length rest.now ≤ 3 }
    ensures text { result ≡ text_object name.now text.now rest.now }
    ensures short { length result ≤ 300 }
{
    let mut line = LineText::new(b"{");
    add_name(&mut line, name);
    line.push(b" \"");
    line.push(text);
    line.push(b"\"");
    add_rest(line, rest)
}

/// Returns the object whose first member is a number.
pub fn number_object(name: &[u8], number: u64, rest: &[Member]) -> LineText
    requires name { length name.now ≤ 20 }
    requires few { length rest.now ≤ 3 }
    ensures text { result ≡ number_object name.now number rest.now }
    ensures short { length result ≤ 300 }
{
    let mut line = LineText::new(b"{");
    add_name(&mut line, name);
    line.number(number);
    add_rest(line, rest)
}

/// Returns a name and its number as a line in this format.
pub fn number_line(format: Format, name: &[u8], number: u64) -> LineText
    requires { length name.now ≤ 20 }
    ensures text { result ≡ number_line format name.now number }
    ensures short { length result ≤ 300 }
{
    match format {
        Format::Text => LineText::numbered(name, number),
        Format::Json => number_object(name, number, &[]),
    }
}
