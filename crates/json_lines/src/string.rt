// JSON objects with a string of any characters.
ghost use Rattle.std.specs.Prelude.{◌≡◌, ◌++◌, ◌≤◌, ◌<◌, IfOk, OnOk};
ghost use Rattle.json_lines.specs.Strings.{escaped, hex_digit, string_object};

use std::alloc::{AllocError, Global};

// Returns the hexadecimal digit for a number below 16.
fn hex_digit(digit: u8) -> u8
    requires { digit < 16 }
    ensures { result ≡ hex_digit digit }
{
    if digit < 10 {
        b'0' + digit
    } else {
        b'a' + (digit - 10)
    }
}

// Appends a byte of a text, escaped for a JSON string.
fn push_escaped(byte: u8, object: &mut Vec<u8>) -> Result<(), AllocError>
    ensures { OnOk result (object.new.items ≡ object.old.items ++ escaped byte) }
{
    match byte {
        b'"' => object.extend_from_slice(b"\\\""),
        b'\\' => object.extend_from_slice(b"\\\\"),
        0..=31 => object.extend_from_slice(&[
            b'\\',
            b'u',
            b'0',
            b'0',
            hex_digit(byte / 16),
            hex_digit(byte % 16),
        ]),
        _ => object.extend_from_slice(&[byte]),
    }
}

/// Returns the object whose only member is this UTF-8 string. Fails only if memory runs out.
#[tactic(auto, using(crate::proofs::Rests::rest_more, crate::proofs::Rests::rest_all), unfolding(crate::specs::Strings::string_object))]
pub fn string_object(alloc: Global, name: &[u8], text: &[u8]) -> Result<Vec<u8>, AllocError>
    ensures { IfOk result (λ object. object.items ≡ string_object name.now text.now) }
{
    let mut object = Vec::from_slice(alloc, b"{\"")?;
    object.extend_from_slice(name)?;
    object.extend_from_slice(b"\": \"")?;
    for byte in text {
        push_escaped(*byte, &mut object)?;
    }
    object.extend_from_slice(b"\"}")?;
    Ok(object)
}
