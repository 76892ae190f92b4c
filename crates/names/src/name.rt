// A name.
ghost use Rattle.std.specs.Prelude.{◌≡◌};
ghost use Rattle.std.specs.List.{list_all};
ghost use Rattle.names.specs.Table as table;

/// The number of an object, and the object's name.
#[derive(Drop)]
pub struct Name {
    pub number: u64,
    /// A letter, then letters, digits, `_` and `-`.
    pub text: String,
}

// Whether a byte may occur in a name.
fn is_name_byte(byte: u8) -> bool
    ensures { result ≡ table.is_name_byte byte }
{
    byte.is_ascii_alphanumeric() || byte == b'_' || byte == b'-'
}

// Whether all bytes may occur in a name.
fn are_name_bytes(bytes: &[u8]) -> bool
    ensures { result ≡ list_all table.is_name_byte bytes.now }
{
    bytes.iter().all(|byte| is_name_byte(*byte))
}

/// Whether a text is a name: a letter, then letters, digits, `_` and `-`.
pub fn is_name(text: &[u8]) -> bool
    ensures { result ≡ table.is_name text.now }
{
    match text {
        [first, rest @ ..] => first.is_ascii_alphabetic() && are_name_bytes(rest),
        [] => false,
    }
}
