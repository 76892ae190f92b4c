// The names of the members after the first in a JSON object.
ghost use Rattle.std.specs.Prelude.{◌≡◌, ◌≤◌, length};
ghost use Rattle.json_lines.specs.Objects.{key_text};

/// The name of a member of a JSON object, other than the first.
#[derive(Clone, Copy)]
pub enum Key {
    Age,
    Annex,
    CanChange,
    CanRead,
    Capability,
    Count,
    Entries,
    Limit,
    Number,
    Owner,
    Owns,
    Reason,
    Register,
    Slot,
    Space,
}

impl Key {
    /// Returns the name as text.
    pub fn name(self) -> &'static [u8]
        ensures name { result.now ≡ key_text self }
        ensures short { length result.now ≤ 10 }
    {
        match self {
            Key::Age => b"age",
            Key::Annex => b"annex",
            Key::CanChange => b"can_change",
            Key::CanRead => b"can_read",
            Key::Capability => b"capability",
            Key::Count => b"count",
            Key::Entries => b"entries",
            Key::Limit => b"limit",
            Key::Number => b"number",
            Key::Owner => b"owner",
            Key::Owns => b"owns",
            Key::Reason => b"reason",
            Key::Register => b"register",
            Key::Slot => b"slot",
            Key::Space => b"space",
        }
    }
}
