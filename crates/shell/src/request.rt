// The lines that a shell answers itself.
ghost use Rattle.std.specs.Prelude.{◌≡◌};
ghost use Rattle.shell.specs.Lines.{IsRequest};
ghost use Rattle.shell.specs.Lines as lines;

/// What a line asks the shell to do.
pub(crate) enum Request<'a> {
    /// Pass the line to the machine.
    Pass,
    /// Write the help about a word; if the word is empty, about all commands.
    Help(&'a [u8]),
    /// List all objects.
    List,
    /// Answer a question about what is saved, or copy it.
    Inspect,
    /// Save the present state.
    Save,
    /// End the shell.
    Quit,
}

// Whether a text is empty or begins with a space.
fn ends_word(rest: &[u8]) -> bool
    ensures { result ≡ lines.ends_word rest.now }
{
    match rest {
        [first, ..] => *first == b' ',
        [] => true,
    }
}

// Whether this is the first word of a line.
fn is_first(word: &[u8], line: &[u8]) -> bool
    ensures { result ≡ lines.is_first word.now line.now }
{
    line.starts_with(word) && ends_word(&line[word.len()..])
}

// Whether a line asks about what is saved.
fn is_question(line: &[u8]) -> bool
    ensures { result ≡ lines.is_question line.now }
{
    is_first(b"reach", line)
        || is_first(b"describe", line)
        || is_first(b"draw", line)
        || is_first(b"info", line)
        || is_first(b"copy", line)
}

/// Returns what a line asks the shell to do.
pub(crate) fn request_of(line: &[u8]) -> Request<'_>
    ensures { IsRequest line.now result }
{
    if line == b"quit".as_slice() || line == b"exit".as_slice() {
        Request::Quit
    } else if line == b"list".as_slice() {
        Request::List
    } else if line == b"save".as_slice() {
        Request::Save
    } else if line == b"help".as_slice() {
        Request::Help(&[])
    } else if line.starts_with(b"help ".as_slice()) {
        Request::Help(&line[5..])
    } else if is_question(line) {
        Request::Inspect
    } else {
        Request::Pass
    }
}
