// How a shell reads a line.
ghost use Rattle.std.specs.Prelude.{◌≡◌, ◌&&◌, ◌+◌, ◌≤◌, ◌∷◌, [], ◌++◌, ◌==◌, ◌<◌, IfSome, if◌then◌else◌, length, nat_lt, true};
ghost use Rattle.std.specs.List.{position};
ghost use Rattle.shell.specs.Lines.{before_comment, read_as, words_in};
ghost use Rattle.shell.specs.Lines as lines;
ghost use Rattle.model.specs.Text.{spaced};

use arrayvec::ArrayVec;

/// How many bytes of a line are kept. A line of more than 256 is bad, so 257 are enough.
pub(crate) const MOST: usize = 257;

fn is_blank(byte: u8) -> bool
    ensures { result ≡ lines.is_blank byte }
{
    byte == b' ' || byte == b'\t'
}

// Returns the index of the first `#`, or `None`.
fn first_hash(bytes: &[u8]) -> Option<usize>
    ensures found { result ≡ position (λ b. b == 35) bytes.now }
    ensures within { IfSome result (λ place. place < length bytes.now) }
{
    bytes.iter().position(|byte| *byte == b'#')
}

// Returns the part of a line before its comment.
fn without_comment(line: &[u8]) -> &[u8]
    ensures before { result.now ≡ before_comment line.now }
    ensures short { length result.now ≤ length line.now }
{
    let end = first_hash(line).unwrap_or(line.len());
    &line[..end]
}

// Appends a byte of a word. If `is_apart` and there are words, appends a space first.
fn add(words: &mut ArrayVec<u8, MOST>, is_apart: bool, byte: u8)
    requires room { length words.old.items + 1 ≤ 257 }
    requires apart { is_apart ≡ true → length words.old.items + 2 ≤ 257 }
    ensures { words.new.items ≡ (if is_apart && nat_lt 0 (length words.old.items) then words.old.items ++ 32 ∷ []
        else words.old.items) ++ byte ∷ [] }
{
    if is_apart && !words.is_empty() {
        words.push(b' ');
    }
    words.push(byte);
}

// Returns the words of a text, with one space between them.
#[tactic(auto, using(crate::proofs::Words::blank_read, crate::proofs::Words::byte_added))]
fn spaced_words(text: &[u8]) -> ArrayVec<u8, MOST>
    requires { length text.now ≤ 257 }
    ensures words { result.items ≡ spaced (words_in text.now) }
    ensures short { length result.items ≤ length text.now }
{
    let mut words = ArrayVec::new();
    let mut is_apart = false;
    for byte in text {
        if is_blank(*byte) {
            is_apart = true;
        } else {
            add(&mut words, is_apart, *byte);
            is_apart = false;
        }
    }
    words
}

/// Returns a line without its comment, and with one space between words. The line has at most 257 bytes. One of
/// 257 bytes is returned unchanged: it is too long, so it is bad anyway.
#[tactic(auto, using(crate::proofs::ShellLines::read_short, crate::proofs::ShellLines::read_whole))]
pub(crate) fn reading_of(line: &[u8]) -> ArrayVec<u8, MOST>
    requires { length line.now ≤ 257 }
    ensures read { result.items ≡ read_as line.now }
    ensures short { length result.items ≤ length line.now }
{
    if line.len() < MOST {
        return spaced_words(without_comment(line));
    }
    let mut whole = ArrayVec::new();
    let _room = whole.try_extend_from_slice(line);
    whole
}
