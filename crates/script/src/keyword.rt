// The first words of commands.
ghost use Rattle.std.specs.Prelude.{◌≡◌, ◌≢◌, ◌+◌, ◌*◌, ◌<◌, ◌≤◌, ◌∷◌, IfSome, IfNone, IsTrue, codes, length, drop};
ghost use Rattle.std.specs.Prelude.{false, slice_index_or};
ghost use Rattle.model.specs.Text.{operation_name};
ghost use Rattle.model.specs.declared.command.Operation.{Operation};
ghost use Rattle.script.specs.declared.keyword.Keyword.{Keyword};
ghost use Rattle.script.specs.Keywords.{BeginsWith, command_name, keyword_name};
ghost use Rattle.script.specs.Reading.{words_of};

use model::{Command, Operation};

// The first four bytes of `load`, `store`, `call`, `send` and `return`.
const LOAD: u64 = 0x6461_6f6c;

const STORE: u64 = 0x726f_7473;

const CALL: u64 = 0x6c6c_6163;

const SEND: u64 = 0x646e_6573;

const RETURN: u64 = 0x7574_6572;

// The length of the shortest line with an invocation.
const SHORTEST_INVOCATION: usize = 24;

/// The meaning of a command's first word.
#[derive(Clone, Copy)]
pub enum Keyword {
    Invoke(Operation),
    Load,
    Store,
    Show,
    Evict,
    Checkpoint,
    Stabilize,
    Commit,
    Migrate,
    Journal,
    Restart,
    Cut,
}

impl Keyword {
    // All keywords. Those that `Words::common_keyword` doesn't find come first.
    const ALL: [Keyword; 14] = [
        Keyword::Show,
        Keyword::Journal,
        Keyword::Evict,
        Keyword::Checkpoint,
        Keyword::Stabilize,
        Keyword::Commit,
        Keyword::Migrate,
        Keyword::Restart,
        Keyword::Cut,
        Keyword::Load,
        Keyword::Store,
        Keyword::Invoke(Operation::Call),
        Keyword::Invoke(Operation::Return),
        Keyword::Invoke(Operation::Send),
    ];

    // Returns the word for the keyword.
    fn name(self) -> &'static [u8]
        ensures { result.now ≡ keyword_name self }
    {
        match self {
            Keyword::Invoke(operation) => operation_word(operation),
            Keyword::Load => b"load",
            Keyword::Store => b"store",
            Keyword::Show => b"show",
            Keyword::Evict => b"evict",
            Keyword::Checkpoint => b"checkpoint",
            Keyword::Stabilize => b"stabilize",
            Keyword::Commit => b"commit",
            Keyword::Migrate => b"migrate",
            Keyword::Journal => b"journal",
            Keyword::Restart => b"restart",
            Keyword::Cut => b"cut",
        }
    }
}

/// Returns the first word of the command's line.
#[tactic(auto, unfolding(model::specs::Text::command_words))]
pub fn command_word(command: &Command) -> &'static [u8]
    ensures word { result.now ≡ command_name command.now }
    ensures short { length result.now ≤ 10 }
{
    match command {
        Command::Invoke(invocation) => operation_word(invocation.operation),
        Command::Load { .. } => b"load",
        Command::Store { .. } => b"store",
        Command::Show { .. } => b"show",
        Command::Evict { .. } => b"evict",
        Command::Checkpoint => b"checkpoint",
        Command::Stabilize { .. } => b"stabilize",
        Command::Commit => b"commit",
        Command::Migrate { .. } => b"migrate",
        Command::Journal { .. } => b"journal",
        Command::Restart => b"restart",
        Command::Cut => b"cut",
    }
}

// Returns the word for an operation.
fn operation_word(operation: Operation) -> &'static [u8]
    ensures { result.now ≡ operation_name operation }
{
    match operation {
        Operation::Call => b"call",
        Operation::Return => b"return",
        Operation::Send => b"send",
    }
}

/// Returns the keyword for a word, or `None`.
#[inline(never)]
pub fn keyword_of(word: &[u8]) -> Option<Keyword>
    ensures found { IfSome result (λ k. word.now ≡ keyword_name k) }
    ensures none { IfNone result ((k : Keyword) → word.now ≢ keyword_name k) }
{
    for keyword in Keyword::ALL {
        if keyword.name() == word {
            return Some(keyword);
        }
    }
    None
}

/// Returns four bytes of a text, from index `at` on, as one little-endian number.
#[inline(always)]
pub fn four_at(text: &[u8], at: usize) -> u64
    requires { at + 3 < length text.now }
    ensures { result ≡ slice_index_or text.now at 0 + slice_index_or text.now (at + 1) 0 * 256
        + slice_index_or text.now (at + 2) 0 * 65536 + slice_index_or text.now (at + 3) 0 * 16777216 }
{
    u64::from(text[at])
        + u64::from(text[at + 1]) * 0x100
        + u64::from(text[at + 2]) * 0x1_0000
        + u64::from(text[at + 3]) * 0x100_0000
}

/// Whether a line begins with `load `, and is long enough for two numbers after it.
#[inline(always)]
#[tactic(auto, using(crate::proofs::CommonWords::load_bytes))]
pub fn is_load(line: &[u8]) -> bool
    ensures named { IsTrue result → (words_of line.now ≡ codes "load" ∷ words_of (drop 5 line.now)) }
    ensures room { IsTrue result → 7 < length line.now }
    ensures none { result ≡ false → BeginsWith (codes "load") 3 line.now → ⊥ }
{
    line.len() >= 8 && four_at(line, 0) == LOAD && line[4] == b' '
}

/// Whether a line begins with `store `, and is long enough for three numbers after it.
#[inline(always)]
#[tactic(auto, using(crate::proofs::CommonWords::store_bytes))]
pub fn is_store(line: &[u8]) -> bool
    ensures named { IsTrue result → (words_of line.now ≡ codes "store" ∷ words_of (drop 6 line.now)) }
    ensures room { IsTrue result → 10 < length line.now }
    ensures none { result ≡ false → BeginsWith (codes "store") 5 line.now → ⊥ }
{
    line.len() >= 11 && four_at(line, 0) == STORE && line[4] == b'e' && line[5] == b' '
}

/// The operation that a line begins with, and the index at which the words after it begin.
#[derive(Clone, Copy)]
pub struct Named {
    pub operation: Operation,
    pub next: usize,
}

/// Returns the operation that a line begins with. Returns `None` if there is none, or if the line is too short
/// for ten numbers after it.
#[inline(always)]
#[tactic(auto, using(crate::proofs::CommonWords::operation_bytes))]
pub fn operation_in(line: &[u8]) -> Option<Named>
    ensures reads { IfSome result (λ n. words_of line.now
        ≡ operation_name n.operation ∷ words_of (drop n.next line.now)) }
    ensures room { IfSome result (λ n. n.next + 18 < length line.now) }
    ensures none { IfNone result ((o : Operation) → BeginsWith (operation_name o) 19 line.now → ⊥) }
{
    if line.len() < SHORTEST_INVOCATION {
        return None;
    }
    let name = four_at(line, 0);
    if name == CALL && line[4] == b' ' {
        return Some(Named {
            operation: Operation::Call,
            next: 5,
        });
    }
    if name == SEND && line[4] == b' ' {
        return Some(Named {
            operation: Operation::Send,
            next: 5,
        });
    }
    if name == RETURN && line[4] == b'r' && line[5] == b'n' && line[6] == b' ' && line.len() > 25 {
        return Some(Named {
            operation: Operation::Return,
            next: 7,
        });
    }
    None
}
