// Parsing a line of a script.
ghost use Rattle.std.specs.Prelude.{◌≡◌, ◌≢◌, ℕ, List, ◌∷◌, IsTrue, ◌↔◌, IfSome, IfNone};
ghost use Rattle.script.specs.declared.keyword.Keyword.{Keyword};
ghost use Rattle.script.specs.Keywords.{keyword_name};
ghost use Rattle.model.specs.declared.command.Command.{Command};
ghost use Rattle.model.specs.Text.{Says, Fits, IsSkipped, spelling, command_words};
ghost use Rattle.script.specs.Reading.{Gives, invocation_at, arguments_at, words_of};

use crate::keyword::{Keyword, keyword_of};
use crate::loads::{load_in, store_in};
use crate::short::{last_registers, order_in};
use crate::words::Words;
use model::{Command, Invocation, Line, Operation};

/// The most bytes of a line. A longer one is bad.
pub const LONGEST_LINE: usize = 256;

// Takes the first word, and returns its keyword.
#[inline(always)]
fn keyword(words: &mut Words<'_>) -> Option<Keyword>
    ensures found { IfSome result (λ k. words.old ≡ keyword_name k ∷ words.new) }
    ensures none { IfNone result ((k : Keyword) (rest : List (List ℕ)) → words.old ≢ keyword_name k ∷ rest) }
{
    if let Some(keyword) = words.common_keyword() {
        return Some(keyword);
    }
    keyword_of(words.next()?)
}

// Takes the words that follow the name of an operation, and returns the command.
#[tactic(auto, unfolding(crate::specs::Reading::invocation_at))]
fn invocation(operation: Operation, words: &mut Words<'_>) -> Option<Command>
    ensures { Gives result words.new (invocation_at operation words.old) }
{
    Some(Command::Invoke(Invocation {
        operation,
        process: words.number()?,
        register: words.register()?,
        words: words.numbers()?,
        sent: words.registers()?,
    }))
}

// Takes the words that follow a keyword, and returns the command.
#[tactic(auto, unfolding(crate::specs::Reading::arguments_at))]
fn arguments(keyword: Keyword, words: &mut Words<'_>) -> Option<Command>
    ensures { Gives result words.new (arguments_at keyword words.old) }
{
    match keyword {
        Keyword::Invoke(operation) => invocation(operation, words),
        Keyword::Load => Some(Command::Load {
            process: words.number()?,
            address: words.number()?,
        }),
        Keyword::Store => Some(Command::Store {
            process: words.number()?,
            address: words.number()?,
            value: words.number()?,
        }),
        Keyword::Show => Some(Command::Show {
            number: words.number()?,
        }),
        Keyword::Evict => Some(Command::Evict {
            number: words.number()?,
        }),
        Keyword::Checkpoint => Some(Command::Checkpoint),
        Keyword::Stabilize => Some(Command::Stabilize {
            count: words.number()?,
        }),
        Keyword::Commit => Some(Command::Commit),
        Keyword::Migrate => Some(Command::Migrate {
            count: words.number()?,
        }),
        Keyword::Journal => Some(Command::Journal {
            number: words.number()?,
        }),
        Keyword::Restart => Some(Command::Restart),
        Keyword::Cut => Some(Command::Cut),
    }
}

// Whether a line is skipped: it is empty or a comment.
fn is_skipped(line: &[u8]) -> bool
    ensures { IsTrue result ↔ IsSkipped line.now }
{
    matches!(line, [] | [b'#', ..])
}

// Returns the command in a line, or `None`.
#[tactic(auto, using(crate::proofs::Commands::no_keyword))]
fn command_in(line: &[u8]) -> Option<Command>
    ensures found { IfSome result (λ c. Fits c × (words_of line.now ≡ command_words c)) }
    ensures none { IfNone result ((c : Command) → Fits c → words_of line.now ≢ command_words c) }
{
    let mut words = Words::new(line);
    let keyword = keyword(&mut words)?;
    let command = arguments(keyword, &mut words)?;
    if words.is_empty() {
        Some(command)
    } else {
        None
    }
}

// Parses any line. The fast parsers come first, and handle most invocations, loads and stores.
#[tactic(auto, using(crate::proofs::Spellings::spelling_said, crate::proofs::Spellings::says_said))]
#[inline(never)]
fn other_line(line: &[u8]) -> Line
    ensures says { Says line.now result }
    ensures reads { (c : Command) → Fits c → line.now ≡ spelling c → result ≡ Line.Command c }
{
    if line.len() > LONGEST_LINE {
        return Line::Bad;
    }
    if is_skipped(line) {
        return Line::Skip;
    }
    match command_in(line) {
        Some(command) => Line::Command(command),
        None => Line::Bad,
    }
}

/// Parses a line of a script: the bytes before a newline. It takes no memory.
///
/// An empty line, or one that begins with `#`, is skipped. Any other line is a command if it is the command's only
/// spelling: words with one space between them, numbers in decimal without leading zeros and below 2^64, registers
/// below 32. Every other line is bad, and so is one of more than 256 bytes.
#[inline(never)]
pub fn parse_line(line: &[u8]) -> Line
    ensures says { Says line.now result }
    // The line of each command is parsed as that command.
    ensures reads { (c : Command) → Fits c → line.now ≡ spelling c → result ≡ Line.Command c }
{
    if let Some(load) = load_in(line) {
        return Line::Command(Command::Load {
            process: load.process,
            address: load.address,
        });
    }
    if let Some(store) = store_in(line) {
        return Line::Command(Command::Store {
            process: store.process,
            address: store.address,
            value: store.value,
        });
    }
    if let Some(order) = order_in(line) {
        if let Some(sent) = last_registers(line, order.next) {
            let words = order.words;
            return Line::Command(Command::Invoke(Invocation {
                operation: order.operation,
                process: order.process,
                register: order.register,
                words,
                sent,
            }));
        }
    }
    // As a variable, this result lets the compiler build the others directly in the caller's memory.
    let other = other_line(line);
    other
}
