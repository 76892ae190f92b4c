// What a line of a script says.
use crate::command::Command;

/// What a line of a script says.
#[derive(Clone, Copy)]
pub enum Line {
    /// Nothing: the line is empty or a comment.
    Skip,
    /// The line doesn't follow the grammar.
    Bad,
    Command(Command),
}
