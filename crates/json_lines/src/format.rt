// The formats in which answers are written.

/// The format in which a command writes its answers.
#[derive(Clone, Copy)]
pub enum Format {
    /// Lines for people to read.
    Text,
    /// JSON Lines: one JSON object in each line.
    Json,
}
