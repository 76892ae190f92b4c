// The committed checkpoint.

/// The committed checkpoint's numbers, as answers report them.
#[derive(Clone, Copy)]
pub struct Checkpoint {
    pub generation: u64,
    pub age: u64,
    /// How many of its objects have their frames in the log.
    pub entries: u64,
}
