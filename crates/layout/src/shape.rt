// Where frames lie in their blocks.

/// Where the frame of an object lies in its block. A block is a run of sectors: a cluster, or the frame
/// of a page alone.
#[derive(Clone, Copy)]
pub struct Shape {
    /// How many sectors the block takes.
    pub sectors: u64,
    /// The byte of the block where the frame begins.
    pub offset: u64,
    /// How many bytes the frame takes, without the zeros at the end of a node's frame.
    pub bytes: u64,
    /// Whether the first sector has sums and a seal from byte 32 on.
    pub has_sums: bool,
}
