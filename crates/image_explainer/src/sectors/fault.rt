// The faults of an image's sectors, with their places.

/// What is wrong with the sectors of an image: the least of the reasons 1 to 7 that applies, and the
/// place.
#[derive(Clone, Copy)]
pub enum SectorFault {
    /// There are fewer sectors than the image needs.
    Small {
        sectors: u64,
        needed: u64,
    },
    /// Sector 0 isn't a superblock.
    Superblock(SuperblockPart),
    /// A field of the superblock is outside its limits.
    Geometry(GeometryPart),
    /// No header of versions 1 and 2 counts. The fields say why the header in each slot doesn't.
    NoHeader(NotCounted, NotCounted),
    /// No two headers of version 3 with consecutive numbers count. The fields say why the header in each slot is in no
    /// pair.
    NoPair(NotPaired, NotPaired, NotPaired),
    /// The committed header, in this sector, is malformed or lost.
    Header {
        sector: u64,
        part: HeaderPart,
    },
    /// The directory of the committed header, which begins in this sector, is malformed. In version 3 a sector that
    /// isn't one of entries is this sector.
    Directory {
        sector: u64,
        part: DirectoryPart,
    },
    /// The cluster or the page frame that an object begins isn't right as a whole. Version 3.
    Unit {
        number: u64,
        is_page: bool,
        part: UnitPart,
    },
    /// The clusters and pages don't add up to the header's root. Version 3.
    Root,
    /// The saved frame of an object is malformed.
    Frame {
        number: u64,
        is_page: bool,
        part: FramePart,
    },
}

/// Why sector 0 isn't a superblock.
#[derive(Clone, Copy)]
pub enum SuperblockPart {
    Magic,
    Version,
    /// A byte after the ranges, from byte 256 on, isn't 0.
    Tail,
    /// The seal is wrong. Version 3.
    Seal,
}

/// A field of a superblock that is outside its limits.
#[derive(Clone, Copy)]
pub enum GeometryPart {
    Nodes(u64),
    Pages(u64),
    Log(u64),
    Total(u64),
    /// The places of the home ranges or of the log. All numbers above are within their limits.
    Places,
}

/// Why a header doesn't count.
#[derive(Clone, Copy)]
pub enum NotCounted {
    /// The header's gate is closed.
    Closed,
    /// The header lies in the wrong slot for its sequence number.
    Misplaced(u64),
}

/// Why a header of version 3 is in no pair.
#[derive(Clone, Copy)]
pub enum NotPaired {
    /// The gate has no number.
    Unnumbered,
    /// The header isn't sealed, or isn't a header.
    Unsound,
    /// The header lies in the wrong slot for its sequence number.
    Misplaced(u64),
    /// The gate has another number than the header.
    Renumbered { sequence: u64, gate: u64 },
    /// The header counts, but neither the header before it nor the one after it does.
    Alone(u64),
}

/// What is wrong with the committed header.
#[derive(Clone, Copy)]
pub enum HeaderPart {
    /// There are more entries than a half of the log has slots.
    Entries { entries: u64, slots: u64 },
    Age(u64),
    /// The generation is greater than twice the age.
    Generation { generation: u64, age: u64 },
    /// The sequence number is greater than its limit at this age.
    Sequence { sequence: u64, age: u64 },
    /// The magic is wrong, or a byte that must be 0 isn't. Versions 1 and 2.
    Bytes,
    /// The gate has the number of a header that isn't there, after two that count. Version 3.
    Lost(u64),
}

/// What is wrong with a directory. Entries are numbered from 0. The first three are of version 3.
#[derive(Clone, Copy)]
pub enum DirectoryPart {
    /// The sector isn't sealed.
    Unsealed,
    /// A byte after the sector's entries isn't 0.
    Rest,
    /// The sectors have other sums than the header says.
    Sums,
    /// No object has the number of this entry.
    Object {
        entry: u64,
        object: u64,
    },
    /// The log has no slot with this entry's slot number.
    Slot {
        entry: u64,
        slot: u64,
    },
    /// The object number of this entry isn't above that of the entry before it.
    Order {
        entry: u64,
        object: u64,
        before: u64,
    },
    /// Two entries have the same slot.
    Shared {
        first: u64,
        second: u64,
        slot: u64,
    },
}

/// What is wrong with a cluster or a page frame of version 3.
#[derive(Clone, Copy)]
pub enum UnitPart {
    /// The cluster, or the header sector of the page, isn't sealed.
    Unsealed,
    /// A byte after the cluster's frames isn't 0, or the header sector of the page doesn't have the sums of its words.
    Rest,
}

/// What is wrong with a frame.
#[derive(Clone, Copy)]
pub enum FramePart {
    /// The allocation count is greater than the age.
    Allocations { count: u64, age: u64 },
    /// The call count is greater than the age.
    Calls { count: u64, age: u64 },
    /// The count of the capability in a slot is greater than the age.
    Count { slot: u64, count: u64, age: u64 },
    /// The bytes of this slot don't encode a capability that an image may hold.
    Slot(u64),
    /// The role, owner and body don't fit together, or a byte that must be 0 isn't.
    Body,
}
