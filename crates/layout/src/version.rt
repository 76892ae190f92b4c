// The versions of the layout, and the numbers in which they differ.
ghost use Rattle.std.specs.Prelude.{◌≡◌, ◌<◌, ◌≤◌, IfSome, IfNone};
ghost use Rattle.layout.specs.Version.{row};
ghost use Rattle.layout.specs.Superblock.{version_number};

/// A version of the layout.
#[derive(Clone, Copy)]
pub enum Version {
    One,
    Two,
    /// The version with seals.
    Three,
}

/// The numbers of a version. In each version the frames of nodes lie in clusters.
#[derive(Clone, Copy)]
pub struct Row {
    /// The number for the version in a superblock.
    pub number: u64,
    /// The distance, in sectors, from one opening structure (superblock, header or gate) to the next.
    pub opening_step: u64,
    /// How many header slots there are.
    pub header_slots: u64,
    /// The first sector after the opening structures.
    pub first_home: u64,
    /// Home ranges and log halves begin at multiples of this.
    pub alignment: u64,
    /// How many sectors a cluster takes.
    pub cluster_sectors: u64,
    /// How many nodes have their frames in a cluster.
    pub cluster_nodes: u64,
    /// How many bytes the frame of a node takes, without the zeros at its end.
    pub node_bytes: u64,
    /// How many entries a sector of a directory has.
    pub sector_entries: u64,
    /// The sequence number of the first header. In this version the limit of sequence numbers is higher by this number
    /// than in version 1.
    pub first_sequence: u64,
    /// Whether all structures are sealed.
    pub sealed: bool,
}

impl Version {
    /// The version that `upgrade` writes.
    pub const NEWEST: Version = Version::Two;

    /// Returns the numbers of this version.
    pub fn row(self) -> Row
        ensures value { result ≡ row self }
        ensures sectors { result.cluster_sectors ≤ 8 }
        ensures some { 0 < result.cluster_nodes }
        ensures nodes { result.cluster_nodes ≤ 5 }
        ensures bytes { result.node_bytes ≤ 1024 }
        ensures aligned { (0 < result.alignment) × (result.alignment ≤ 8) }
        ensures entries { (0 < result.sector_entries) × (result.sector_entries ≤ 32) }
    {
        match self {
            Version::One => Row {
                number: 1,
                opening_step: 1,
                header_slots: 2,
                first_home: 5,
                alignment: 1,
                cluster_sectors: 2,
                cluster_nodes: 1,
                node_bytes: 1024,
                sector_entries: 32,
                first_sequence: 0,
                sealed: false,
            },
            Version::Two => Row {
                number: 2,
                opening_step: 1,
                header_slots: 2,
                first_home: 5,
                alignment: 1,
                cluster_sectors: 8,
                cluster_nodes: 5,
                node_bytes: 800,
                sector_entries: 32,
                first_sequence: 0,
                sealed: false,
            },
            Version::Three => Row {
                number: 3,
                opening_step: 8,
                header_slots: 3,
                first_home: 56,
                alignment: 8,
                cluster_sectors: 8,
                cluster_nodes: 5,
                node_bytes: 800,
                sector_entries: 30,
                first_sequence: 2,
                sealed: true,
            },
        }
    }

    /// Returns the number for this version in a superblock: 1 to 3.
    pub fn number(self) -> u64
        ensures value { result ≡ version_number self }
        ensures most { result ≤ 3 }
    {
        self.row().number
    }

    /// Returns the version with a number, or `None` if no version has it.
    pub fn with_number(number: u64) -> Option<Version>
        ensures some { IfSome result (λ v. number ≡ version_number v) }
        ensures none { IfNone result ((v : Version) → number ≡ version_number v → ⊥) }
    {
        match number {
            1 => Some(Version::One),
            2 => Some(Version::Two),
            3 => Some(Version::Three),
            _ => None,
        }
    }
}
