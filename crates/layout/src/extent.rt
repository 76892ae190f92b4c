// Ranges of objects and of sectors.
ghost use Rattle.std.specs.Prelude.{◌≡◌, ◌+◌, ◌*◌, ◌<◌, ◌≤◌, ◌++◌, ◌∷◌, ◌↔◌, [], length, map, IsTrue};
ghost use Rattle.std.specs.List.{All};
ghost use Rattle.layout.specs.Superblock.{nodes_length, range_extent, half_extent, IsWithin, MayBegin, IsApart};
ghost use Rattle.layout.specs.Superblock.{AreApart};
ghost use Rattle.layout.specs.Version.{aligned, directory_length};

use crate::version::Version;
use model::Geometry;

/// Consecutive numbers of objects whose frames lie one after the other.
#[derive(Clone, Copy, PartialEq, Eq)]
pub struct HomeRange {
    /// The first number.
    pub first: u64,
    /// How many numbers the range has.
    pub count: u64,
    /// The sector where the frame of the first number begins.
    pub sector: u64,
}

/// Consecutive sectors.
#[derive(Clone, Copy)]
pub struct Extent {
    pub sector: u64,
    /// How many sectors the extent has.
    pub length: u64,
}

// Returns how many sectors the frames of `count` nodes take.
fn nodes_length(version: Version, count: u64) -> u64
    requires { count ≤ 8192 }
    ensures { result ≡ nodes_length version count }
{
    let row = version.row();
    row.cluster_sectors * ((count + row.cluster_nodes - 1) / row.cluster_nodes)
}

/// Returns the sectors of a home range: 9 for each page; for nodes, the number depends on the version.
pub fn range_extent(version: Version, geometry: Geometry, range: HomeRange) -> Extent
    requires { range.count ≤ 8192 }
    ensures { result ≡ range_extent version geometry range }
{
    let length = if range.first < geometry.nodes {
        nodes_length(version, range.count)
    } else {
        9 * range.count
    };
    Extent {
        sector: range.sector,
        length,
    }
}

/// Returns how many sectors a directory of this number of entries takes.
#[tactic(auto, unfolding(crate::specs::Version::directory_length), using(crate::proofs::Versions::entries_lie))]
pub fn directory_length(version: Version, entries: u64) -> u64
    requires { entries ≤ 4096 }
    ensures value { result ≡ directory_length version entries }
    ensures few { result ≤ 137 }
    ensures holds { 16 * entries ≤ 512 * result }
{
    let in_sector = version.row().sector_entries;
    (entries + in_sector - 1) / in_sector
}

/// Returns the least multiple of the version's alignment that isn't below `sectors`.
pub fn aligned(version: Version, sectors: u64) -> u64
    requires { sectors ≤ 1048576 }
    ensures value { result ≡ aligned version sectors }
    ensures few { result ≤ sectors + 7 }
{
    let multiple = version.row().alignment;
    multiple * ((sectors + multiple - 1) / multiple)
}

/// Returns the sectors of a log half that begins at `sector`: 9 for each slot, then those of its directory.
#[tactic(auto, unfolding(crate::specs::Superblock::half_length))]
pub fn half_extent(version: Version, geometry: Geometry, sector: u64) -> Extent
    requires { geometry.log ≤ 4096 }
    ensures value { result ≡ half_extent version geometry sector }
    ensures few { result.length ≤ 37008 }
{
    let sectors = 9 * geometry.log + directory_length(version, geometry.log);
    Extent {
        sector,
        length: aligned(version, sectors),
    }
}

/// Fills `into` with the sectors of all ranges, then of both log halves.
#[tactic(auto, using(std::proofs::lemmas::List::take_all, crate::proofs::Extents::two_set))]
pub fn fill_extents(
    version: Version,
    geometry: Geometry,
    ranges: &[HomeRange],
    half_0: u64,
    half_1: u64,
    into: &mut [Extent],
)
    requires size { length into.old ≡ length ranges.now + 2 }
    requires log { geometry.log ≤ 4096 }
    requires counts { All (λ r. r.count ≤ 8192) ranges.now }
    ensures { into.new ≡ map (range_extent version geometry) ranges.now
        ++ half_extent version geometry half_0 ∷ half_extent version geometry half_1 ∷ [] }
{
    for (i, range) in ranges.iter().enumerate() {
        into[i] = range_extent(version, geometry, *range);
    }
    into[ranges.len()] = half_extent(version, geometry, half_0);
    into[ranges.len() + 1] = half_extent(version, geometry, half_1);
}

// Whether an extent lies after the headers of versions 1 and 2, and before sector `total`.
fn is_within(total: u64, extent: Extent) -> bool
    ensures { IsTrue result ↔ IsWithin total extent }
{
    extent.sector >= 5 && extent.length <= total && extent.sector <= total - extent.length
}

/// Whether all extents lie after the headers of versions 1 and 2, and before sector `total`.
pub fn are_within(total: u64, extents: &[Extent]) -> bool
    ensures { IsTrue result ↔ All (IsWithin total) extents.now }
{
    extents.iter().all(|extent| is_within(total, *extent))
}

// Whether a range or a log half of a version may begin where an extent begins.
fn may_begin(version: Version, extent: Extent) -> bool
    ensures { IsTrue result ↔ MayBegin version extent }
{
    let row = version.row();
    extent.sector >= row.first_home && extent.sector % row.alignment == 0
}

/// Whether ranges and log halves of a version may begin where the extents begin.
pub fn may_all_begin(version: Version, extents: &[Extent]) -> bool
    ensures { IsTrue result ↔ All (MayBegin version) extents.now }
{
    extents.iter().all(|extent| may_begin(version, *extent))
}

// Whether no sector is in both extents.
fn is_apart(extent: Extent, other: Extent) -> bool
    requires first { extent.sector + extent.length ≤ 131072 }
    requires second { other.sector + other.length ≤ 131072 }
    ensures { IsTrue result ↔ IsApart extent other }
{
    extent.sector + extent.length <= other.sector || other.sector + other.length <= extent.sector
}

// Whether no sector of an extent is in one of the others.
fn is_apart_from_all(extent: Extent, others: &[Extent]) -> bool
    requires first { extent.sector + extent.length ≤ 131072 }
    requires others { All (λ e. e.sector + e.length ≤ 131072) others.now }
    ensures { IsTrue result ↔ All (IsApart extent) others.now }
{
    for other in others {
        if !is_apart(extent, *other) {
            return false;
        }
    }
    true
}

/// Whether no sector is in two of the extents.
pub fn are_apart(extents: &[Extent]) -> bool
    requires { All (λ e. e.sector + e.length ≤ 131072) extents.now }
    ensures { IsTrue result ↔ AreApart extents.now }
{
    for (i, extent) in extents.iter().enumerate() {
        if !is_apart_from_all(*extent, &extents[i + 1..]) {
            return false;
        }
    }
    true
}
