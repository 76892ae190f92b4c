// The superblock: how many objects a device holds, and where its parts lie.
ghost use Rattle.std.specs.Prelude.{◌≡◌, ◌+◌, ◌*◌, ◌-◌, ◌<◌, ◌≤◌, ◌++◌, ◌↔◌, length, take, drop, IsTrue, IfOk, IfErr};
ghost use Rattle.std.specs.Prelude.{IfSome, IfNone, codes};
ghost use Rattle.std.specs.List.{All};
ghost use Rattle.layout.specs.Bytes.{half_number, zeros};
ghost use Rattle.layout.specs.Homes.{range_with, rank_in, shape_of};
ghost use Rattle.layout.specs.Shape.{IsShapeFor};
ghost use Rattle.layout.specs.Superblock.{Plan, version_number, superblock_bytes, superblock_front, ranges_bytes, unused};
ghost use Rattle.layout.specs.Superblock.{HasEnd, HasMark};
ghost use Rattle.layout.specs.Superblock.{IsGeometry, IsNext, Cover, extents, IsPlan, IsPlanRefused, RangeFits};
ghost use Rattle.layout.specs.Superblock.{plan_of};
ghost use Rattle.layout.specs.Superblock.{half_start};
ghost use Rattle.layout.specs.Version.{row};

use crate::bad_image::BadImage;
use crate::bytes::{blank, is_blank_between, is_blank_from, number_at, put_number};
use crate::directory::MAX_LOG;
use crate::extent::{Extent, HomeRange, are_apart, are_within, fill_extents, may_all_begin};
use crate::half::Half;
use crate::homes::range_with;
use crate::sealed::SEAL_AT;
use crate::shape::Shape;
use crate::version::Version;
use device::MAX_SECTORS;
use model::Geometry;
use seal::{is_sealed, seal};
use std::marker::Model;

/// The least number of nodes.
pub const MIN_NODES: u64 = 16;

/// The greatest number of nodes.
pub const MAX_NODES: u64 = 4096;

/// The greatest number of pages. The least is 1.
pub const MAX_PAGES: u64 = 4096;

/// The least number of slots in a half of the log.
pub const MIN_LOG: u64 = 16;

/// The greatest number of home ranges.
pub const MAX_RANGES: usize = 8;

// The bytes of EROSCKPT as a number.
const SUPERBLOCK_MAGIC: u64 = 0x5450_4b43_534f_5245;

// How many bytes a home range takes.
const RANGE_BYTES: usize = 24;

// Where the home ranges begin in the sector.
const RANGES_AT: usize = 64;

// Where the zeros after the home ranges begin.
const RANGES_END: usize = 256;

// A range that is not used.
const UNUSED: HomeRange = HomeRange {
    first: 0,
    count: 0,
    sector: 0,
};

// Whether the numbers of nodes, pages and log slots are within their limits.
fn is_geometry(geometry: Geometry) -> bool
    ensures { IsTrue result ↔ IsGeometry geometry }
{
    let nodes = geometry.nodes >= MIN_NODES && geometry.nodes <= MAX_NODES;
    let pages = geometry.pages >= 1 && geometry.pages <= MAX_PAGES;
    let log = geometry.log >= MIN_LOG && geometry.log <= MAX_LOG as u64;
    nodes && pages && log
}

// Whether a range begins at number `next`, is not empty, and has only nodes or only pages.
fn is_next(geometry: Geometry, range: HomeRange, next: u64) -> bool
    requires { geometry.nodes + geometry.pages ≤ 8192 }
    ensures { IsTrue result ↔ IsNext geometry range next }
{
    let is_of_one_kind = range.first >= geometry.nodes
        || range.count <= geometry.nodes - range.first;
    range.first == next && range.count > 0 && is_of_one_kind
}

// Whether the ranges together have the numbers of all objects once, in rising order.
#[tactic(auto, using(crate::proofs::Extents::not_covered))]
fn do_cover(geometry: Geometry, ranges: &[HomeRange]) -> bool
    requires { IsGeometry geometry }
    ensures { IsTrue result ↔ Cover geometry 0 ranges.now }
{
    let end = geometry.nodes + geometry.pages;
    let mut next = 0;
    for range in ranges {
        if !is_next(geometry, *range, next) || range.count > end - next {
            return false;
        }
        next += range.count;
    }
    next == end
}

// Whether a superblock may have these parts, as `Superblock::new` takes them.
#[tactic(auto, using(crate::proofs::Extents::ranges_within))]
fn is_plan(
    version: Version,
    geometry: Geometry,
    ranges: &[HomeRange],
    half_0: u64,
    half_1: u64,
    total: u64,
) -> bool
    ensures { IsTrue result ↔ IsPlan (plan_of version geometry ranges.now half_0 half_1 total) }
{
    if !is_geometry(geometry) || ranges.is_empty() || ranges.len() > MAX_RANGES {
        return false;
    }
    if total > MAX_SECTORS || !do_cover(geometry, ranges) {
        return false;
    }
    let mut extents = [Extent {
        sector: 0,
        length: 0,
    }; 10];
    let used = &mut extents[..ranges.len() + 2];
    fill_extents(version, geometry, ranges, half_0, half_1, used);
    are_within(total, used) && may_all_begin(version, used) && are_apart(used)
}

/// How many objects a device holds, and where its parts lie. Each superblock is within the limits of the format: its
/// ranges cover all objects, and no sector belongs to two of its ranges and log halves.
#[derive(Drop)]
pub struct Superblock {
    version: Version,
    geometry: Geometry,
    ranges: [HomeRange; MAX_RANGES],
    used: usize,
    half_0: u64,
    half_1: u64,
    total: u64,
}

impl Model for Superblock {
    ghost use Rattle.std.specs.Prelude.{◌≡◌, ◌≤◌, ◌-◌, take};
    ghost use Rattle.layout.specs.Superblock.{Plan, plan_of, IsPlan, unused};

    ghost Value = { Plan };

    ghost view = { λ s. plan_of s.version s.geometry (take s.used s.ranges) s.half_0 s.half_1 s.total };

    ghost invariant = { λ s. (s.used ≤ 8)
        × IsPlan (plan_of s.version s.geometry (take s.used s.ranges) s.half_0 s.half_1 s.total) };
}

impl Superblock {
    /// Returns the superblock with these parts, or `None` exactly if they are outside the limits. `half_0` and
    /// `half_1` are the first sectors of the log halves, and `total` is how many sectors the image takes.
    pub fn new(
        version: Version,
        geometry: Geometry,
        ranges: &[HomeRange],
        half_0: u64,
        half_1: u64,
        total: u64,
    ) -> Option<Self>
        ensures some { IfSome result (λ s. s ≡ plan_of version geometry ranges.now half_0 half_1 total) }
        ensures fits { IfSome result (λ s. IsPlan s) }
        ensures none { IfNone result
            (IsPlan (plan_of version geometry ranges.now half_0 half_1 total) → ⊥) }
    {
        if !is_plan(version, geometry, ranges, half_0, half_1, total) {
            return None;
        }
        let mut held = [UNUSED; MAX_RANGES];
        let used = ranges.len();
        held[..used].copy_from_slice(ranges);
        Some(Superblock {
            version,
            geometry,
            ranges: held,
            used,
            half_0,
            half_1,
            total,
        })
    }

    /// Returns a copy.
    pub fn copy(&self) -> Self
        ensures { result ≡ self.now }
    {
        Superblock {
            version: self.version,
            geometry: self.geometry,
            ranges: self.ranges,
            used: self.used,
            half_0: self.half_0,
            half_1: self.half_1,
            total: self.total,
        }
    }

    /// Returns the version of the layout.
    pub fn version(&self) -> Version
        ensures value { result ≡ self.now.version }
        ensures fits { IsPlan self.now }
    {
        self.version
    }

    /// Returns how many nodes, pages and log slots there are.
    pub fn geometry(&self) -> Geometry
        ensures value { result ≡ self.now.geometry }
        ensures fits { IsPlan self.now }
    {
        self.geometry
    }

    /// Returns the home ranges, in the order of their numbers.
    pub fn ranges(&self) -> &[HomeRange]
        ensures value { result.now ≡ self.now.ranges }
        ensures fits { IsPlan self.now }
    {
        &self.ranges[..self.used]
    }

    /// Returns the range that has a number, or `None` if none has it.
    pub fn range_with(&self, number: u64) -> Option<HomeRange>
        ensures value { result ≡ range_with self.now.ranges number }
        ensures has { IfSome result (λ r. (r.first ≤ number) × (number < r.first + r.count)) }
        ensures fits { IsPlan self.now }
    {
        range_with(self.ranges(), number)
    }

    // Returns the rank of a node in its cluster.
    fn rank(&self, number: u64) -> u64
        ensures value { result ≡ rank_in self.now.version (range_with self.now.ranges number) number }
        ensures below { result < (row self.now.version).cluster_nodes }
    {
        let row = self.version.row();
        match self.range_with(number) {
            Some(range) => (number - range.first) % row.cluster_nodes,
            None => 0,
        }
    }

    /// Returns where the frame of an object lies in its block. It is the same at home and in the log.
    pub fn shape(&self, number: u64) -> Shape
        ensures value { result ≡ shape_of self.now number }
        ensures fits { IsShapeFor self.now.geometry number result }
        ensures plan { IsPlan self.now }
    {
        let row = self.version.row();
        if number >= self.geometry.nodes {
            return Shape {
                sectors: 9,
                offset: 0,
                bytes: 4608,
                has_sums: row.sealed,
            };
        }
        Shape {
            sectors: row.cluster_sectors,
            offset: row.node_bytes * self.rank(number),
            bytes: row.node_bytes,
            has_sums: false,
        }
    }

    /// Returns the first sector of a half of the log.
    pub fn half(&self, half: Half) -> u64
        ensures value { result ≡ half_start self.now half }
        ensures fits { IsPlan self.now }
    {
        match half {
            Half::First => self.half_0,
            Half::Second => self.half_1,
        }
    }

    /// Returns how many sectors the image takes.
    pub fn total(&self) -> u64
        ensures value { result ≡ self.now.total }
        ensures fits { IsPlan self.now }
    {
        self.total
    }
}

// Fills `into` with the ranges in the bytes, 24 bytes for each, and doesn't check them.
fn read_ranges(bytes: &[u8], into: &mut [HomeRange])
    requires { length bytes.now ≡ 24 * length into.old }
    ensures bytes { bytes.now ≡ ranges_bytes into.new }
    ensures fits { All RangeFits into.new }
{
    for i in 0..into.len() {
        let at = RANGE_BYTES * i;
        into[i] = HomeRange {
            first: number_at(bytes, at),
            count: number_at(bytes, at + 8),
            sector: number_at(bytes, at + 16),
        };
    }
}

// Writes ranges one after the other, 24 bytes each.
#[tactic(auto, using(crate::proofs::Superblocks::no_range))]
fn write_ranges(ranges: &[HomeRange], into: &mut [u8])
    requires { length into.old ≡ 24 * length ranges.now }
    ensures { into.new ≡ ranges_bytes ranges.now }
{
    for (i, range) in ranges.iter().enumerate() {
        let at = RANGE_BYTES * i;
        put_number(into, at, range.first);
        put_number(into, at + 8, range.count);
        put_number(into, at + 16, range.sector);
    }
}

// Whether all ranges are unused.
fn are_unused(ranges: &[HomeRange]) -> bool
    ensures { IsTrue result ↔ All (λ r. r ≡ unused) ranges.now }
{
    ranges.iter().all(|range| *range == UNUSED)
}

// Writes the first 256 bytes of a superblock's sector, then zeros.
fn encode_front(superblock: &Superblock, into: &mut [u8])
    requires { length into.old ≡ 512 }
    ensures { into.new ≡ superblock_front superblock.now ++ zeros 256 }
{
    let version = superblock.version().number();
    let geometry = superblock.geometry();
    let ranges = superblock.ranges();
    blank(into);
    put_number(into, 0, SUPERBLOCK_MAGIC);
    put_number(into, 8, version + 4294967296 * ranges.len() as u64);
    put_number(into, 16, geometry.nodes);
    put_number(into, 24, geometry.pages);
    put_number(into, 32, geometry.log);
    put_number(into, 40, superblock.half(Half::First));
    put_number(into, 48, superblock.half(Half::Second));
    put_number(into, 56, superblock.total());
    let end = RANGES_AT + RANGE_BYTES * ranges.len();
    write_ranges(ranges, &mut into[RANGES_AT..end]);
}

/// Writes the 512 bytes of a superblock's sector.
pub fn encode_superblock(superblock: &Superblock, into: &mut [u8])
    requires { length into.old ≡ 512 }
    ensures { into.new ≡ superblock_bytes superblock.now }
{
    encode_front(superblock, into);
    if superblock.version().row().sealed {
        seal(into);
    }
}

// Whether the bytes behind the ranges are those of a superblock of this version: zeros, and in a sealed version a seal
// at the end.
fn has_end(version: Version, bytes: &[u8]) -> bool
    requires { length bytes.now ≡ 512 }
    ensures { IsTrue result ↔ HasEnd (row version).sealed bytes.now }
{
    if version.row().sealed {
        is_blank_between(bytes, RANGES_END, SEAL_AT) && is_sealed(bytes)
    } else {
        is_blank_from(bytes, RANGES_END)
    }
}

// Returns the version in a superblock's sector. Returns `None` for another magic, an unknown version, or bytes after the
// ranges that aren't those of this version.
fn version_in(bytes: &[u8]) -> Option<Version>
    requires { length bytes.now ≡ 512 }
    ensures magic { IfSome result (λ _. take 8 bytes.now ≡ codes "EROSCKPT") }
    ensures version { IfSome result (λ v. take 4 (drop 8 bytes.now) ≡ half_number (version_number v)) }
    ensures blank { IfSome result (λ v. HasEnd (row v).sealed bytes.now) }
    ensures none { IfNone result (HasMark bytes.now → ⊥) }
{
    let magic = number_at(bytes, 0);
    let second = number_at(bytes, 8);
    let version = Version::with_number(second % 4294967296)?;
    if magic == SUPERBLOCK_MAGIC && has_end(version, bytes) {
        Some(version)
    } else {
        None
    }
}

// Reads the rest of a superblock's sector of any version, whose magic, version and bytes after the ranges are right.
// Returns `None` if the sector encodes no superblock.
fn read_plan(version: Version, bytes: &[u8]) -> Option<Superblock>
    requires size { length bytes.now ≡ 512 }
    requires magic { take 8 bytes.now ≡ codes "EROSCKPT" }
    requires version { take 4 (drop 8 bytes.now) ≡ half_number (version_number version) }
    requires blank { HasEnd (row version).sealed bytes.now }
    ensures found { IfSome result (λ s. bytes.now ≡ superblock_bytes s) }
    ensures fits { IfSome result (λ s. IsPlan s) }
    ensures version { IfSome result (λ s. s.version ≡ version) }
    ensures none { IfNone result ((p : Plan) → IsPlan p → bytes.now ≡ superblock_bytes p → ⊥) }
{
    let second = number_at(bytes, 8);
    let geometry = Geometry {
        nodes: number_at(bytes, 16),
        pages: number_at(bytes, 24),
        log: number_at(bytes, 32),
    };
    let half_0 = number_at(bytes, 40);
    let half_1 = number_at(bytes, 48);
    let total = number_at(bytes, 56);
    let mut ranges = [UNUSED; MAX_RANGES];
    read_ranges(&bytes[RANGES_AT..RANGES_END], &mut ranges);
    let used = (second / 4294967296) as usize;
    if used > MAX_RANGES || !are_unused(&ranges[used..]) {
        return None;
    }
    Superblock::new(version, geometry, &ranges[..used], half_0, half_1, total)
}

/// Reads the 512 bytes of a superblock's sector.
///
/// Returns `NotASuperblock` for another magic, an unknown version, a byte after the ranges that isn't 0, or a sector of a
/// sealed version whose seal is wrong. Returns `BadGeometry` if the bytes encode no superblock for another reason.
pub fn decode_superblock(bytes: &[u8]) -> Result<Superblock, BadImage>
    requires { length bytes.now ≡ 512 }
    ensures found { IfOk result (λ s. bytes.now ≡ superblock_bytes s) }
    ensures fits { IfOk result (λ s. IsPlan s) }
    ensures refused { IfErr result (λ e. IsPlanRefused bytes.now e) }
{
    match version_in(bytes) {
        Some(version) => match read_plan(version, bytes) {
            Some(superblock) => Ok(superblock),
            None => Err(BadImage::BadGeometry),
        },
        None => Err(BadImage::NotASuperblock),
    }
}
