// The sizes and counts of an image, as numbers.
ghost use Rattle.std.specs.Prelude.{◌≡◌, ◌≤◌, length};
ghost use Rattle.queries.specs.Info.{headers_with};
ghost use Rattle.vezhnake_images.specs.RawInfos.{info_with, raw_ranges};

use checkpoint::Checkpoint;
use device::Device;
use layout::{HomeRange, MAX_RANGES, Superblock};
use migrator::WholeStore;
use model::{ObjectHeader, Role};
use queries::{SavedPart, count_role};
use std::alloc::{AllocError, Global};

/// A home range: its first number, and how many numbers it has.
#[repr(C)]
#[derive(Clone, Copy)]
pub struct RawRange {
    pub first: u64,
    pub count: u64,
}

/// The sizes and counts of an image, as `eros info` prints them.
#[repr(C)]
#[derive(Clone, Copy)]
pub struct RawInfo {
    /// The version of the layout.
    pub layout: u64,
    /// The numbers of nodes, of pages and of slots in a half of the log; the sectors of the image.
    pub nodes: u64,
    pub pages: u64,
    pub log: u64,
    pub sectors: u64,
    /// The saved checkpoint: its generation, its age, and the entries of its directory.
    pub generation: u64,
    pub age: u64,
    pub entries: u64,
    /// How many numbers are free, and how many objects of each kind there are.
    pub free: u64,
    pub page_objects: u64,
    pub node_objects: u64,
    pub processes: u64,
    pub banks: u64,
    /// How many home ranges there are.
    pub ranges_count: u64,
    /// The home ranges; the unused rows are 0.
    pub ranges: [RawRange; MAX_RANGES],
}

// Returns the numbers of home ranges.
fn raw_ranges(ranges: &[HomeRange]) -> [RawRange; MAX_RANGES]
    requires { length ranges.now ≤ 8 }
    ensures { result ≡ raw_ranges ranges.now }
{
    let mut raw = [RawRange { first: 0, count: 0 }; MAX_RANGES];
    for index in 0..ranges.len() {
        let range = ranges[index];
        raw[index] = RawRange {
            first: range.first,
            count: range.count,
        };
    }
    raw
}

// Returns the sizes and counts of an image with this superblock, this checkpoint and these object headers.
fn info_about(superblock: &Superblock, saved: Checkpoint, headers: &[ObjectHeader]) -> RawInfo
    ensures { result ≡ info_with superblock.now saved (λ r. headers_with r headers.now) }
{
    let geometry = superblock.geometry();
    let ranges = superblock.ranges();
    RawInfo {
        layout: superblock.version().number(),
        nodes: geometry.nodes,
        pages: geometry.pages,
        log: geometry.log,
        sectors: superblock.total(),
        generation: saved.generation,
        age: saved.age,
        entries: saved.entries,
        free: count_role(headers, Role::Free),
        page_objects: count_role(headers, Role::Page),
        node_objects: count_role(headers, Role::Node),
        processes: count_role(headers, Role::Root),
        banks: count_role(headers, Role::Bank),
        ranges_count: ranges.len() as u64,
        ranges: raw_ranges(ranges),
    }
}

impl SavedPart for RawInfo {
    ghost use Rattle.recovery.specs.Denotes.{saved_of};
    ghost use Rattle.checkpoint.specs.Saved.{kept_of};
    ghost use Rattle.vezhnake_images.specs.RawInfos.{info_of};

    ghost is_part = { λ s info. info ≡ info_of s.plan (saved_of (kept_of s)) };

    fn read<D: Device, S: WholeStore<D>>(
        _alloc: Global,
        store: &mut S,
    ) -> Result<Self, AllocError> {
        Ok(info_about(store.superblock(), store.saved(), store.table().headers()))
    }
}
