// Where frames lie at home.
ghost use Rattle.std.specs.Prelude.{◌≡◌, ◌+◌, ◌<◌, ◌≤◌};
ghost use Rattle.layout.specs.Homes.{home_place, node_offset, place_in, place_length, range_with, shape_of};
ghost use Rattle.layout.specs.Shape.{IsShapeFor};
ghost use Rattle.layout.specs.Superblock.{IsPlan};
ghost use Rattle.layout.specs.Frames.{IsObject};
ghost use Rattle.layout.specs.Version.{row};
ghost use Rattle.layout.specs.sealed.Units.{begins_unit, cluster_count};
ghost use Rattle.home_ranges.specs.Home.{HaveHome, IsFirstOf, frames_in_block};

use layout::{HomeRange, Shape, Superblock, Version};
use model::Geometry;
use std::marker::Model;

/// Where the frames of objects lie at home, according to a superblock.
#[derive(Drop)]
pub struct Home<'a> {
    superblock: &'a Superblock,
}

impl<'a> Model for Home<'a> {
    ghost use Rattle.layout.specs.Superblock.{Plan};

    ghost Value = { Plan };

    ghost view = { λ home. home.superblock.now };
}

// Returns where in its range the cluster of the i-th node begins, in sectors.
fn node_offset(version: Version, i: u64) -> u64
    requires few { i ≤ 8192 }
    ensures { result ≡ node_offset version i }
{
    let row = version.row();
    row.cluster_sectors * (i / row.cluster_nodes)
}

// Returns the first sector of a number's home, from the range that contains the number.
fn place_in(version: Version, geometry: Geometry, range: HomeRange, number: u64) -> u64
    requires low { range.first ≤ number }
    requires few { number ≤ 8192 }
    requires sector { range.sector ≤ 131072 }
    ensures { result ≡ place_in version geometry range number }
{
    let i = number - range.first;
    let offset = if number < geometry.nodes {
        node_offset(version, i)
    } else {
        9 * i
    };
    range.sector + offset
}

impl<'a> Home<'a> {
    /// Returns the homes of a superblock's ranges.
    pub fn new(superblock: &'a Superblock) -> Home<'a>
        ensures { result ≡ superblock.now }
    {
        Home { superblock }
    }

    /// Returns the first sector of the home of an object.
    #[tactic(auto, using(crate::proofs::Places::no_range))]
    pub fn place(&self, number: u64) -> u64
        requires object { IsObject self.now.geometry number }
        ensures plan { IsPlan self.now }
        ensures value { result ≡ home_place self.now number }
        ensures behind { 5 ≤ result }
        ensures inside { result + place_length self.now number ≤ self.now.total }
    {
        let version = self.superblock.version();
        match self.superblock.range_with(number) {
            Some(range) => place_in(version, self.superblock.geometry(), range, number),
            None => 0,
        }
    }

    /// Returns where the frame of an object lies in the sectors from `place` on.
    pub fn shape(&self, number: u64) -> Shape
        ensures value { result ≡ shape_of self.now number }
        ensures fits { IsShapeFor self.now.geometry number result }
        ensures plan { IsPlan self.now }
    {
        self.superblock.shape(number)
    }

    // Returns how many frames of an object's kind share a block.
    fn frames_in_block(&self, number: u64) -> u64
        ensures value { result ≡ frames_in_block self.now.version self.now.geometry number }
        ensures some { 0 < result }
        ensures few { result ≤ 5 }
        ensures plan { IsPlan self.now }
    {
        if number < self.geometry().nodes {
            self.superblock.version().row().cluster_nodes
        } else {
            1
        }
    }

    /// Returns the first number that shares the home of an object.
    pub fn first(&self, number: u64) -> u64
        requires object { IsObject self.now.geometry number }
        ensures first { IsFirstOf self.now number result }
        ensures plan { IsPlan self.now }
    {
        let frames = self.frames_in_block(number);
        match self.superblock.range_with(number) {
            Some(range) => number - (number - range.first) % frames,
            None => number,
        }
    }

    /// Returns how many numbers, from this one on, share its home: 1 to 5 for nodes of one cluster, else 1.
    #[tactic(auto, using(crate::proofs::Places::block_shared))]
    pub fn sharers(&self, number: u64) -> u64
        requires object { IsObject self.now.geometry number }
        ensures all { HaveHome self.now number result }
        ensures few { result ≤ 5 }
        ensures plan { IsPlan self.now }
    {
        let frames = self.frames_in_block(number);
        match self.superblock.range_with(number) {
            Some(range) => {
                let i = number - range.first;
                (range.count - i).min(frames - i % frames)
            }
            None => 1,
        }
    }

    /// Whether an object has the least number of its unit. Each page has, and the first node of each cluster.
    #[tactic(auto, using(crate::proofs::Units::offset_begins))]
    pub fn begins_unit(&self, number: u64) -> bool
        requires object { IsObject self.now.geometry number }
        ensures value { result ≡ begins_unit self.now number }
        ensures plan { IsPlan self.now }
    {
        self.shape(number).offset == 0
    }

    /// Returns how many nodes of their range lie in the cluster that a node begins.
    pub fn cluster_count(&self, number: u64) -> u64
        requires object { IsObject self.now.geometry number }
        ensures value { result ≡ cluster_count self.now.version (range_with self.now.ranges number) number }
        ensures few { result ≤ 5 }
        ensures plan { IsPlan self.now }
    {
        let nodes = self.superblock.version().row().cluster_nodes;
        match self.superblock.range_with(number) {
            Some(range) => (range.count - (number - range.first)).min(nodes),
            None => 0,
        }
    }

    /// Whether the blocks of the version are sealed.
    pub fn is_sealed(&self) -> bool
        ensures value { result ≡ (row self.now.version).sealed }
        ensures plan { IsPlan self.now }
    {
        self.superblock.version().row().sealed
    }

    /// Returns how many nodes, pages and log slots there are.
    pub fn geometry(&self) -> Geometry
        ensures value { result ≡ self.now.geometry }
        ensures fits { IsPlan self.now }
    {
        self.superblock.geometry()
    }
}
