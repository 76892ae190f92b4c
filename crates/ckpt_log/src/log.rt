// Where the log lies.
ghost use Rattle.std.specs.Prelude.{◌≡◌, ◌+◌, ◌*◌, ◌<◌, ◌≤◌};
ghost use Rattle.layout.specs.Homes.{shape_of};
ghost use Rattle.layout.specs.Shape.{IsShapeFor, shape_length};
ghost use Rattle.layout.specs.Superblock.{IsWithin, half_extent};
ghost use Rattle.layout.specs.Image.{half_sector, slot_sector, directory_sector};
ghost use Rattle.layout.specs.Version.{directory_length, row};

use layout::{Half, Shape, Superblock, directory_length};
use model::Geometry;
use std::marker::Model;

/// The log of a device: where its superblock places the halves, and how many slots they have. Callers
/// pass the device to each call.
#[derive(Drop)]
pub struct Log<'a> {
    superblock: &'a Superblock,
}

impl<'a> Model for Log<'a> {
    ghost use Rattle.layout.specs.Superblock.{Plan};

    ghost Value = { Plan };

    ghost view = { λ log. log.superblock.now };
}

impl<'a> Log<'a> {
    /// Returns the log of a device with this superblock.
    pub fn new(superblock: &'a Superblock) -> Log<'a>
        ensures { result ≡ superblock.now }
    {
        Log { superblock }
    }

    // Whether the version has seals. Homes and the log lie after the header slots.
    #[tactic(auto, using(crate::proofs::AnyVersions::first_home_inside))]
    pub(crate) fn is_sealed(&self) -> bool
        ensures value { result ≡ (row self.now.version).sealed }
        ensures behind { (row self.now.version).first_home ≤ self.now.total }
    {
        self.superblock.version().row().sealed
    }

    // Returns how many nodes, pages and log slots there are.
    pub(crate) fn geometry(&self) -> Geometry
        ensures value { result ≡ self.now.geometry }
        ensures room { self.now.geometry.log ≤ 4096 }
        ensures total { 5 ≤ self.now.total }
    {
        self.superblock.geometry()
    }

    // Returns how many sectors a directory of this number of entries takes.
    #[tactic(auto, using(layout::proofs::Versions::fewer_entries))]
    pub(crate) fn directory_length(&self, entries: usize) -> usize
        requires { entries ≤ self.now.geometry.log }
        ensures value { result ≡ directory_length self.now.version entries }
        ensures few { result ≤ 137 }
        ensures holds { 16 * entries ≤ 512 * result }
        ensures most { result ≤ directory_length self.now.version self.now.geometry.log }
    {
        directory_length(self.superblock.version(), entries as u64) as usize
    }

    // Returns where the frame of an object lies in its slot. A slot has space for any block.
    pub(crate) fn shape(&self, number: u64) -> Shape
        ensures value { result ≡ shape_of self.now number }
        ensures fits { IsShapeFor self.now.geometry number result }
        ensures few { shape_length result ≤ 9 }
    {
        self.superblock.shape(number)
    }

    // Returns the first sector of the half of a generation.
    #[tactic(auto, using(layout::proofs::Halves::half_within, layout::proofs::Halves::half_lies))]
    fn half_sector(&self, generation: u64) -> u64
        ensures value { result ≡ half_sector self.now generation }
        ensures within { IsWithin self.now.total
            (half_extent self.now.version self.now.geometry (half_sector self.now generation)) }
        ensures lies { half_sector self.now generation + 9 * self.now.geometry.log
            + directory_length self.now.version self.now.geometry.log ≤ self.now.total }
        ensures total { self.now.total ≤ 131072 }
    {
        self.superblock.half(Half::of(generation))
    }

    /// Returns the first of the 9 sectors of a slot in the half of a generation.
    pub fn slot_sector(&self, generation: u64, slot: u64) -> u64
        requires slot { slot < self.now.geometry.log }
        ensures value { result ≡ slot_sector self.now generation slot }
        ensures inside { result + 9 ≤ self.now.total }
    {
        self.half_sector(generation) + 9 * slot
    }

    /// Returns the first sector of the directory of a generation.
    pub fn directory_sector(&self, generation: u64) -> u64
        ensures value { result ≡ directory_sector self.now generation }
        ensures inside { result + directory_length self.now.version self.now.geometry.log ≤ self.now.total }
        ensures room { self.now.geometry.log ≤ 4096 }
    {
        self.half_sector(generation) + 9 * self.geometry().log
    }
}
