// A copy of a device's sectors in memory, without those of zeros.
ghost use Rattle.std.specs.Prelude.{◌≡◌, ◌≢◌, ◌<◌, ◌≤◌, ◌+◌, ◌*◌, ◌%◌, ◌↔◌, ℕ, None, All, IfOk, IsTrue, length, replicate};
ghost use Rattle.device.specs.Calls.{AreSectors, Elsewhere, image_of, sectors_of};
ghost use Rattle.collections.specs.SparseVec.{item_at};
ghost use Rattle.devices.specs.SectorCopy.{bytes_of};

use crate::sectors;
use collections::SparseVec;
use device::SECTOR_SIZE;
use std::alloc::{AllocError, Global};
use std::marker::Model;

/// The bytes of sectors, one sector after the other.
///
/// All memory is reserved by `zeros` or `of`, so no later call lacks memory. The system provides memory for a
/// sector once bytes other than zeros are put there.
#[derive(Drop)]
pub struct SectorCopy {
    // The sectors that ever held a byte other than 0, by number. The others hold zeros.
    stored: SparseVec<[u8; SECTOR_SIZE]>,
}

impl Model for SectorCopy {
    ghost use Rattle.std.specs.Prelude.{List, ℕ};
    ghost use Rattle.devices.specs.SectorCopy.{AreWhole, bytes_in};

    ghost Value = { List ℕ };

    ghost view = { λ c. bytes_in c.stored };

    ghost invariant = { λ c. AreWhole c.stored };
}

// Whether all bytes are 0. Without an early exit this is compiled to vector instructions.
fn are_zeros(bytes: &[u8]) -> bool
    ensures { IsTrue result ↔ (bytes.now ≡ replicate (length bytes.now) 0) }
{
    let mut any = 0;
    for byte in bytes {
        any |= *byte;
    }
    any == 0
}

// These 512 bytes as an array.
fn array_of(bytes: &[u8]) -> [u8; SECTOR_SIZE]
    requires { length bytes.now ≡ 512 }
    ensures { result ≡ bytes.now }
{
    let mut array = [0; SECTOR_SIZE];
    array.copy_from_slice(bytes);
    array
}

// Replaces a sector. If the sector isn't stored and the new bytes are zeros, nothing is stored.
fn store(stored: &mut SparseVec<[u8; SECTOR_SIZE]>, at: usize, sector: &[u8])
    requires size { length sector.now ≡ 512 }
    requires inside { at < length stored.old }
    ensures here { bytes_of (item_at stored.new at) ≡ sector.now }
    ensures others { (i : ℕ) → i ≢ at → item_at stored.new i ≡ item_at stored.old i }
    ensures zeros { item_at stored.old at ≡ None → sector.now ≡ replicate 512 0 → item_at stored.new at ≡ None }
    ensures length { length stored.new ≡ length stored.old }
{
    if stored.has(at) {
        stored.item_mut(at).copy_from_slice(sector);
    } else if !are_zeros(sector) {
        stored.add(at, array_of(sector));
    }
}

impl SectorCopy {
    /// A number of sectors of zeros. Fails only if memory runs out.
    #[tactic(auto, using(crate::proofs::Stored::none_whole, crate::proofs::Stored::none_zeros))]
    pub fn zeros(alloc: Global, sectors: usize) -> Result<SectorCopy, AllocError>
        ensures { IfOk result (λ copy. copy ≡ replicate (512 * sectors) 0) }
    {
        Ok(SectorCopy {
            stored: SparseVec::new(alloc, sectors)?,
        })
    }

    /// A copy of these sectors. Fails only if memory runs out.
    #[tactic(auto, using(crate::proofs::Stored::all_put))]
    pub fn of(alloc: Global, bytes: &[u8]) -> Result<SectorCopy, AllocError>
        requires { length bytes.now % 512 ≡ 0 }
        ensures { IfOk result (λ copy. copy ≡ bytes.now) }
    {
        let mut copy = SectorCopy::zeros(alloc, bytes.len() / SECTOR_SIZE)?;
        copy.put(0, bytes);
        Ok(copy)
    }

    /// The number of sectors.
    #[tactic(auto, using(crate::proofs::Stored::count_is, crate::proofs::Stored::fits))]
    pub fn sectors(&self) -> usize
        ensures size { length self.now ≡ 512 * result }
        ensures fits { All (λ b. b < 256) self.now }
    {
        self.stored.len()
    }

    /// The bytes of a sector.
    #[tactic(auto, using(crate::proofs::Stored::zeros_are_there))]
    pub fn sector(&self, at: usize) -> &[u8]
        requires { 512 * (at + 1) ≤ length self.now }
        ensures { result.now ≡ image_of self.now at }
    {
        if self.stored.has(at) {
            self.stored.item(at)
        } else {
            &[0; SECTOR_SIZE]
        }
    }

    /// Reads whole sectors from `at` on.
    #[tactic(auto, using(crate::proofs::Stored::image_size, crate::proofs::Stored::got_more))]
    pub fn get(&self, at: usize, into: &mut [u8])
        requires whole { length into.old % 512 ≡ 0 }
        requires inside { 512 * (at + sectors_of into.old) ≤ length self.now }
        ensures { AreSectors (image_of self.now) at into.new }
    {
        // For the proof: the contract of `sectors` has a bound, by which `at + i` doesn't overflow.
        let _sectors = self.sectors();
        for i in 0..into.len() / SECTOR_SIZE {
            sectors::put(into, i, self.sector(at + i));
        }
    }

    // Replaces a sector.
    fn put_sector(&mut self, at: usize, sector: &[u8])
        requires size { length sector.now ≡ 512 }
        requires inside { 512 * (at + 1) ≤ length self.old }
        ensures here { image_of self.new at ≡ sector.now }
        ensures others { Elsewhere at 1 (image_of self.old) (image_of self.new) }
        ensures length { length self.new ≡ length self.old }
        ensures fits { All (λ b. b < 256) self.new }
    {
        store(&mut self.stored, at, sector);
    }

    /// Replaces the sectors from `at` on.
    #[tactic(auto, using(crate::proofs::Stored::part_is, crate::proofs::Stored::put_more))]
    pub fn put(&mut self, at: usize, from: &[u8])
        requires whole { length from.now % 512 ≡ 0 }
        requires inside { 512 * (at + sectors_of from.now) ≤ length self.old }
        ensures written { AreSectors (image_of self.new) at from.now }
        ensures elsewhere { Elsewhere at (sectors_of from.now) (image_of self.old) (image_of self.new) }
        ensures length { length self.new ≡ length self.old }
        ensures fits { All (λ b. b < 256) self.new }
    {
        // For the proof: the contract of `sectors` has a bound, by which `at + i` doesn't overflow.
        let _sectors = self.sectors();
        for i in 0..from.len() / SECTOR_SIZE {
            let start = i * SECTOR_SIZE;
            self.put_sector(at + i, &from[start..start + SECTOR_SIZE]);
        }
    }
}
