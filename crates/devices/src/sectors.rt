// Sectors stored in one slice of bytes.
ghost use Rattle.std.specs.Prelude.{◌≡◌, ◌<◌, ◌≤◌, ◌+◌, ◌*◌, ◌%◌, ℕ, true, false, length, replicate, All};
ghost use Rattle.device.specs.Calls.{Agrees, sectors_of, image_of, AreSectors, Elsewhere, Patches};
ghost use Rattle.devices.specs.Past.{left_by};
ghost use Rattle.devices.specs.Record.{writes, names};
ghost use Rattle.devices.specs.MirrorSound.{state_with};

use crate::record::{Action, Outcome, RecordEntry};
use device::SECTOR_SIZE;

/// Replaces the sectors from `at` on.
pub fn put(sectors: &mut [u8], at: usize, from: &[u8])
    requires whole { length from.now % 512 ≡ 0 }
    requires inside { 512 * (at + sectors_of from.now) ≤ length sectors.old }
    ensures written { AreSectors (image_of sectors.new) at from.now }
    ensures elsewhere { Elsewhere at (sectors_of from.now) (image_of sectors.old)
        (image_of sectors.new) }
    ensures fits { All (λ b. b < 256) sectors.new }
{
    let start = at * SECTOR_SIZE;
    sectors[start..start + from.len()].copy_from_slice(from);
}

// If this action wrote a sector, copies that sector from `from`.
fn copy_sector(into: &mut [u8], from: &[u8], action: &Action)
    requires same_size { length from.now ≡ length into.old }
    requires inside { (i : ℕ) → writes action.now i ≡ true → 512 * (i + 1) ≤ length into.old }
    ensures patched { Patches (writes action.now) (image_of from.now) (image_of into.old)
        (image_of into.new) }
    ensures fits { All (λ b. b < 256) into.old → All (λ b. b < 256) into.new }
{
    if let Action::Wrote { sector, .. } = action {
        let at = *sector as usize;
        let start = at * SECTOR_SIZE;
        put(into, at, &from[start..start + SECTOR_SIZE]);
    }
}

/// Copies each sector that one of these entries wrote, from `from`.
#[tactic(auto, using(crate::proofs::Patches::names_at))]
pub(crate) fn copy_written(into: &mut [u8], from: &[u8], entries: &[RecordEntry])
    requires same_size { length from.now ≡ length into.old }
    requires inside { (i : ℕ) → names entries.now i ≡ true → 512 * (i + 1) ≤ length into.old }
    ensures patched { Patches (names entries.now) (image_of from.now) (image_of into.old)
        (image_of into.new) }
    ensures fits { All (λ b. b < 256) into.old → All (λ b. b < 256) into.new }
{
    for entry in entries {
        copy_sector(into, from, &entry.action);
    }
}

// If this action wrote a sector, fills that sector with this byte.
fn fill_sector(into: &mut [u8], byte: u8, action: &Action)
    requires inside { (i : ℕ) → writes action.now i ≡ true → 512 * (i + 1) ≤ length into.old }
    ensures patched { Patches (writes action.now) (λ _. replicate 512 byte) (image_of into.old) (image_of into.new) }
    ensures fits { All (λ b. b < 256) into.old → All (λ b. b < 256) into.new }
{
    if let Action::Wrote { sector, .. } = action {
        put(into, *sector as usize, &[byte; SECTOR_SIZE]);
    }
}

/// Fills each sector that one of these entries wrote with this byte.
#[tactic(auto, using(crate::proofs::Patches::names_at))]
pub(crate) fn fill_written(into: &mut [u8], byte: u8, entries: &[RecordEntry])
    requires inside { (i : ℕ) → names entries.now i ≡ true → 512 * (i + 1) ≤ length into.old }
    ensures patched { Patches (names entries.now) (λ _. replicate 512 byte) (image_of into.old) (image_of into.new) }
    ensures fits { All (λ b. b < 256) into.old → All (λ b. b < 256) into.new }
{
    for entry in entries {
        fill_sector(into, byte, &entry.action);
    }
}

/// Gives the present and the synced sectors the bytes that a power cut leaves, if `unsynced` are the entries
/// that aren't synced.
pub(crate) fn settle(
    present: &mut [u8],
    synced: &mut [u8],
    unsynced: &[RecordEntry],
    outcome: Outcome,
)
    requires same_size { length synced.old ≡ length present.old }
    requires inside { (i : ℕ) → names unsynced.now i ≡ true → 512 * (i + 1) ≤ length present.old }
    requires same_elsewhere { (i : ℕ) → names unsynced.now i ≡ false → image_of present.old i
        ≡ image_of synced.old i }
    ensures left { Agrees (image_of present.new)
        (left_by outcome (state_with present.old synced.old unsynced.now)) }
    ensures same { Agrees (image_of synced.new) (image_of present.new) }
    ensures present_fits { All (λ b. b < 256) present.old → All (λ b. b < 256) present.new }
    ensures synced_fits { All (λ b. b < 256) synced.old → All (λ b. b < 256) synced.new }
{
    match outcome {
        Outcome::Keep => copy_written(synced, present, unsynced),
        Outcome::Drop => copy_written(present, synced, unsynced),
        Outcome::Fill(byte) => {
            fill_written(present, byte, unsynced);
            fill_written(synced, byte, unsynced);
        }
    }
}
