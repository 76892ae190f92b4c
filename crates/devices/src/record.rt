// What was done to a device in memory, one entry for each sector written and each sync.
ghost use Rattle.std.specs.Prelude.{◌≡◌, ◌<◌, ◌≤◌, ◌+◌, ◌^◌, ◌++◌, ◌∷◌, [], vec_len, vec_capacity, None};
ghost use Rattle.device.specs.Calls.{sectors_of};
ghost use Rattle.devices.specs.Record.{entries_of, marked};

use device::SECTOR_SIZE;

/// What a power cut leaves of the bytes that were written and not synced.
#[derive(Clone, Copy)]
pub enum Outcome {
    /// All of them.
    Keep,
    /// None of them: the synced bytes remain.
    Drop,
    /// This byte, everywhere in each unsynced sector.
    Fill(u8),
}

#[derive(Drop)]
pub(crate) enum Action {
    Wrote {
        sector: u64,
        bytes: [u8; SECTOR_SIZE],
    },
    Synced,
}

#[derive(Drop)]
pub(crate) struct RecordEntry {
    pub(crate) action: Action,
    // The power cut that came after this entry and before the next, if one did.
    pub(crate) cut: Option<Outcome>,
}

/// Adds an entry. The record needs space for it.
pub(crate) fn note(entries: &mut Vec<RecordEntry>, action: Action)
    requires { vec_len entries.old < vec_capacity entries.old }
    ensures items { entries.new.items
        ≡ entries.old.items ++ record { action = action; cut = None } ∷ [] }
    ensures capacity { vec_capacity entries.old ≤ vec_capacity entries.new }
{
    let _ = entries.push(RecordEntry { action, cut: None });
}

/// Adds the entries of a write from `at` on. The record needs space for one each.
pub(crate) fn note_writes(entries: &mut Vec<RecordEntry>, at: u64, from: &[u8])
    requires room { vec_len entries.old + sectors_of from.now ≤ vec_capacity entries.old }
    requires few { at + sectors_of from.now < 2 ^ 64 }
    ensures items { entries.new.items
        ≡ entries.old.items ++ entries_of at (sectors_of from.now) from.now }
    ensures capacity { vec_capacity entries.old ≤ vec_capacity entries.new }
{
    for i in 0..from.len() / SECTOR_SIZE {
        let start = i * SECTOR_SIZE;
        let mut bytes = [0; SECTOR_SIZE];
        bytes.copy_from_slice(&from[start..start + SECTOR_SIZE]);
        let sector = at + i as u64;
        note(entries, Action::Wrote { sector, bytes });
    }
}

/// Marks the last entry with a power cut, if there is an entry and it has no mark yet.
#[tactic(auto, using(crate::proofs::Entries::marked_set))]
pub(crate) fn mark(entries: &mut Vec<RecordEntry>, outcome: Outcome)
    ensures items { entries.new.items ≡ marked outcome entries.old.items }
    ensures capacity { vec_capacity entries.new ≡ vec_capacity entries.old }
{
    if let Some(last) = entries.last_mut() {
        last.cut = Some(last.cut.unwrap_or(outcome));
    }
}
