// Which bodies a store keeps in memory.
ghost use Rattle.std.specs.Prelude.{◌≡◌, ◌≤◌, Bool, true, false, ℕ};
ghost use Rattle.object_cache.specs.StoreState.{all_of};

use capability::MAX_FETCHED;
use collections::Capacity;

/// A policy: which bodies a store keeps in memory.
pub trait Policy: Drop {
    /// The type of the setting with which a store is opened.
    type Setting: Copy;

    /// Whether all bodies stay in memory from opening on.
    const KEEPS_ALL: bool;

    ghost KEEPS_ALL: { Bool };

    /// The capacity of a store: the most objects in memory, from its setting and the number of all objects.
    ghost most_for: { Self.Setting → ℕ → ℕ };

    /// Returns the most objects that a store of `count` objects keeps in memory.
    fn capacity(setting: Self::Setting, count: usize) -> Capacity
        requires few { count ≤ 8192 }
        ensures most { result ≡ most_for setting count };

    ghost keeps: { (setting : Self.Setting) (count : ℕ) → KEEPS_ALL ≡ true → most_for setting count ≡ all_of count };
}

/// Returns the least capacity for `count` objects.
pub(crate) fn capacity_for_all(count: usize) -> Capacity
    requires few { count ≤ 8192 }
    ensures all { result ≡ all_of count }
    ensures whole { count ≤ all_of count }
{
    let most = if MAX_FETCHED <= count {
        count
    } else {
        MAX_FETCHED
    };
    match Capacity::new(most as u64) {
        Some(capacity) => capacity,
        None => unreachable!(),
    }
}

/// All bodies stay in memory, from opening on.
#[derive(Drop)]
pub struct KeepAll;

/// At most as many objects stay in memory as the setting says: those used last.
#[derive(Drop)]
pub struct KeepRecent;

impl Policy for KeepAll {
    type Setting = ();

    const KEEPS_ALL: bool = true;

    ghost KEEPS_ALL = { true };

    ghost most_for = { λ setting count. all_of count };

    fn capacity(_setting: (), count: usize) -> Capacity {
        capacity_for_all(count)
    }

    ghost use Rattle.std.proofs.Common.{refl};

    ghost keeps = { λ setting count is. refl };
}

impl Policy for KeepRecent {
    type Setting = Capacity;

    const KEEPS_ALL: bool = false;

    ghost KEEPS_ALL = { false };

    ghost most_for = { λ setting count. setting };

    fn capacity(setting: Capacity, _count: usize) -> Capacity {
        setting
    }

    ghost use Rattle.std.proofs.Common.{sym, true≢false};

    ghost keeps = { λ setting count is. absurd (true≢false (sym is)) };
}
