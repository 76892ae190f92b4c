// A file of sectors, as a device uses it.
ghost use Rattle.std.specs.Prelude.{◌≡◌, ◌<◌, ◌≤◌, ◌+◌, ◌%◌, ◌++◌, ◌∷◌, [], ℕ, List, length, IsErr, OnOk, OnErr};
ghost use Rattle.devices.specs.declared.record.Outcome.TheVariants.{Keep};
ghost use Rattle.device.specs.Calls.{sectors_of};
ghost use Rattle.devices.specs.Past.{Event, synced, cut, writes_of};

use device::Failed;

/// A file of sectors, and what has been done to it since it was opened.
///
/// After the first failure each write and each sync fails. A write that failed may have left any bytes, and
/// after a failed sync it isn't known what is durable.
pub trait SectorFile: Drop {
    /// The bytes when the file was opened.
    ghost first: { Self → List ℕ };

    /// The events since the file was opened.
    ghost events: { Self → List Event };

    /// How many calls have failed.
    ghost failures: { Self → ℕ };

    /// Writes `from` into the sectors from `at` on. After `Failed` they may hold any bytes, as if these were
    /// written and not synced.
    fn write(&mut self, at: u64, from: &[u8]) -> Result<(), Failed>
        requires whole { length from.now % 512 ≡ 0 }
        requires few { at + sectors_of from.now ≤ 131072 }
        ensures first { first self.new ≡ first self.old }
        ensures events { events self.new ≡ events self.old ++ writes_of at (sectors_of from.now) from.now }
        ensures ok { OnOk result (failures self.new ≡ failures self.old) }
        ensures err { OnErr result (failures self.new ≡ failures self.old + 1) }
        ensures broken { 0 < failures self.old → IsErr result };

    /// Makes durable what was written. After `Failed` nothing more is durable than before.
    fn sync(&mut self) -> Result<(), Failed>
        ensures first { first self.new ≡ first self.old }
        ensures synced { OnOk result (events self.new ≡ events self.old ++ synced ∷ []) }
        ensures nothing { OnErr result (events self.new ≡ events self.old) }
        ensures ok { OnOk result (failures self.new ≡ failures self.old) }
        ensures err { OnErr result (failures self.new ≡ failures self.old + 1) }
        ensures broken { 0 < failures self.old → IsErr result };

    /// The power goes and comes back, and every byte is kept.
    fn power_cut(&mut self)
        ensures first { first self.new ≡ first self.old }
        ensures events { events self.new ≡ events self.old ++ cut Keep ∷ [] }
        ensures failures { failures self.new ≡ failures self.old };
}
