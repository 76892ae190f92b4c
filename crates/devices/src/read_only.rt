// A device that only reads the sectors of another.
ghost use Rattle.std.specs.Prelude.{◌≡◌, ◌≤◌, ◌+◌, ◌%◌, length};
ghost use Rattle.device.specs.Calls.{AreSectors, sectors_of};

use collections::Tally;
use device::{Device, Failed};

/// A device whose sectors can be read without a call of the device.
pub trait SharedDevice: Device {
    /// Fills `into` with the sectors from `at` on.
    fn look(&self, at: u64, into: &mut [u8])
        requires whole { length into.old % 512 ≡ 0 }
        requires inside { at + sectors_of into.old ≤ (Self.disk self.now).sectors }
        ensures { AreSectors (Self.disk self.now).seen at into.new };
}

/// The sectors of another device as they are now. Reads and syncs don't fail. Each write fails and changes nothing, so a
/// crash leaves these sectors.
#[derive(Drop)]
pub struct ReadOnly<'d, D: SharedDevice> {
    inner: &'d D,
    failures: Tally,
}

impl<'d, D: SharedDevice> ReadOnly<'d, D> {
    ghost use Rattle.devices.specs.ReadOnly.{at_rest, looked_at};

    /// Reads the sectors of `inner`. No call has failed yet.
    pub fn new(inner: &'d D) -> ReadOnly<'d, D>
        ensures inner { looked_at result ≡ inner.entry.now }
        ensures failures { (at_rest D.disk result).failures ≡ 0 }
    {
        ReadOnly {
            inner,
            failures: Tally::new(),
        }
    }
}

impl<D: SharedDevice> Device for ReadOnly<'_, D> {
    ghost use Rattle.devices.specs.ReadOnly.{at_rest, seen_is_left};

    ghost disk = { λ r. at_rest D.disk r };

    fn sectors(&self) -> u64 {
        self.inner.sectors()
    }

    fn read(&mut self, at: u64, into: &mut [u8]) -> Result<(), Failed> {
        self.inner.look(at, into);
        Ok(())
    }

    fn write(&mut self, _at: u64, _from: &[u8]) -> Result<(), Failed> {
        self.failures = self.failures.next();
        Err(Failed)
    }

    /// Nothing waits to be made durable.
    fn sync(&mut self) -> Result<(), Failed> {
        Ok(())
    }

    fn power_cut(&mut self) {}

    ghost seen_left = { λ r. seen_is_left (D.disk r.inner.now) (D.left_whole r.inner.now) (D.counts_now r.inner.now)
        (D.seen_left r.inner.now) };

    ghost counts_now = { λ r t c since left. left };

    ghost only_now = { λ r c left. left };

    ghost left_whole = { λ r t c left. left.0 };

    ghost few_sectors = { λ r. D.few_sectors r.inner.now };
}
