// A device that stops after some calls.
ghost use Rattle.std.specs.Prelude.{None, ◌≡◌, ◌≤◌, ◌+◌, ◌%◌, ◌-◌, ◌↔◌, length, OnOk, OnErr, IsErr, option_map};
ghost use Rattle.device.specs.Calls.{Agrees, Elsewhere, sectors_of, AreSectors, Narrows, Tears, Only, Counts};
ghost use Rattle.device.specs.Moments.{Elapses};

use crate::read_only::SharedDevice;
use collections::Tally;
use device::{Device, Failed};

/// Passes a number of reads, writes and syncs to an inner device, and then fails each of them until a power
/// cut.
///
/// A call that the fuse fails doesn't reach the inner device: a failed write writes nothing.
#[derive(Drop)]
pub struct Fuse<D: Device> {
    inner: D,
    left: Option<u64>,
    failures: Tally,
}

impl<D: Device> Fuse<D> {
    ghost use Rattle.devices.specs.Fuse.{beneath, calls_left, IsBlown, fused};

    /// Passes `calls` reads, writes and syncs to `inner`.
    pub fn new(inner: D, calls: u64) -> Fuse<D>
        ensures inner { beneath result ≡ inner }
        ensures left { calls_left result ≡ Some calls }
        ensures failures { (fused D.disk result).failures ≡ (D.disk inner).failures }
    {
        Fuse {
            inner,
            left: Some(calls),
            failures: Tally::new(),
        }
    }

    /// Passes each read, write and sync to `inner`, as after a power cut.
    pub fn mended(inner: D) -> Fuse<D>
        ensures inner { beneath result ≡ inner }
        ensures left { calls_left result ≡ None }
        ensures failures { (fused D.disk result).failures ≡ (D.disk inner).failures }
    {
        Fuse {
            inner,
            left: None,
            failures: Tally::new(),
        }
    }

    /// The inner device.
    pub fn into_inner(self) -> D
        ensures { result ≡ beneath self }
    {
        let Fuse { inner, .. } = self;
        inner
    }

    // Counts a call, or fails if none are left.
    fn pass(&mut self) -> Result<(), Failed>
        ensures inner { self.new.inner ≡ self.old.inner }
        ensures blown { IsErr result ↔ IsBlown self.old }
        ensures left { self.new.left ≡ option_map (λ calls. calls - 1) self.old.left }
        ensures ok { OnOk result (self.new.failures.number ≡ self.old.failures.number) }
        ensures err { OnErr result (self.new.failures.number ≡ self.old.failures.number + 1) }
    {
        match self.left {
            Some(0) => {
                self.failures = self.failures.next();
                Err(Failed)
            }
            Some(calls) => {
                self.left = Some(calls - 1);
                Ok(())
            }
            None => Ok(()),
        }
    }
}

impl<D: Device> Device for Fuse<D> {
    ghost use Rattle.devices.specs.Fuse.{fused, Passes, calls_left};

    ghost disk = { λ f. fused D.disk f };

    fn sectors(&self) -> u64 {
        self.inner.sectors()
    }

    fn read(&mut self, at: u64, into: &mut [u8]) -> Result<(), Failed>
        requires whole { length into.old % 512 ≡ 0 }
        requires inside { at + sectors_of into.old ≤ (fused D.disk self.old).sectors }
        ensures passes { Passes D.disk self.old self.new result }
        ensures bytes { OnOk result (AreSectors (fused D.disk self.new).seen at into.new) }
        ensures size { (fused D.disk self.new).sectors ≡ (fused D.disk self.old).sectors }
        ensures seen { Agrees (fused D.disk self.new).seen (fused D.disk self.old).seen }
        ensures crash { Narrows (fused D.disk self.old) (fused D.disk self.new) }
        ensures nothing_durable { Narrows (fused D.disk self.new) (fused D.disk self.old) }
        ensures time { Elapses (fused D.disk self.old) (fused D.disk self.new) }
        ensures cause { Counts (fused D.disk self.old) (fused D.disk self.new) result }
    {
        self.pass()?;
        self.inner.read(at, into)
    }

    fn write(&mut self, at: u64, from: &[u8]) -> Result<(), Failed>
        requires whole { length from.now % 512 ≡ 0 }
        requires inside { at + sectors_of from.now ≤ (fused D.disk self.old).sectors }
        ensures passes { Passes D.disk self.old self.new result }
        ensures written { OnOk result (AreSectors (fused D.disk self.new).seen at from.now) }
        ensures size { (fused D.disk self.new).sectors ≡ (fused D.disk self.old).sectors }
        ensures elsewhere { Elsewhere at (sectors_of from.now) (fused D.disk self.old).seen
            (fused D.disk self.new).seen }
        ensures crash { Tears at (sectors_of from.now) (fused D.disk self.old)
            (fused D.disk self.new) }
        ensures time { Elapses (fused D.disk self.old) (fused D.disk self.new) }
        ensures cause { Counts (fused D.disk self.old) (fused D.disk self.new) result }
    {
        // If `pass` fails, nothing is written.
        // A write that isn't passed on writes nothing.
        self.pass()?;
        self.inner.write(at, from)
    }

    fn sync(&mut self) -> Result<(), Failed>
        ensures passes { Passes D.disk self.old self.new result }
        ensures durable { OnOk result (Only (fused D.disk self.new).seen (fused D.disk self.new)) }
        ensures size { (fused D.disk self.new).sectors ≡ (fused D.disk self.old).sectors }
        ensures seen { Agrees (fused D.disk self.new).seen (fused D.disk self.old).seen }
        ensures crash { Narrows (fused D.disk self.old) (fused D.disk self.new) }
        ensures nothing_durable { OnErr result
            (Narrows (fused D.disk self.new) (fused D.disk self.old)) }
        ensures time { Elapses (fused D.disk self.old) (fused D.disk self.new) }
        ensures cause { Counts (fused D.disk self.old) (fused D.disk self.new) result }
    {
        self.pass()?;
        self.inner.sync()
    }

    /// Mends the fuse too: each later call is passed on.
    fn power_cut(&mut self)
        ensures mended { calls_left self.new ≡ None }
        ensures left { (fused D.disk self.old).may_leave (fused D.disk self.new).seen }
        ensures durable { Only (fused D.disk self.new).seen (fused D.disk self.new) }
        ensures size { (fused D.disk self.new).sectors ≡ (fused D.disk self.old).sectors }
        ensures time { Elapses (fused D.disk self.old) (fused D.disk self.new) }
        ensures no_failure { (fused D.disk self.new).failures ≡ (fused D.disk self.old).failures }
    {
        self.left = None;
        self.inner.power_cut();
    }

    ghost seen_left = { λ f. D.seen_left f.inner };

    ghost counts_now = { λ f t c. D.counts_now f.inner t c };

    ghost only_now = { λ f c. D.only_now f.inner c };

    ghost left_whole = { λ f t c. D.left_whole f.inner t c };

    ghost few_sectors = { λ f. D.few_sectors f.inner };
}

/// The fuse doesn't count it.
impl<D: SharedDevice> SharedDevice for Fuse<D> {
    fn look(&self, at: u64, into: &mut [u8]) {
        self.inner.look(at, into);
    }
}
