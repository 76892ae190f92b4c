// Writes frozen frames to the log, in turn.
ghost use Rattle.std.specs.Prelude.{◌≡◌, ◌≢◌, ◌-◌, ◌<◌, ◌≤◌, None, Some, true, IfErr, OnOk};
ghost use Rattle.device.specs.Calls.{Counts};
ghost use Rattle.migrator.specs.Durable.{GoesOn};
ghost use Rattle.checkpoint.specs.Store.{FrozenFrames};
ghost use Rattle.object_cache.specs.Memory.{Held, Nothing, mark_at};
ghost use Rattle.object_cache.specs.StoreState.{Moves, PutsBy, on_device, frozen_state_at, pending_count};

use crate::frozen::{FrozenState, put_body};
use crate::policy::Policy;
use crate::store::Store;
use device::{Device, Failed};
use model::Refusal;

impl<D: Device, P: Policy> Store<D, P> {
    // Writes the frozen frame whose body is in `staging`, and empties `staging`. No entry may have this
    // frozen body. After `Failed` the body is still in `staging`.
    pub(crate) fn put_held(&mut self) -> Result<(), Failed>
        requires { (h : Held) × (self.old.staging ≡ Some h)
            × (frozen_state_at self.old.frozen_state h.number ≡ Nothing) }
        ensures empty { OnOk result (self.new.staging ≡ None) }
        ensures fewer { OnOk result (pending_count self.new < pending_count self.old) }
        ensures moves { Moves D.disk on_device self.old self.new result }
    {
        let Some(held) = self.staging.get() else {
            unreachable!()
        };
        let number = held.0;
        let header = self.frozen_headers.header(number);
        put_body(&mut self.durable, number, header, held.1)?;
        self.pending.set(number as usize, false);
        self.staging.clear();
        Ok(())
    }

    // If the staging buffer has a body, writes its frozen frame and empties the buffer. After `Failed` the
    // body stays.
    pub(crate) fn empty_staging(&mut self) -> Result<(), Failed>
        ensures empty { OnOk result (self.new.staging ≡ None) }
        ensures fewer { OnOk result (self.old.staging ≢ None → pending_count self.new < pending_count self.old) }
        ensures moves { Moves D.disk on_device self.old self.new result }
    {
        let Some(held) = self.staging.get() else {
            return Ok(());
        };
        let number = held.0;
        match self.frozen_state(number) {
            FrozenState::Nothing => self.put_held(),
            _ => self.put_own_frozen(number),
        }
    }

    // Reads a pending object's frozen body into `staging`. After `Failed`, `staging` is still empty.
    fn take_below(&mut self, number: u64) -> Result<(), Failed>
        requires pending { mark_at self.old.pending number ≡ true }
        requires empty { self.old.staging ≡ None }
        ensures held { OnOk result ((h : Held) × (self.new.staging ≡ Some h) × (h.number ≡ number)) }
        ensures rest { self.new ≡ record self.old { durable = self.new.durable; staging = self.new.staging } }
        ensures moves { Moves D.disk on_device self.old self.new result }
    {
        let read = self.durable.fetch_below(number, &mut self.scratch)?;
        self.staging.take_up(number, read.1, &mut self.scratch);
        Ok(())
    }

    // Writes the frozen frame of a pending object. The staging buffer must be empty. After `Failed` it may
    // have the object's body.
    fn put_pending(&mut self, number: u64) -> Result<(), Failed>
        requires pending { mark_at self.old.pending number ≡ true }
        requires empty { self.old.staging ≡ None }
        ensures fewer { OnOk result (pending_count self.new < pending_count self.old) }
        ensures moves { Moves D.disk on_device self.old self.new result }
    {
        // For the proof: borrowing a field brings in the store's invariant.
        let _ = &self.durable;
        if let FrozenState::Nothing = self.frozen_state(number) {
            self.take_below(number)?;
            return self.put_held();
        }
        self.put_own_frozen(number)
    }

    // Writes the frozen frame of one pending object, if there is one. If `staging` has a body, writes that
    // one's frame.
    fn put_next(&mut self) -> Result<(), Failed>
        ensures fewer { OnOk result (pending_count self.new ≤ pending_count self.old - 1) }
        ensures few { (f : FrozenFrames) → self.old.frozen ≡ Some f → pending_count self.old ≤ f.left }
        ensures moves { Moves D.disk on_device self.old self.new result }
    {
        if self.staging.is_held() {
            return self.empty_staging();
        }
        match self.pending.next(0) {
            Some(number) => self.put_pending(number as u64),
            None => Ok(()),
        }
    }

    // Calls `put_next`, and lowers `left` by one if it didn't fail.
    fn put_one(&mut self) -> Result<(), Refusal>
        requires { (f : FrozenFrames) × (self.old.frozen ≡ Some f) × (0 < f.left) }
        ensures put { OnOk result (PutsBy D.disk self.old self.new 1) }
        ensures goes_on { GoesOn D.disk self.old.durable self.new.durable }
        ensures failed { IfErr result (λ e. e ≡ Refusal.Fault) }
        ensures cause { Counts (D.disk self.old.durable.beneath) (D.disk self.new.durable.beneath) result }
    {
        self.put_next()?;
        self.left -= 1;
        Ok(())
    }

    // Calls `put_one` `count` times, up to the first failure.
    pub(crate) fn put_some(&mut self, count: u64) -> Result<(), Refusal>
        requires { (f : FrozenFrames) × (self.old.frozen ≡ Some f) × (count ≤ f.left) }
        ensures put { OnOk result (PutsBy D.disk self.old self.new count) }
        ensures goes_on { GoesOn D.disk self.old.durable self.new.durable }
        ensures failed { IfErr result (λ e. e ≡ Refusal.Fault) }
        ensures cause { Counts (D.disk self.old.durable.beneath) (D.disk self.new.durable.beneath) result }
    {
        for _ in 0..count {
            self.put_one()?;
        }
        Ok(())
    }
}
