// Announces numbers before a step writes their objects.
ghost use Rattle.std.specs.Prelude.{◌≡◌, ◌≢◌, ◌↔◌, ℕ, ◌<◌, true, length, IfErr, OnOk, OnErr, IsErrOf};
ghost use Rattle.std.specs.List.{All, Contains};
ghost use Rattle.capability.specs.Parts.{IsUnprepared, Prepares};
ghost use Rattle.model.specs.Machine.{touching, touched_count};
ghost use Rattle.migrator.specs.Durable.{stored_of};
ghost use Rattle.object_cache.specs.Memory.{Shared};
ghost use Rattle.object_cache.specs.StoreState.{GoesOnIn, IsAnnouncedIn, IsFetchedIn, frozen_state_at, ContinuesIn};
ghost use Rattle.object_cache.specs.StoreState.{IsWithinLog, parts_of};

use crate::frozen::FrozenState;
use crate::number_sets::{add_all, contains_all, lacks_more};
use crate::policy::Policy;
use crate::store::Store;
use device::Device;
use model::Refusal;

impl<D: Device, P: Policy> Store<D, P> {
    // Whether all listed numbers are dirty already, so they need no announcement.
    fn is_ready(&self, written: &[u64]) -> bool
        requires { All (λ n. n < length self.now.headers) written.now }
        ensures touched { result ≡ true → touching self.now.touched written.now ≡ self.now.touched }
        ensures dirty { result ≡ true → touching self.now.dirty written.now ≡ self.now.dirty }
        ensures announced { result ≡ true → (n : ℕ) → Contains written.now n → IsAnnouncedIn self.now n }
        ensures within { IsWithinLog D.disk self.now }
    {
        contains_all(&self.dirty, written)
    }

    // Marks numbers as touched and dirty. None of them may share its present body with an unwritten frozen
    // frame. Returns `LogFull` exactly if more objects would be touched than a log half has slots; then
    // nothing changes.
    #[inline(never)]
    pub(crate) fn announce(&mut self, written: &[u64]) -> Result<(), Refusal>
        requires known { All (λ n. n < length self.old.headers) written.now }
        requires apart { (n : ℕ) → Contains written.now n → frozen_state_at self.old.frozen_state n ≢ Shared }
        ensures marked { OnOk result (self.new ≡ record self.old {
          touched = touching self.old.touched written.now;
          dirty = touching self.old.dirty written.now;
        }) }
        ensures unchanged { OnErr result (self.new ≡ self.old) }
        ensures announced { OnOk result ((n : ℕ) → Contains written.now n → IsAnnouncedIn self.new n) }
        ensures fetched { (n : ℕ) → IsFetchedIn self.old n → IsFetchedIn self.new n }
        ensures within { IsWithinLog D.disk self.new }
        ensures continues { GoesOnIn D.disk self.old self.new }
        ensures full { IsErrOf result Refusal.LogFull
            ↔ ((stored_of D.disk self.old.durable).saved.geometry.log
            < touched_count (touching self.old.touched written.now)) }
        ensures cause { IsErrOf result Refusal.Fault → ⊥ }
        ensures refusals { IfErr result IsUnprepared }
    {
        if lacks_more(
            &self.touched,
            written,
            self.durable.geometry().log - self.touched_count,
        ) {
            return Err(Refusal::LogFull);
        }
        self.touched_count += add_all(&mut self.touched, written);
        add_all(&mut self.dirty, written);
        Ok(())
    }

    // Makes a frozen copy of an object's present body, if an unwritten frozen frame shares it.
    fn keep_one_apart(&mut self, number: u64)
        requires { number < length self.old.headers }
        ensures apart { frozen_state_at self.new.frozen_state number ≢ Shared }
        ensures others { (n : ℕ) → frozen_state_at self.old.frozen_state n ≢ Shared
            → frozen_state_at self.new.frozen_state n ≢ Shared }
        ensures rest { self.new ≡ record self.old { frozen_state = self.new.frozen_state } }
    {
        if let FrozenState::Shared = self.frozen_state(number) {
            self.keep_apart(number);
        }
    }

    // Calls `keep_one_apart` for each number of a list.
    pub(crate) fn keep_all_apart(&mut self, written: &[u64])
        requires { All (λ n. n < length self.old.headers) written.now }
        ensures apart { (n : ℕ) → Contains written.now n → frozen_state_at self.new.frozen_state n ≢ Shared }
        ensures rest { self.new ≡ record self.old { frozen_state = self.new.frozen_state } }
    {
        for number in written {
            self.keep_one_apart(*number);
        }
    }

    // Announces numbers, without a call on the device: see `PresentFrames::prepare`.
    #[inline(always)]
    pub(crate) fn make_writable(&mut self, written: &[u64]) -> Result<(), Refusal>
        requires { All (λ n. n < length self.old.headers) written.now }
        ensures announced { OnOk result ((n : ℕ) → Contains written.now n → IsAnnouncedIn self.new n) }
        ensures fetched { (n : ℕ) → IsFetchedIn self.old n → IsFetchedIn self.new n }
        ensures order { self.new.order ≡ self.old.order }
        ensures unfailed { IsErrOf result Refusal.Fault → ⊥ }
        ensures prepares { Prepares (parts_of D.disk) (ContinuesIn P.KEEPS_ALL D.disk) self.old self.new written.now result }
    {
        if self.is_ready(written) {
            return Ok(());
        }
        self.keep_all_apart(written);
        self.announce(written)
    }
}
