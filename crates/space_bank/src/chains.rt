// The usages of the banks in a chain.
ghost use Rattle.std.specs.Prelude.{◌≡◌, ℕ, ◌<◌, ◌≤◌, true, length, slice_index, IsTrue};
ghost use Rattle.model.specs.Bank.{chain};
ghost use Rattle.model.specs.Banking.{has_quota};
ghost use Rattle.model.specs.Object.{is_bank};
ghost use Rattle.model.specs.Revoke.{is_member};
ghost use Rattle.model.specs.World.{content_at};
ghost use Rattle.model_laws.proofs.BankTree.{IsTree};
ghost use Rattle.capability.specs.Parts.{objects_in};
ghost use Rattle.space_bank.specs.Banks.{MayServe};
ghost use Rattle.space_bank.specs.Chains.{IsRaised, IsShifted, MayShift};

use crate::banks::Banks;
use crate::walking::{MAX_CHAIN, owner};
use capability::Frames;

/// Adds `more` to the usage of each bank in a chain, and subtracts `less`.
///
/// Visits at most 16 banks, and reads only the table.
#[tactic(auto, using(crate::proofs::Tallies::climb_ended))]
pub(crate) fn shift<F: Frames>(usages: &mut [u64], store: &F, bank: u64, more: u64, less: u64)
    requires tree { IsTree (objects_in (F.parts store.now)) }
    requires bank { IsTrue (is_bank (content_at (objects_in (F.parts store.now)) bank)) }
    requires each { (b : ℕ)
        → IsTrue (is_bank (content_at (objects_in (F.parts store.now)) b))
        → b < length usages.old }
    requires fits { (b : ℕ)
        → is_member (chain (objects_in (F.parts store.now)) bank) b ≡ true
        → MayShift more less (slice_index usages.old b) }
    ensures { IsShifted (chain (objects_in (F.parts store.now)) bank) more less
        usages.old usages.new }
{
    let mut current = bank;
    for _step in 0..MAX_CHAIN {
        usages[current as usize] = usages[current as usize] + more - less;
        if current == 0 {
            return;
        }
        current = owner(store, current);
    }
}

impl Banks {
    /// Adds `count` to the usage of each bank in the chain of `bank`. All limits in the chain must allow it.
    #[tactic(auto, using(crate::proofs::Tallies::room_fits))]
    pub(crate) fn account<F: Frames>(&mut self, store: &F, bank: u64, count: u64)
        requires asks { MayServe (F.parts store.now) self.old bank }
        requires room { IsTrue (has_quota (objects_in (F.parts store.now)) bank count) }
        ensures usages { IsRaised (chain (objects_in (F.parts store.now)) bank) count
            self.old.usages self.new.usages }
        ensures kept { self.new ≡ record self.old { usages = self.new.usages } }
    {
        shift(&mut self.usages, store, bank, count, 0);
    }

    /// Subtracts `count` from the usage of each bank in the chain of `bank`.
    pub(crate) fn release<F: Frames>(&mut self, store: &F, bank: u64, count: u64)
        requires asks { MayServe (F.parts store.now) self.old bank }
        requires enough { (b : ℕ)
            → is_member (chain (objects_in (F.parts store.now)) bank) b ≡ true
            → count ≤ slice_index self.old.usages b }
        ensures usages { IsRaised (chain (objects_in (F.parts store.now)) bank) count
            self.new.usages self.old.usages }
        ensures kept { self.new ≡ record self.old { usages = self.new.usages } }
    {
        shift(&mut self.usages, store, bank, 0, count);
    }
}
