// Plans of the orders of banks. Planning changes only the list of numbers.
ghost use Rattle.std.specs.Prelude.{◌≡◌, ℕ, ◌<◌, ◌≤◌, ◌++◌, List, [], ◌∷◌, length, MatchOption};
ghost use Rattle.model.specs.declared.object.Object.{Object};
ghost use Rattle.model.specs.declared.order.Arguments.{Arguments};
ghost use Rattle.model.specs.Bank.{usage as usage_of};
ghost use Rattle.model.specs.Banking.{freed_by, remaining as left_in_chain};
ghost use Rattle.model.specs.Object.{limit_in};
ghost use Rattle.model.specs.Sound.{MayBeHeld};
ghost use Rattle.model.specs.World.{content_at};
ghost use Rattle.capability.specs.Parts.{objects_in};
ghost use Rattle.space_bank.specs.Banks.{MayAsk, MayServe};
ghost use Rattle.space_bank.specs.Carrying.{IsPlanned};
ghost use Rattle.space_bank.specs.Planning.{annex_among, annex_of};

use crate::banks::Banks;
use crate::planning_new::New;
use crate::walking::owner;
use capability::{BankChange, Change, Frames, OrderPlan};
use model::{Access, Arguments, BankOrder, Capability, ResultCode};

// Returns the object that freeing a capability frees, or `None` if it frees none. For a process this is the
// root.
fn freed_object(capability: Capability) -> Option<u64>
    ensures { (os : List Object) → MatchOption result (freed_by os capability ≡ [])
        (λ n. freed_by os capability ≡ n ∷ annex_of os capability) }
{
    match capability {
        Capability::Page { object, access } | Capability::Node { object, access } => {
            if access == Access::full() {
                Some(object)
            } else {
                None
            }
        }
        Capability::Process(root) => Some(root),
        _ => None,
    }
}

impl Banks {
    /// Plans an order. Appends the numbers that it writes to the list, which may have at most two numbers
    /// already. Changes nothing else. Doesn't allocate.
    ///
    /// A new object gets the least free number. If several result codes apply, the plan has the least.
    pub fn plan<F: Frames>(
        &mut self,
        store: &F,
        bank: u64,
        order: BankOrder,
        arguments: Arguments,
    ) -> OrderPlan
        requires asks { MayAsk (F.parts store.now) self.old bank arguments }
        requires few { length self.old.listed ≤ 2 }
        ensures planned { IsPlanned (F.parts store.now) bank order arguments self.old.listed result
            self.new.listed }
        ensures kept { self.new ≡ record self.old { listed = self.new.listed } }
    {
        match order {
            BankOrder::NewPage => self.plan_new(store, bank, New::Page),
            BankOrder::NewNode => self.plan_new(store, bank, New::Node),
            BankOrder::NewProcess => self.plan_new(store, bank, New::Process),
            BankOrder::NewBank => {
                let limit = arguments.first;
                self.plan_new(store, bank, New::Bank { limit })
            }
            BankOrder::Free => self.plan_free(store, bank, arguments.capability),
            BankOrder::Destroy => self.plan_destroy(store, bank),
            BankOrder::ReturnToParent => self.plan_return(store, bank),
            BankOrder::Remaining => OrderPlan::replying_three(self.remaining(store, bank)),
        }
    }

    /// Returns how many more objects a bank may own under all limits in its chain, then its usage, then its
    /// own limit.
    pub fn remaining<F: Frames>(&self, store: &F, bank: u64) -> [u64; 3]
        requires { MayServe (F.parts store.now) self.now bank }
        ensures { let objects = objects_in (F.parts store.now) in result
            ≡ left_in_chain objects bank ∷ usage_of objects bank
            ∷ limit_in (content_at objects bank) ∷ [] }
    {
        let number = bank as usize;
        [
            self.least_left(store, bank),
            self.usages[number],
            self.limits[number],
        ]
    }

    // Plans to free the object that a capability names. The bank must own it.
    fn plan_free<F: Frames>(&mut self, store: &F, bank: u64, capability: Capability) -> OrderPlan
        requires bank { MayServe (F.parts store.now) self.old bank }
        requires few { length self.old.listed ≤ 2 }
        requires sent { MayBeHeld (objects_in (F.parts store.now)) capability }
        ensures planned { (args : Arguments) → args.capability ≡ capability
            → IsPlanned (F.parts store.now) bank BankOrder.Free args self.old.listed result
            self.new.listed }
        ensures kept { self.new ≡ record self.old { listed = self.new.listed } }
    {
        match freed_object(capability) {
            None => OrderPlan::refused(ResultCode::BadCapability),
            Some(object) => {
                if owner(store, object) != bank {
                    return OrderPlan::refused(ResultCode::NotFromThisBank);
                }
                self.list(object);
                self.list_annex(capability);
                OrderPlan::changed(Change::Bank(BankChange::GiveUp { above: bank }))
            }
        }
    }

    // If a capability names a process, lists its annex.
    fn list_annex(&mut self, capability: Capability)
        requires { (p : ℕ) → capability ≡ Capability.Process p
            → length self.old.listed < self.old.room }
        ensures { self.new ≡ record self.old {
          listed = self.old.listed ++ annex_among self.old.annexes capability;
        } }
    {
        if let Capability::Process(root) = capability {
            self.list(self.annex(root));
        }
    }

    // Plans to destroy a bank and all objects under it.
    #[tactic(auto, using(crate::proofs::Plans::bank_room))]
    fn plan_destroy<F: Frames>(&mut self, store: &F, bank: u64) -> OrderPlan
        requires bank { MayServe (F.parts store.now) self.old bank }
        requires few { length self.old.listed ≤ 2 }
        ensures planned { (args : Arguments) → IsPlanned (F.parts store.now) bank
            BankOrder.Destroy args self.old.listed result self.new.listed }
        ensures kept { self.new ≡ record self.old { listed = self.new.listed } }
    {
        if bank == 0 {
            return OrderPlan::refused(ResultCode::PrimeBank);
        }
        let above = owner(store, bank);
        self.list_all(store, bank, true);
        OrderPlan::changed(Change::Bank(BankChange::GiveUp { above }))
    }

    // Plans to destroy a bank, and to transfer the objects that it owns to its owner.
    fn plan_return<F: Frames>(&mut self, store: &F, bank: u64) -> OrderPlan
        requires bank { MayServe (F.parts store.now) self.old bank }
        requires few { length self.old.listed ≤ 2 }
        ensures planned { (args : Arguments) → IsPlanned (F.parts store.now) bank
            BankOrder.ReturnToParent args self.old.listed result self.new.listed }
        ensures kept { self.new ≡ record self.old { listed = self.new.listed } }
    {
        if bank == 0 {
            return OrderPlan::refused(ResultCode::PrimeBank);
        }
        self.list(bank);
        self.list_all(store, bank, false);
        OrderPlan::changed(Change::Bank(BankChange::Transfer { bank }))
    }
}
