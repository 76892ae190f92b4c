// Plans of the orders that allocate. Planning changes only the list of numbers.
ghost use Rattle.std.specs.Prelude.{◌≡◌, ◌+◌, ◌<◌, ◌≤◌, ◌^◌, ◌++◌, IfSome, List, Some, length};
ghost use Rattle.std.specs.List.{range_with_len};
ghost use Rattle.model.specs.declared.object.Object.{Object};
ghost use Rattle.model.specs.declared.order.Arguments.{Arguments};
ghost use Rattle.model.specs.declared.order.BankOrder.{BankOrder};
ghost use Rattle.model.specs.Banking.{are_free};
ghost use Rattle.model.specs.Sound.{object_count};
ghost use Rattle.capability.specs.Parts.{objects_in};
ghost use Rattle.space_bank.specs.Allocating.{count_of, given_by, given_for, is_deep, made_for, new_at, new_of};
ghost use Rattle.space_bank.specs.Allocating.{numbers_of, process_at};
ghost use Rattle.space_bank.specs.Banks.{MayServe};
ghost use Rattle.space_bank.specs.Carrying.{IsPlanned};
ghost use Rattle.space_bank.specs.Counting.{AreMarked};

use crate::banks::Banks;
use crate::walking::{MAX_CHAIN, chain_length};
use capability::{BankChange, Change, Frames, Fresh, OrderPlan};
use collections::NumberSet;
use model::{Access, Capability, ResultCode};

/// A kind of object that a bank can make.
#[derive(Clone, Copy)]
pub enum New {
    Page,
    Node,
    Process,
    Bank { limit: u64 },
}

impl New {
    // Returns how many numbers the new object takes.
    fn count(self) -> u64
        ensures { result ≡ count_of self }
    {
        match self {
            New::Process => 2,
            New::Page | New::Node | New::Bank { .. } => 1,
        }
    }
}

// Plans a new object at the least number in a set. Member k of the set means number `first` + k.
#[tactic(auto, using(crate::proofs::Missing::found_none))]
fn next_one(numbers: &NumberSet, first: u64, fresh: Fresh, bank: u64) -> Option<BankChange>
    requires { first + length numbers.now < 2 ^ 64 }
    ensures made { (os : List Object) → AreMarked os first (length numbers.now) numbers.now
        → result ≡ new_at bank fresh (are_free os (range_with_len first (length numbers.now))) }
    ensures few { IfSome result (λ made. length (numbers_of made) ≤ length numbers.now) }
{
    match numbers.next(0) {
        None => None,
        Some(number) => Some(BankChange::Make {
            number: first + number as u64,
            fresh,
            bank,
        }),
    }
}

// Plans a new process at the two least numbers in a set.
#[tactic(auto, using(crate::proofs::Missing::found_none, crate::proofs::Missing::process_missing))]
fn next_process(numbers: &NumberSet, bank: u64) -> Option<BankChange>
    ensures made { (os : List Object) → AreMarked os 0 (length numbers.now) numbers.now
        → result ≡ process_at bank (are_free os (range_with_len 0 (length numbers.now))) }
    ensures few { IfSome result (λ made. length (numbers_of made) ≤ length numbers.now) }
{
    match numbers.next(0) {
        None => None,
        Some(root) => match numbers.next(root + 1) {
            None => None,
            Some(annex) => Some(BankChange::MakeProcess {
                root: root as u64,
                annex: annex as u64,
                bank,
            }),
        },
    }
}

// Returns the capability to the object that a change makes.
fn given_by(change: BankChange) -> Capability
    ensures { result ≡ given_by change }
{
    match change {
        BankChange::Make { number, fresh, .. } => given_for(number, fresh),
        BankChange::MakeProcess { root, .. } => Capability::Process(root),
        BankChange::GiveUp { .. } | BankChange::Transfer { .. } => Capability::Void,
    }
}

// Returns the capability to a new object.
fn given_for(number: u64, fresh: Fresh) -> Capability
    ensures { result ≡ given_for number fresh }
{
    let object = number;
    let access = Access::full();
    match fresh {
        Fresh::Page => Capability::Page { object, access },
        Fresh::Node => Capability::Node { object, access },
        Fresh::Bank { .. } => Capability::Bank(number),
        Fresh::Root { .. } | Fresh::Annex => Capability::Void,
    }
}

// Whether the new object is a bank, and the chain of its owner already has 16 banks.
fn is_deep<F: Frames>(store: &F, bank: u64, new: New) -> bool
    ensures { result ≡ is_deep (objects_in (F.parts store.now)) bank new }
{
    match new {
        New::Bank { .. } => chain_length(store, bank) >= MAX_CHAIN,
        New::Page | New::Node | New::Process => false,
    }
}

impl Banks {
    // Plans a new object at the least free numbers. Returns `None` if too few are free.
    fn next_free<F: Frames>(&self, store: &F, bank: u64, new: New) -> Option<BankChange>
        requires { MayServe (F.parts store.now) self.now bank }
        ensures made { result ≡ made_for (F.parts store.now).geometry
            (objects_in (F.parts store.now)) bank new }
        ensures few { IfSome result
            (λ made. length (numbers_of made) ≤ object_count (F.parts store.now).geometry) }
    {
        match new {
            New::Page => next_one(&self.pages, store.geometry().nodes, Fresh::Page, bank),
            New::Node => next_one(&self.nodes, 0, Fresh::Node, bank),
            New::Process => next_process(&self.nodes, bank),
            New::Bank { limit } => next_one(&self.nodes, 0, Fresh::Bank { limit }, bank),
        }
    }

    // Lists the numbers of the objects that a change makes.
    fn list_new(&mut self, change: BankChange)
        requires { length self.old.listed + length (numbers_of change) ≤ self.old.room }
        ensures { self.new ≡ record self.old { listed = self.old.listed ++ numbers_of change } }
    {
        match change {
            BankChange::Make { number, .. } => self.list(number),
            BankChange::MakeProcess { root, annex, .. } => {
                self.list(root);
                self.list(annex);
            }
            BankChange::GiveUp { .. } | BankChange::Transfer { .. } => {}
        }
    }

    // Plans a new object at the least free number of its kind. A process takes two numbers, for its root and
    // its annex. A bank is refused if the chain of its owner already has 16 banks.
    pub(crate) fn plan_new<F: Frames>(&mut self, store: &F, bank: u64, new: New) -> OrderPlan
        requires bank { MayServe (F.parts store.now) self.old bank }
        requires few { length self.old.listed ≤ 2 }
        ensures planned { (order : BankOrder) (args : Arguments) → new_of order args ≡ Some new
            → IsPlanned (F.parts store.now) bank order args self.old.listed result self.new.listed }
        ensures kept { self.new ≡ record self.old { listed = self.new.listed } }
    {
        if !self.has_quota(store, bank, new.count()) {
            return OrderPlan::refused(ResultCode::Limit);
        }
        match self.next_free(store, bank, new) {
            None => OrderPlan::refused(ResultCode::NoFrame),
            Some(change) => {
                if is_deep(store, bank, new) {
                    return OrderPlan::refused(ResultCode::TooDeep);
                }
                self.list_new(change);
                OrderPlan::made(given_by(change), Change::Bank(change))
            }
        }
    }
}
