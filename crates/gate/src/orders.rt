// Orders on kernel objects.
ghost use Rattle.std.specs.Prelude.{◌≡◌, ℕ, List, Some, IsTrue};
ghost use Rattle.model.specs.declared.geometry.Geometry.{Geometry};
ghost use Rattle.model.specs.declared.object.Object.{Object};
ghost use Rattle.model.specs.Capability.{access_bits, named, tag_of};
ghost use Rattle.model.specs.Frame.{objects_of};
ghost use Rattle.model.specs.Order.{order, IsNoBankOrder};
ghost use Rattle.model.specs.World.{annex_at, is_process};
ghost use Rattle.capability.specs.Parts.{frames_of, objects_in};
ghost use Rattle.gate.specs.Plan.{outcome_of, process_named, ChangesAs, HaveAnnexesOf, IsFor, IsPlain};

use crate::node::{node_order, on_node};
use crate::page::{on_page, page_order};
use crate::process::{on_process, process_order};
use crate::reducing::plan_reduction;
use bitflags::Flags;
use capability::{Frames, OrderPlan};
use model::{Access, Arguments, Capability, ResultCode};

// The order that reads a number.
const READ_NUMBER: u64 = 1;

// The order that reduces an address space.
const REDUCE_SPACE: u64 = 3;

// The order of a discrim capability, which returns the kind of another.
const CLASSIFY: u64 = 1;

// Plans an order on an address space.
#[tactic(auto, unfolding(model::specs::Order::order))]
fn on_space(object: u64, height: u8, access: Access, word: u64, arguments: Arguments) -> OrderPlan
    ensures only { (os : List Object)
        → IsFor os (Capability.Space object height access) arguments result.change }
    ensures outcome { (g : Geometry) (os : List Object) → outcome_of os result
        ≡ order g os (Capability.Space object height access) word arguments }
    ensures change { (g : Geometry) (os : List Object)
        → ChangesAs os result (order g os (Capability.Space object height access) word arguments) }
{
    if word != REDUCE_SPACE {
        return OrderPlan::refused(ResultCode::NoOrder);
    }
    let space = Capability::Space {
        object,
        height,
        access,
    };
    plan_reduction(space, arguments.first)
}

// Returns the number of a capability's kind.
fn tag_of(capability: Capability) -> u64
    ensures { result ≡ tag_of capability }
{
    match capability {
        Capability::Void => 0,
        Capability::Number(_) => 1,
        Capability::Page { .. } => 2,
        Capability::Node { .. } => 3,
        Capability::Space { .. } => 4,
        Capability::Process(_) => 5,
        Capability::Start { .. } => 6,
        Capability::Resume(_) => 7,
        Capability::Bank(_) => 8,
        Capability::Discrim => 9,
    }
}

// Returns the access of a capability, or 0 if it has none.
fn access_bits(capability: Capability) -> u64
    ensures { result ≡ access_bits capability }
{
    match capability {
        Capability::Page { access, .. }
        | Capability::Node { access, .. }
        | Capability::Space { access, .. } => access.bits() as u64,
        _ => 0,
    }
}

// Plans an order that needs no object.
#[tactic(auto, unfolding(model::specs::Order::order))]
fn on_plain(word: u64, capability: Capability, arguments: Arguments) -> OrderPlan
    requires { IsPlain capability word }
    ensures only { (os : List Object) → IsFor os capability arguments result.change }
    ensures outcome { (g : Geometry) (os : List Object) → outcome_of os result
        ≡ order g os capability word arguments }
    ensures change { (g : Geometry) (os : List Object)
        → ChangesAs os result (order g os capability word arguments) }
{
    match capability {
        Capability::Number(number) if word == READ_NUMBER => OrderPlan::replying(number, 0),
        Capability::Discrim if word == CLASSIFY => {
            let sent = arguments.capability;
            OrderPlan::replying(tag_of(sent), access_bits(sent))
        }
        Capability::Void => OrderPlan::refused(ResultCode::VoidCapability),
        _ => OrderPlan::refused(ResultCode::NoOrder),
    }
}

/// Plans order `word` on a kernel object, other than an order of a bank. The object must be fetched, and for
/// a process also its annex.
#[inline(always)]
#[tactic(auto, unfolding(model::specs::Order::order))]
pub fn plan<F: Frames>(
    store: &F,
    capability: Capability,
    word: u64,
    arguments: Arguments,
) -> OrderPlan
    requires fetched { (n : ℕ) → named capability ≡ Some n → F.IsFetched store.now n }
    requires process { (p : ℕ) → process_named capability ≡ Some p
        → IsTrue (is_process (objects_in (F.parts store.now)) p) }
    requires known { IsNoBankOrder capability word }
    requires annex { (p : ℕ) → process_named capability ≡ Some p
        → F.IsFetched store.now (annex_at (objects_in (F.parts store.now)) p) }
    ensures only { IsFor (objects_of (frames_of (F.parts store.now))) capability arguments result.change }
    ensures outcome { (g : Geometry) → outcome_of (objects_in (F.parts store.now)) result
        ≡ order g (objects_in (F.parts store.now)) capability word arguments }
    ensures change { (g : Geometry) (os : List Object) → HaveAnnexesOf (objects_in (F.parts store.now)) os
        → ChangesAs os result (order g os capability word arguments) }
{
    match capability {
        Capability::Page { object, access } => match page_order(word) {
            Some(order) => on_page(store, object, access, order, arguments),
            None => OrderPlan::refused(ResultCode::NoOrder),
        },
        Capability::Node { object, access } => match node_order(word) {
            Some(order) => on_node(store, object, access, order, arguments),
            None => OrderPlan::refused(ResultCode::NoOrder),
        },
        Capability::Process(process) => match process_order(word) {
            Some(order) => on_process(store, process, order, arguments),
            None => OrderPlan::refused(ResultCode::NoOrder),
        },
        Capability::Space {
            object,
            height,
            access,
        } => on_space(object, height, access, word, arguments),
        _ => on_plain(word, capability, arguments),
    }
}
