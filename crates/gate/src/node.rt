// Orders on nodes.
ghost use Rattle.std.specs.Prelude.{◌≡◌, ◌⊎◌, List};
ghost use Rattle.model.specs.declared.object.Object.{Object};
ghost use Rattle.model.specs.Capability.{diminished};
ghost use Rattle.model.specs.Order.{fetched, node_order, on_node, stored};
ghost use Rattle.capability.specs.Parts.{objects_in};
ghost use Rattle.gate.specs.Plan.{outcome_of, ChangesAs, IsFor};

use crate::reducing::plan_reduction;
use bitflags::Flags;
use capability::{Change, Frames, OrderPlan, objects};
use model::{Access, Arguments, Capability, MAX_HEIGHT, NodeOrder, ResultCode, SLOTS};

/// Returns the node order with this number, or `None`.
pub fn node_order(word: u64) -> Option<NodeOrder>
    ensures { result ≡ node_order word }
{
    match word {
        1 => Some(NodeOrder::Fetch),
        2 => Some(NodeOrder::Store),
        3 => Some(NodeOrder::Reduce),
        4 => Some(NodeOrder::MakeSpace),
        5 => Some(NodeOrder::PutNumber),
        _ => None,
    }
}

// Returns what a fetch through a node capability with this access gives: diminished if the access is weak.
fn fetched(access: Access, capability: Capability) -> Capability
    ensures { result ≡ fetched access capability }
{
    if access == Access::weak() {
        capability.diminish()
    } else {
        capability
    }
}

// Plans a store into a slot of a node: the sent capability, or a number.
fn stored(object: u64, access: Access, arguments: Arguments, capability: Capability) -> OrderPlan
    requires { (capability ≡ arguments.capability)
        ⊎ (capability ≡ Capability.Number arguments.second) }
    ensures only { (os : List Object)
        → IsFor os (Capability.Node object access) arguments result.change }
    ensures outcome { (os : List Object) → outcome_of os result
        ≡ stored os object access arguments.first capability }
    ensures change { (os : List Object)
        → ChangesAs os result (stored os object access arguments.first capability) }
{
    if !access.is_empty() {
        return OrderPlan::refused(ResultCode::NoAccess);
    }
    if arguments.first >= SLOTS as u64 {
        return OrderPlan::refused(ResultCode::BadIndex);
    }
    OrderPlan::changed(Change::Slot {
        node: object,
        slot: arguments.first as usize,
        held: capability,
    })
}

// Plans to make an address space of this height, whose top is a node.
#[tactic(auto, unfolding(model::specs::Order::on_node))]
fn space(object: u64, access: Access, arguments: Arguments) -> OrderPlan
    ensures only { (os : List Object)
        → IsFor os (Capability.Node object access) arguments result.change }
    ensures outcome { (os : List Object)
        → outcome_of os result ≡ on_node os object access NodeOrder.MakeSpace arguments }
    ensures change { (os : List Object)
        → ChangesAs os result (on_node os object access NodeOrder.MakeSpace arguments) }
{
    if arguments.first == 0 || arguments.first > MAX_HEIGHT as u64 {
        return OrderPlan::refused(ResultCode::BadIndex);
    }
    OrderPlan::given(Capability::Space {
        object,
        height: arguments.first as u8,
        access,
    })
}

/// Plans an order on a node, which must be fetched.
#[tactic(auto, unfolding(model::specs::Order::on_node))]
pub fn on_node<F: Frames>(
    store: &F,
    object: u64,
    access: Access,
    order: NodeOrder,
    arguments: Arguments,
) -> OrderPlan
    requires { F.IsFetched store.now object }
    ensures only { IsFor (objects_in (F.parts store.now))
        (Capability.Node object access) arguments result.change }
    ensures outcome { outcome_of (objects_in (F.parts store.now)) result
        ≡ on_node (objects_in (F.parts store.now)) object access order arguments }
    ensures change { (os : List Object)
        → ChangesAs os result (on_node os object access order arguments) }
{
    match order {
        NodeOrder::Fetch => {
            if arguments.first >= SLOTS as u64 {
                return OrderPlan::refused(ResultCode::BadIndex);
            }
            let held = objects::slot(store, object, arguments.first as usize);
            OrderPlan::given(fetched(access, held))
        }
        NodeOrder::Store => stored(object, access, arguments, arguments.capability),
        NodeOrder::Reduce => {
            plan_reduction(Capability::Node { object, access }, arguments.first)
        }
        NodeOrder::MakeSpace => space(object, access, arguments),
        NodeOrder::PutNumber => {
            let number = Capability::Number(arguments.second);
            stored(object, access, arguments, number)
        }
    }
}
