// Orders on pages.
ghost use Rattle.std.specs.Prelude.{◌≡◌, List};
ghost use Rattle.model.specs.declared.object.Object.{Object};
ghost use Rattle.model.specs.Order.{on_page, page_order};
ghost use Rattle.capability.specs.Parts.{objects_in};
ghost use Rattle.gate.specs.Plan.{outcome_of, ChangesAs, IsFor};

use crate::reducing::plan_reduction;
use bitflags::Flags;
use capability::{Change, Frames, OrderPlan, objects};
use model::{Access, Arguments, Capability, PageOrder, ResultCode, WORDS};

/// Returns the page order with this number, or `None`.
pub fn page_order(word: u64) -> Option<PageOrder>
    ensures { result ≡ page_order word }
{
    match word {
        1 => Some(PageOrder::Read),
        2 => Some(PageOrder::Write),
        3 => Some(PageOrder::Reduce),
        _ => None,
    }
}

/// Plans an order on a page, which must be fetched.
#[tactic(auto, unfolding(model::specs::Order::on_page))]
pub fn on_page<F: Frames>(
    store: &F,
    object: u64,
    access: Access,
    order: PageOrder,
    arguments: Arguments,
) -> OrderPlan
    requires { F.IsFetched store.now object }
    ensures only { IsFor (objects_in (F.parts store.now))
        (Capability.Page object access) arguments result.change }
    ensures outcome { outcome_of (objects_in (F.parts store.now)) result
        ≡ on_page (objects_in (F.parts store.now)) object access order arguments }
    ensures change { (os : List Object)
        → ChangesAs os result (on_page os object access order arguments) }
{
    match order {
        PageOrder::Read => {
            if arguments.first >= WORDS as u64 {
                return OrderPlan::refused(ResultCode::BadIndex);
            }
            OrderPlan::replying(objects::word(store, object, arguments.first as usize), 0)
        }
        PageOrder::Write => {
            if !access.is_empty() {
                return OrderPlan::refused(ResultCode::NoAccess);
            }
            if arguments.first >= WORDS as u64 {
                return OrderPlan::refused(ResultCode::BadIndex);
            }
            OrderPlan::changed(Change::Word {
                page: object,
                index: arguments.first as usize,
                word: arguments.second,
            })
        }
        PageOrder::Reduce => {
            plan_reduction(Capability::Page { object, access }, arguments.first)
        }
    }
}
