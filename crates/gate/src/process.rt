// Orders on processes.
ghost use Rattle.std.specs.Prelude.{◌≡◌, List, IsTrue};
ghost use Rattle.model.specs.declared.object.Object.{Object};
ghost use Rattle.model.specs.Order.{on_process, process_order};
ghost use Rattle.model.specs.World.{annex_at, is_process};
ghost use Rattle.capability.specs.Parts.{objects_in};
ghost use Rattle.gate.specs.Plan.{outcome_of, ChangesAs, HaveAnnexesOf, IsFor};

use capability::{Change, Frames, OrderPlan, objects, roots};
use model::{Arguments, Capability, ProcessOrder, REGISTERS, ResultCode, State};

// How many words of a message the root of a process has.
const ROOT_WORDS: u64 = 4;

/// Returns the process order with this number, or `None`.
pub fn process_order(word: u64) -> Option<ProcessOrder>
    ensures { result ≡ process_order word }
{
    match word {
        1 => Some(ProcessOrder::GetRegister),
        2 => Some(ProcessOrder::PutRegister),
        3 => Some(ProcessOrder::GetWord),
        4 => Some(ProcessOrder::PutWord),
        5 => Some(ProcessOrder::MakeStart),
        6 => Some(ProcessOrder::GetState),
        7 => Some(ProcessOrder::SetState),
        8 => Some(ProcessOrder::GetSpace),
        9 => Some(ProcessOrder::SetSpace),
        _ => None,
    }
}

// Plans to put the capability that was sent into a register of a process, other than register 0.
#[tactic(auto, unfolding(model::specs::Order::on_process))]
fn put_register(process: u64, annex: u64, arguments: Arguments) -> OrderPlan
    ensures only { (os : List Object) → annex ≡ annex_at os process
        → IsFor os (Capability.Process process) arguments result.change }
    ensures outcome { (os : List Object) → annex ≡ annex_at os process
        → outcome_of os result ≡ on_process os process ProcessOrder.PutRegister arguments }
    ensures change { (os : List Object) → annex ≡ annex_at os process
        → ChangesAs os result (on_process os process ProcessOrder.PutRegister arguments) }
{
    if arguments.first == 0 || arguments.first >= REGISTERS as u64 {
        return OrderPlan::refused(ResultCode::BadIndex);
    }
    OrderPlan::changed(Change::Register {
        process,
        annex,
        register: arguments.first as usize,
        held: arguments.capability,
    })
}

// Plans to put a word into the root of a process.
#[tactic(auto, unfolding(model::specs::Order::on_process))]
fn put_word(process: u64, arguments: Arguments) -> OrderPlan
    ensures only { (os : List Object)
        → IsFor os (Capability.Process process) arguments result.change }
    ensures outcome { (os : List Object)
        → outcome_of os result ≡ on_process os process ProcessOrder.PutWord arguments }
    ensures change { (os : List Object)
        → ChangesAs os result (on_process os process ProcessOrder.PutWord arguments) }
{
    if arguments.first >= ROOT_WORDS {
        return OrderPlan::refused(ResultCode::BadIndex);
    }
    OrderPlan::changed(Change::RootWord {
        process,
        index: arguments.first as usize,
        word: arguments.second,
    })
}

// Plans to make a start capability for a process, with a key.
#[tactic(auto, unfolding(model::specs::Order::on_process))]
fn make_start(process: u64, arguments: Arguments) -> OrderPlan
    ensures only { (os : List Object)
        → IsFor os (Capability.Process process) arguments result.change }
    ensures outcome { (os : List Object)
        → outcome_of os result ≡ on_process os process ProcessOrder.MakeStart arguments }
    ensures change { (os : List Object)
        → ChangesAs os result (on_process os process ProcessOrder.MakeStart arguments) }
{
    if arguments.first > u16::MAX as u64 {
        return OrderPlan::refused(ResultCode::BadIndex);
    }
    OrderPlan::given(Capability::Start {
        process,
        key: arguments.first as u16,
    })
}

// Plans to set the state of a process: 0 makes it available, 1 running.
#[tactic(auto, unfolding(model::specs::Order::on_process))]
fn set_state(process: u64, arguments: Arguments) -> OrderPlan
    ensures only { (os : List Object)
        → IsFor os (Capability.Process process) arguments result.change }
    ensures outcome { (os : List Object)
        → outcome_of os result ≡ on_process os process ProcessOrder.SetState arguments }
    ensures change { (os : List Object)
        → ChangesAs os result (on_process os process ProcessOrder.SetState arguments) }
{
    let state = match arguments.first {
        0 => State::Available,
        1 => State::Running,
        _ => return OrderPlan::refused(ResultCode::BadIndex),
    };
    OrderPlan::changed(Change::SetState { process, state })
}

// Plans to set the address space of a process.
#[tactic(auto, unfolding(model::specs::Order::on_process))]
fn set_space(process: u64, arguments: Arguments) -> OrderPlan
    ensures only { (os : List Object)
        → IsFor os (Capability.Process process) arguments result.change }
    ensures outcome { (os : List Object)
        → outcome_of os result ≡ on_process os process ProcessOrder.SetSpace arguments }
    ensures change { (os : List Object)
        → ChangesAs os result (on_process os process ProcessOrder.SetSpace arguments) }
{
    let capability = arguments.capability;
    if !capability.may_be_space() {
        return OrderPlan::refused(ResultCode::BadCapability);
    }
    OrderPlan::changed(Change::Space {
        process,
        held: capability,
    })
}

/// Plans an order on a process, whose root and annex must be fetched.
#[tactic(auto, unfolding(model::specs::Order::on_process))]
pub fn on_process<F: Frames>(
    store: &F,
    process: u64,
    order: ProcessOrder,
    arguments: Arguments,
) -> OrderPlan
    requires root { F.IsFetched store.now process }
    requires annex { F.IsFetched store.now
        (annex_at (objects_in (F.parts store.now)) process) }
    requires process { IsTrue (is_process (objects_in (F.parts store.now)) process) }
    ensures only { IsFor (objects_in (F.parts store.now))
        (Capability.Process process) arguments result.change }
    ensures outcome { outcome_of (objects_in (F.parts store.now)) result
        ≡ on_process (objects_in (F.parts store.now)) process order arguments }
    ensures change { (os : List Object)
        → HaveAnnexesOf (objects_in (F.parts store.now)) os
        → ChangesAs os result (on_process os process order arguments) }
{
    let first = arguments.first;
    let annex = objects::annex(store, process);
    match order {
        ProcessOrder::GetRegister if first < REGISTERS as u64 => {
            OrderPlan::given(objects::slot(store, annex, first as usize))
        }
        ProcessOrder::PutRegister => put_register(process, annex, arguments),
        ProcessOrder::GetWord if first < ROOT_WORDS => {
            OrderPlan::replying(roots::word(store, process, first as usize), 0)
        }
        ProcessOrder::PutWord => put_word(process, arguments),
        ProcessOrder::MakeStart => make_start(process, arguments),
        ProcessOrder::GetState => {
            let state = roots::state(store, process);
            OrderPlan::replying(state.number(), roots::key(store, process) as u64)
        }
        ProcessOrder::SetState => set_state(process, arguments),
        ProcessOrder::GetSpace => OrderPlan::given(roots::space(store, process)),
        ProcessOrder::SetSpace => set_space(process, arguments),
        _ => OrderPlan::refused(ResultCode::BadIndex),
    }
}
