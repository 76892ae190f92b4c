// Reads what an invocation needs before anything changes.
ghost use Rattle.std.specs.Prelude.{◌≡◌, ℕ, ◌<◌, ◌^◌, false, length, Some, IfOk, OnOk, IsTrue};
ghost use Rattle.model.specs.Capability.{named};
ghost use Rattle.model.specs.Invoke.{sent_by};
ghost use Rattle.model.specs.Object.{is_annex};
ghost use Rattle.model.specs.Sound.{NamesItsKind};
ghost use Rattle.model.specs.World.{annex_at, content_at, is_process};
ghost use Rattle.capability.specs.Parts.{MayFetch, objects_in};
ghost use Rattle.space_bank.specs.Banks.{AreCounted};
ghost use Rattle.gate.specs.Ordering.{AreEnough, ReadsOnlyWords, arguments_of};
ghost use Rattle.capability.specs.Parts.{FetchesOrFails};
ghost use Rattle.gate.specs.Plan.{process_named};

use crate::banking::bank_order;
use crate::node::node_order;
use capability::{Frames, objects};
use device::Failed;
use model::{Arguments, BankOrder, Capability, Invocation, NodeOrder};
use space_bank::Banks;

/// Fetches a process and its annex. Returns the annex.
pub fn fetch_process<F: Frames>(store: &mut F, banks: &Banks, process: u64) -> Result<u64, Failed>
    requires may { MayFetch F.IsUsable F.parts store.old }
    requires process { IsTrue (is_process (objects_in (F.parts store.old)) process) }
    requires annex { IsTrue (is_annex
        (content_at (objects_in (F.parts store.old))
        (annex_at (objects_in (F.parts store.old)) process))) }
    requires counted { AreCounted (F.parts store.old).geometry
        (objects_in (F.parts store.old)) banks.now }
    ensures root { OnOk result (F.IsFetched store.new process) }
    ensures annex { IfOk result (λ annex. (annex ≡ annex_at (objects_in (F.parts store.old)) process)
        × F.IsFetched store.new annex) }
    ensures fetches { FetchesOrFails F.parts F.ContinuesTo store.old store.new result }
{
    let annex = banks.annex(process);
    store.fetch(&[process, annex])?;
    Ok(annex)
}

/// Fetches what an order on a capability reads: the object that it names and, for a process, its annex.
#[tactic(auto, using(crate::proofs::Standing::named_known, space_bank::proofs::Renewing::one_all))]
#[inline(always)]
pub fn fetch_named<F: Frames>(
    store: &mut F,
    banks: &Banks,
    capability: Capability,
) -> Result<(), Failed>
    requires may { MayFetch F.IsUsable F.parts store.old }
    requires counted { AreCounted (F.parts store.old).geometry
        (objects_in (F.parts store.old)) banks.now }
    requires kind { NamesItsKind (objects_in (F.parts store.old)) capability }
    requires annex { (p : ℕ) → process_named capability ≡ Some p
        → IsTrue (is_annex (content_at (objects_in (F.parts store.old))
        (annex_at (objects_in (F.parts store.old)) p))) }
    ensures object { OnOk result ((n : ℕ) → named capability ≡ Some n → F.IsFetched store.new n) }
    ensures annex { OnOk result ((p : ℕ) → process_named capability ≡ Some p
        → F.IsFetched store.new (annex_at (objects_in (F.parts store.old)) p)) }
    ensures fetches { FetchesOrFails F.parts F.ContinuesTo store.old store.new result }
{
    if let Capability::Process(process) = capability {
        fetch_process(store, banks, process)?;
        return Ok(());
    }
    match capability.named() {
        Some(object) => store.fetch(&[object]),
        None => Ok(()),
    }
}

/// Returns the arguments of an order: two words, and the first capability that is sent. The annex of the
/// process must be fetched.
pub fn order_arguments<F: Frames>(store: &F, invocation: &Invocation, annex: u64) -> Arguments
    requires fetched { F.IsFetched store.now annex }
    requires annex { annex
        ≡ annex_at (objects_in (F.parts store.now)) invocation.now.process }
    ensures { result ≡ arguments_of (objects_in (F.parts store.now)) invocation.now }
{
    Arguments {
        first: invocation.words[1],
        second: invocation.words[2],
        capability: objects::slot(store, annex, invocation.sent[0].index()),
    }
}

// Whether an order may read the capability that is sent. If not, it does the same with any other.
#[inline(always)]
fn reads_sent_capability(invoked: Capability, word: u64) -> bool
    ensures { result ≡ false → ReadsOnlyWords invoked word }
{
    match invoked {
        Capability::Page { .. } => false,
        Capability::Node { .. } => node_order(word) == Some(NodeOrder::Store),
        Capability::Bank(_) => bank_order(word) == Some(BankOrder::Free),
        _ => true,
    }
}

/// Returns arguments with which an order does the same as with those of the invocation. Reads the capability
/// that is sent only if the order may. The annex of the process must be fetched.
#[inline(always)]
pub fn needed_arguments<F: Frames>(
    store: &F,
    invocation: &Invocation,
    annex: u64,
    invoked: Capability,
) -> Arguments
    requires fetched { F.IsFetched store.now annex }
    requires annex { annex
        ≡ annex_at (objects_in (F.parts store.now)) invocation.now.process }
    ensures { AreEnough (objects_in (F.parts store.now)) invocation.now invoked result }
{
    if reads_sent_capability(invoked, invocation.words[0]) {
        return order_arguments(store, invocation, annex);
    }
    let [_, first, second, _] = invocation.words;
    Arguments {
        first,
        second,
        capability: Capability::Void,
    }
}

/// Returns the four capabilities that are sent. The annex of the process must be fetched.
pub fn all_sent<F: Frames>(store: &F, invocation: &Invocation, annex: u64) -> [Capability; 4]
    requires fetched { F.IsFetched store.now annex }
    requires annex { annex
        ≡ annex_at (objects_in (F.parts store.now)) invocation.now.process }
    ensures { result ≡ sent_by (objects_in (F.parts store.now)) invocation.now }
{
    let [first, second, third, fourth] = invocation.sent;
    objects::four_slots(
        store,
        annex,
        first.index(),
        second.index(),
        third.index(),
        fourth.index(),
    )
}

/// A lemma as a function, which does nothing: the numbers of objects have 64 bits.
pub fn numbers_fit<F: Frames>(store: &F)
    ensures { length (F.parts store.now).headers < 2 ^ 64 }
{
    let _count = store.table().count();
}
