//! The authority bound. Each law is the contract of a function that does nothing.

ghost use Rattle.model_laws.specs.Confinement.{InvocationIsConfined, RunIsConfined};

/// An invocation by a process of a closed set changes no object outside the set, unless the object was free.
/// It can only make void those capabilities there that name a member. With all numbers that were free, the
/// set stays closed.
pub fn invocation_is_confined()
    ensures { InvocationIsConfined }
{}

/// Take any run of invocations and memory references by processes of a closed set, and by processes that they
/// make from free numbers. Each object outside the set that wasn't free keeps its content and its owner, but
/// capabilities in it that name a member may become void. So an object to which the set has only weak
/// capabilities is never written (EROS: confinement).
#[tactic(auto, using(crate::proofs::ConfinedRuns::run_confined))]
pub fn run_is_confined()
    ensures { RunIsConfined }
{}
