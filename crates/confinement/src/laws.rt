//! The authority bound with trusted processes. Each law is the contract of an empty function.

ghost use Rattle.confinement.specs.Trusted.{InvocationIsConfinedBut, RunIsConfinedBut, TurnsAreConfinedBut};

/// If a set is closed but for trusted processes, an invocation by a member changes no object outside, unless it was
/// free. There are two exceptions: the root and annex of a trusted process that gets a message, and capabilities
/// outside to members, which may become void. The set with the free numbers stays closed.
pub fn invocation_is_confined()
    ensures { InvocationIsConfinedBut }
{}

/// The bound of `invocation_is_confined` holds over any run of invocations, loads and stores by members, and by
/// processes that members make from free numbers. A run may begin whenever the set is closed but for trusted
/// processes. So others may act between two runs if they leave the set closed.
pub fn run_is_confined()
    ensures { RunIsConfinedBut }
{}

/// The bound of `run_is_confined` holds over a run in which others take turns too. After their turns the world must
/// be sound, and the set, without freed members, must be closed but for trusted processes.
pub fn turns_are_confined()
    ensures { TurnsAreConfinedBut }
{}
