//! Laws of chains. Each is the contract of an empty function.

ghost use Rattle.reach.specs.Laws.{ClosedSetsAre, ReachIsChange, StepsAreAuthority};

/// A set is closed for a purpose exactly if no step leaves it.
#[tactic(auto, using(crate::proofs::Chains::steps_are_authority))]
pub fn steps_are_authority()
    ensures { StepsAreAuthority }
{}

/// An object can change or read another exactly if the least closed set that contains the first contains the
/// second.
pub fn reach_is_change()
    ensures { ReachIsChange }
{}

/// For the purpose to change, the closed sets are those that are closed but for trusted processes (crate
/// `confinement`). For the purpose to read, they are those closed for reading but for trusted processes (crate
/// `noninterference`).
#[tactic(auto, using(crate::proofs::Chains::closed_sets_are))]
pub fn closed_sets_are()
    ensures { ClosedSetsAre }
{}
