//! Worked examples: a world with a confined process. Each law is the contract of a function that does nothing.
ghost use Rattle.std.specs.Prelude.{All};
ghost use Rattle.model_laws.specs.WorkedConfinement.{ConfinedIsClosed, OutwardIsNotClosed, rows};
ghost use Rattle.model_laws.specs.Worked.{IsRow};

/// A process, its annex and its bank form a closed set if all its other capabilities are weak.
#[tactic(auto, using(crate::proofs::ConfinedWorld::confined_closed))]
pub fn confined_is_closed()
    ensures { ConfinedIsClosed }
{}

/// A process, its annex and its bank don't form a closed set if the process holds a node with full or
/// read-only access. Only weak access is allowed.
#[tactic(auto, using(crate::proofs::ConfinedWorld::outward_not_closed))]
pub fn outward_is_not_closed()
    ensures { OutwardIsNotClosed }
{}

/// A process of the closed set reads through weak capabilities, but can't write. It writes objects that its
/// bank makes, and frees them. If a fetch through a weak capability returned a read-only one that isn't weak,
/// the process could change a page outside.
#[tactic(auto, using(crate::proofs::ConfinedWorld::rows_right))]
pub fn confined_is_answered()
    ensures { All IsRow rows }
{}
