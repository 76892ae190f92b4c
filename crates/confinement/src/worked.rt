//! Worked examples: a world with a trusted process. Each law is the contract of an empty function.
ghost use Rattle.std.specs.Prelude.{All};
ghost use Rattle.confinement.specs.WorkedTrust.{ClientIsClosedBut, rows};
ghost use Rattle.model_laws.specs.Worked.{IsRow};

/// A process, its annex and a node form a set that is closed but for one process, which the first
/// may start.
pub fn client_is_closed_but()
    ensures { ClientIsClosedBut }
{}

/// If others act freely, this process can change a page outside: the trusted process or a third one can send it the
/// page, or store the page in the node. So the bound needs a premise about the turns of others.
pub fn others_break_the_bound()
    ensures { All IsRow rows }
{}
