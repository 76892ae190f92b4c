//! Worked examples: two worlds that differ outside a set. Each law is the contract of an empty function.
ghost use Rattle.std.specs.Prelude.{All};
ghost use Rattle.model_laws.specs.Worked.{IsRow};
ghost use Rattle.noninterference.specs.WorkedReads.{AreSameForReader, rows};

/// A process, its annex, its bank and a node that it holds weakly are equal in both worlds. They form a set that
/// is closed for reading but for one process, which the first may start.
pub fn worlds_are_same_for_reader()
    ensures { AreSameForReader }
{}

/// The answers differ if the process makes its bank allocate or report what remains, or starts the other process.
/// So the law needs its premise about looking outside.
pub fn what_looks_outside_differs()
    ensures { All IsRow rows }
{}
