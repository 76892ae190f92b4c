//! A law of described frames: the contract of an empty function.

ghost use Rattle.description.specs.Wholeness.{DescribedIsWhole};

/// In described frames each process has its root and its annex.
pub fn described_is_whole()
    ensures { DescribedIsWhole }
{}
