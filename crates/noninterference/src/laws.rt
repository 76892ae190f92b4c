//! Noninterference. Each law is the contract of an empty function.

ghost use Rattle.noninterference.specs.Noninterference.{InvocationIsNoninterferent, RunsAreNoninterferent};

/// Take two worlds with the same objects in a set that is closed for reading in both. The same invocation by a member
/// does the same in both. Afterwards both have the same objects in the set, which stays closed for reading. The
/// invocation must not look outside: it may not make a bank allocate or report what remains, nor start a trusted
/// process.
pub fn invocation_is_noninterferent()
    ensures { InvocationIsNoninterferent }
{}

/// Two runs of the same invocations, loads and stores by members have the same answers. They end
/// with the same objects in the set, which stays closed for reading. No turn may look outside, or
/// be refused because the log is full or the machine worn.
pub fn runs_are_noninterferent()
    ensures { RunsAreNoninterferent }
{}
