//! Laws of the check. Each is the contract of a function that does nothing.

ghost use Rattle.recovery.specs.ConsistencyLaws.{ConsistentIsSound, InconsistentIsUnsound};

/// Frames that have encodings, and for which none of reasons 8 to 10 holds, are sound.
pub fn consistent_is_sound()
    ensures { ConsistentIsSound }
{}

/// Frames for which one of reasons 8 to 10 holds aren't sound.
pub fn inconsistent_is_unsound()
    ensures { InconsistentIsUnsound }
{}
