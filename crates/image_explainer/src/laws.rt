// A law of refused images: the contract of an empty function.
ghost use Rattle.recovery.specs.Laws.{AreBadForOneReason};

/// An image is refused for at most one reason, so a fault has the number that `eros check` prints.
pub fn images_are_bad_for_one_reason()
    ensures { AreBadForOneReason }
{}
