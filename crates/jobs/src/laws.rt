//! The law of built images: the contract of an empty function.

ghost use Rattle.jobs.specs.Laws.{BuiltIsDenoted};

/// The image that `build_image` leaves on a device can be opened and run, and so can the image that a later crash
/// leaves. It denotes the described world, at generation 0 and with an empty log.
pub fn built_is_denoted()
    ensures { BuiltIsDenoted }
{}
