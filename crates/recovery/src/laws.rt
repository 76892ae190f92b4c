//! Laws of what an image denotes. Each is the contract of a function that does nothing.

ghost use Rattle.recovery.specs.Laws.{DenoteOneSaved, DenotedIsNotBad, DenotedIsOneOf, DenotedIsSound};
ghost use Rattle.recovery.specs.Laws.{NotBadIsDenoted};

/// An image denotes at most one saved state.
pub fn denote_one_saved()
    ensures { DenoteOneSaved }
{}

/// If an image denotes one of some saved states, it denotes no other state. So if a crash leaves one of some
/// saved states, `Kernel::open` opens at one of these.
pub fn denoted_is_one_of()
    ensures { DenotedIsOneOf }
{}

/// If an image denotes a saved state, the state's world is sound.
#[tactic(auto, using(crate::proofs::Denoted::denoted_sound))]
pub fn denoted_is_sound()
    ensures { DenotedIsSound }
{}

/// An image that denotes a saved state is refused for none of the ten reasons.
pub fn denoted_is_not_bad()
    ensures { DenotedIsNotBad }
{}

/// If none of the ten reasons holds for an image, it denotes a saved state. So there is no other reason to
/// refuse an image.
#[tactic(auto, using(crate::proofs::Complete::not_bad_denoted))]
pub fn not_bad_is_denoted()
    ensures { NotBadIsDenoted }
{}
