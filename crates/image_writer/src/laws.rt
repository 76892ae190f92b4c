//! Laws of what a crash leaves while an image is being written. Each is the contract of a function that does
//! nothing.

ghost use Rattle.image_writer.specs.Laws.{KeptHoldsTheSame, NoneIsHeld};

/// If only the gates of an image changed, and the committed header is the same, the image holds the saved
/// frames that it held before, if any.
pub fn kept_holds_the_same()
    ensures { KeptHoldsTheSame }
{}

/// An image without a committed header holds no saved frames, so it can't be opened.
#[tactic(auto, using(crate::proofs::OldImages::none_is_held))]
pub fn none_is_held()
    ensures { NoneIsHeld }
{}
