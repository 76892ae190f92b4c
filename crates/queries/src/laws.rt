//! Laws of descriptions of images. Each is the contract of an empty function.

ghost use Rattle.queries.specs.Laws.{DescribedIsAccepted, DescribedIsDenoted, GrownIsDenoted, UnsizedIsWhole};

/// Build an image from the text that `describe_image` wrote. The image on the device denotes the world that the text
/// describes, at generation 0 and with an empty log. So does any image that a later crash leaves.
pub fn described_is_denoted()
    ensures { DescribedIsDenoted }
{}

/// Take a description of a world, with a version and home ranges that an image may have. `build` accepts it on
/// each device with enough sectors.
pub fn described_is_accepted()
    ensures { DescribedIsAccepted }
{}

/// Build an image from the text that `describe_image` wrote for other sizes. The image on the device, and any image
/// that a later crash leaves, denotes the same objects at their new numbers.
pub fn grown_is_denoted()
    ensures { GrownIsDenoted }
{}

/// If no sizes are given, `describe_image` writes the description of the image's saved state.
#[tactic(auto, using(crate::proofs::GrownImages::unsized_is_whole))]
pub fn unsized_is_whole()
    ensures { UnsizedIsWhole }
{}
