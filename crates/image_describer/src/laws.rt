//! Laws of descriptions of worlds. Each is the contract of an empty function.

ghost use Rattle.image_describer.specs.Laws.{DescribedHasText, DescribedIsLaid, DescribedIsSame, GrownIsDescribed};
ghost use Rattle.image_describer.specs.Laws.{GrownToItself, TextIsRead};

/// The frames of a world's description are sound, and stand for that world at its age.
pub fn described_is_same()
    ensures { DescribedIsSame }
{}

/// The world of a world's description can be laid out.
pub fn described_is_laid()
    ensures { DescribedIsLaid }
{}

/// The description of a world, with the home ranges and version of an image, has a text.
pub fn described_has_text()
    ensures { DescribedHasText }
{}

/// If the text of a description is read, the result is that description.
#[tactic(auto, using(crate::proofs::ReadBack::text_is_read))]
pub fn text_is_read()
    ensures { TextIsRead }
{}

/// A world's description, renumbered for an image of other sizes, describes the same objects in that image.
#[tactic(auto, using(crate::proofs::GrownLaws::grown_is_described))]
pub fn grown_is_described()
    ensures { GrownIsDescribed }
{}

/// If the sizes stay, renumbering changes nothing.
pub fn grown_to_itself()
    ensures { GrownToItself }
{}
