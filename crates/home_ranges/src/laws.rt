//! Laws of homes, and of the size of images. Each is the contract of a function that does nothing.
ghost use Rattle.home_ranges.specs.Laws.{PlacesAreWithin, PlacesAreApart, NumbersAreApart, PlacesSpareLog, FramesStay};
ghost use Rattle.home_ranges.specs.Laws.{FramesAreHome, SecondTakesFewMore};

/// Homes lie after the headers and before the end, and overlap neither one another nor the log. A change of
/// other sectors keeps the frame in a home. If no number with an object's home has a log slot, the object's
/// saved frame is at home.
pub fn keep_places_apart()
    ensures within { PlacesAreWithin }
    ensures apart { PlacesAreApart }
    ensures numbers { NumbersAreApart }
    ensures log { PlacesSpareLog }
    ensures frames { FramesStay }
    ensures home { FramesAreHome }
{}

/// In version 2 an image takes at most 8 sectors more per range than in version 1.
#[tactic(auto, using(crate::proofs::LaidPlans::second_total))]
pub fn second_takes_few_more()
    ensures { SecondTakesFewMore }
{}
