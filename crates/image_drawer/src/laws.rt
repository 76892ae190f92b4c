//! Laws of graphs. Each is the contract of an empty function.

ghost use Rattle.image_drawer.specs.Laws.{ArrowsAreHeld, BoxesAreObjects, RectanglesNest, OwnersAreOwners};
ghost use Rattle.image_drawer.specs.Part.{PartIsShown};

/// In the graph of a world's description each object in use has exactly one box; an annex shares its root's. There
/// are no other boxes.
pub fn boxes_are_objects()
    ensures { BoxesAreObjects }
{}

/// Each object that doesn't own itself is joined to its owner exactly once. No other objects are
/// joined.
pub fn owners_are_owners()
    ensures { OwnersAreOwners }
{}

/// The rectangle of a bank, with all in it, stands in that of the bank's owner, and so on up to bank 0.
pub fn rectangles_nest()
    ensures { RectanglesNest }
{}

/// For each capability of the world that names an object there is one arrow, from the holder to this object. There
/// are no other arrows.
pub fn arrows_are_held()
    ensures { ArrowsAreHeld }
{}

/// If `restrict` restricted a description to a set, its graph has the boxes of the set, and the arrows between them.
#[tactic(auto, using(crate::proofs::Parts::part_is_shown))]
pub fn part_is_shown()
    ensures { PartIsShown }
{}
