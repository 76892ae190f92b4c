//! Why an image is refused: the least of the ten reasons that applies, and the object, slot, field or sector where
//! it does.
#![tactic(auto)]

mod capabilities;
mod explaining;
mod fault;
mod laws;
mod objects;
mod processes;
mod sectors;
mod text;

pub use explaining::explain;
pub use fault::{ImageFault, Misnamed, Unmatched};
pub use laws::images_are_bad_for_one_reason;
pub use sectors::{
    DirectoryPart, FramePart, GeometryPart, HeaderPart, NotCounted, NotPaired, SectorFault,
    SuperblockPart, UnitPart,
};
