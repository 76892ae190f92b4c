// Finding the place of what is wrong with the sectors of an image: reasons 1 to 7.
mod directory;
mod fault;
mod finding;
mod frame;
mod header;
mod reading;
mod slots;
mod superblock;
mod unit;

pub use fault::{
    DirectoryPart, FramePart, GeometryPart, HeaderPart, NotCounted, NotPaired, SectorFault,
    SuperblockPart, UnitPart,
};
pub(crate) use finding::find_place;
