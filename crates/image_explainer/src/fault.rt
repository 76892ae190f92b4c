// The faults of images, with their places.
use crate::SectorFault;
use model::{Cap, Role};
use recovery::Unbanked;

/// Why an image is refused: the least of the ten reasons that applies, and the place.
#[derive(Clone, Copy)]
pub enum ImageFault {
    /// A fault of the sectors: reasons 1 to 7.
    Sectors(SectorFault),
    /// A capability that an image may not hold: reason 8.
    Capability(Misnamed),
    /// A root and an annex that don't match: reason 9.
    Process(Unmatched),
    /// A fault of the banks: reason 10.
    Bank(Unbanked),
}

/// A capability whose count is too great, or that names an object of another kind.
#[derive(Clone, Copy)]
pub struct Misnamed {
    /// The number and role of the object that holds it.
    pub holder: u64,
    pub role: Role,
    /// The slot or register that holds it; 0 for an address space.
    pub index: u64,
    pub held: Cap,
    /// The present count of the object that the capability names.
    pub current: u64,
}

/// A root and an annex that don't match.
#[derive(Clone, Copy)]
pub enum Unmatched {
    /// The number that a root names as its annex isn't an annex's, or the annex has another owner.
    Annex { root: u64, annex: u64 },
    /// Two roots name the same annex.
    Shared { first: u64, second: u64, annex: u64 },
    /// No root names this annex.
    Rootless { annex: u64 },
}
