// The version of the layout for a new image.
ghost use Rattle.std.specs.Prelude.{◌≡◌};
ghost use Rattle.image_builder.specs.Upgraded.{new_plan};

use home_ranges::lay_out_again;
use layout::{Superblock, Version};

/// The layout version in which an old image's saved state is written to a new image.
#[derive(Clone, Copy)]
pub enum NewLayout {
    /// Version 2, `Version::NEWEST`.
    Newest,
    /// The version of the old image.
    Kept,
}

impl NewLayout {
    /// Returns the layout of the new image. It has the objects and home ranges of the old one: the ranges lie after
    /// the headers in their order, then the two halves of the log.
    pub(crate) fn lay_out(self, old: &Superblock) -> Superblock
        ensures { result ≡ new_plan self old.now }
    {
        match self {
            NewLayout::Newest => lay_out_again(Version::NEWEST, old),
            NewLayout::Kept => lay_out_again(old.version(), old),
        }
    }
}
