//! Building images from descriptions and from older images. If the objects that a table describes form a sound world,
//! they are written to a device. `upgrade` writes the saved state of an old image to another device, in version 2 of
//! the layout or in the old version.
#![tactic(auto)]

mod blueprint;
mod building;
mod closable;
mod new_layout;
mod planning;
mod upgrade_fault;
mod upgrading;
mod worlds;
mod writing;

pub use blueprint::Blueprint;
pub use building::{build, sectors_needed};
pub use closable::ClosableDevice;
pub use description::BuildFault;
pub use new_layout::NewLayout;
pub use upgrade_fault::UpgradeFault;
pub use upgrading::{OldImage, upgrade, upgrade_and_count, upgraded_sectors};
