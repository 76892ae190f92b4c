// The consistency check of a checkpoint (EROS): whether the world of frames that have encodings is sound, and
// if not, why.
mod banks;
mod capabilities;
mod checking;
pub mod laws;
mod processes;
mod reason;
mod table;

pub use banks::find_unbanked;
pub use capabilities::{is_named, names_its_role};
pub use checking::check;
pub use processes::{Noted, is_annex_for, read_notes};
pub use reason::Unbanked;
pub use table::has_role;
