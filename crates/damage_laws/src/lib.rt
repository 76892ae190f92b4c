//! The laws of damage: what an image of version 3 encodes after some of its bits have changed.
#![tactic(auto)]

mod laws;

pub use laws::{damage_changes_nothing, damage_is_seen, good_images_exist, old_bytes_are_refused};
