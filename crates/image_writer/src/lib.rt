//! Writes images to devices.
#![tactic(auto)]

mod blocks;
mod closing;
mod homes;
mod image;
pub mod laws;
mod opening_sectors;
mod slots;

pub use image::{write_image, write_saved};
