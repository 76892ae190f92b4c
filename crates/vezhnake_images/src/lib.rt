//! The answers of `eros build`, `check`, `info`, `describe` and `explain`, over the bytes of images and texts instead
//! of files. `vezhnake_c` offers these functions to C.
#![tactic(auto)]

mod building;
mod checking;
mod describing;
mod diagnosing;
mod image_device;
mod image_status;
mod no_file;
mod raw_info;

pub use building::build_bytes;
pub use checking::check_bytes;
pub use describing::describe_bytes;
pub use diagnosing::{explain_bytes, explain_text};
pub use image_status::ImageStatus;
pub use raw_info::{RawInfo, RawRange};
