// Reads and writes the frames of objects, and whole sectors, of any device. The caller says where a frame
// lies. The contracts say what each call does to the device, and when it fails.
mod frames;
mod sectors;

pub use frames::{read_frame, read_header, write_frame, write_page};
pub use sectors::{read_sectors, write_sectors};
