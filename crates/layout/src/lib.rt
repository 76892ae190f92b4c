//! The bytes of an image. Each structure has one encoding, and its decoder accepts no other bytes. Other functions
//! read and write frames and sectors of any device.
#![tactic(auto)]

mod bad_image;
mod block;
mod body;
mod bytes;
mod capability;
mod directory;
mod extent;
mod fields;
mod frame;
mod frame_io;
mod front;
mod gate;
mod half;
mod header;
mod homes;
mod laws;
mod node_frame;
mod open_fault;
mod page_frame;
mod sealed;
mod shape;
mod slots;
mod superblock;
mod version;

pub use bad_image::BadImage;
pub use block::{BLOCK_BYTES, copy_frame, put_frame, put_sums, unpack_node, unpack_page};
pub use body::{Body, Scratch};
pub use bytes::{are_zeros, blank, blank_from};
pub use capability::{CAPABILITY_BYTES, decode_capability, encode_capability};
pub use directory::{ENTRY_BYTES, Entry, MAX_LOG, decode_directory, encode_directory};
pub use extent::{Extent, HomeRange, aligned, directory_length, half_extent, range_extent};
pub use fields::{header_in, sequence_in, total_in};
pub use frame::{decode_frame, decode_in_block, encode_frame};
pub use frame_io::{read_frame, read_header, read_sectors, write_frame, write_page, write_sectors};
pub use gate::{Gate, decode_gate, encode_gate};
pub use half::Half;
pub use header::{CheckpointHeader, decode_header, encode_header, is_header};
pub use laws::{denote_one_state, spell_one_value, what_is_spelt_is_read};
pub use node_frame::NODE_FRAME_BYTES;
pub use open_fault::OpenFault;
pub use page_frame::{PAGE_FRAME_BYTES, encode_page};
pub use sealed::{
    PageHeader, SECTOR_ENTRIES, SealedHeader, add_sector, add_unit, damage_is_seen, decode_entries,
    decode_numbered_gate, decode_page, decode_page_header, decode_sealed_header, encode_entries,
    encode_numbered_gate, encode_page_header, encode_sealed_header, gates_are_majorities,
    is_cluster, is_summed, one_old_block_is_seen, remove_unit, seal_cluster, seal_page,
    spell_one_sealed_value,
};
pub use shape::Shape;
pub use superblock::{
    MAX_NODES, MAX_PAGES, MAX_RANGES, MIN_LOG, MIN_NODES, Superblock, decode_superblock,
    encode_superblock,
};
pub use version::{Row, Version};
