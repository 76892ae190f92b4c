// The sealed structures of version 3: headers, gates, directories, pages and clusters.
mod cluster;
mod directory;
mod gate;
mod header;
mod laws;
mod page;
mod root;
mod sector;

pub use cluster::{is_cluster, seal_cluster};
pub use directory::{SECTOR_ENTRIES, decode_entries, encode_entries};
pub use gate::{decode_numbered_gate, encode_numbered_gate};
pub use header::{SealedHeader, decode_sealed_header, encode_sealed_header};
pub use laws::{
    damage_is_seen, gates_are_majorities, one_old_block_is_seen, spell_one_sealed_value,
};
pub use page::{
    PageHeader, decode_page, decode_page_header, encode_page_header, is_summed, seal_page,
};
pub use root::{add_sector, add_unit, remove_unit};
pub(crate) use sector::SEAL_AT;
