//! Seals of rows of bytes. A sealed row ends in the sums of the bytes before them: a change of few bits breaks the
//! seal.
#![tactic(auto)]

mod laws;
mod sealing;
mod sums;

pub use laws::{damage_is_seen, seals_are_sums};
pub use sealing::{is_sealed, seal};
pub use sums::{SUMS_BYTES, Sums, put_sums, sums_at, sums_of};
