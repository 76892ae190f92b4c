// The task of one run of this program.
use devices::Outcome;
use image_builder::NewLayout;
use object_cache::Capacity;
use std::alloc::Global;

/// What is done over a device that stops after some calls.
#[derive(Clone, Copy)]
pub(crate) enum Deed {
    /// Run the script, with all objects in memory or with a cache of this capacity.
    Run(Option<Capacity>),
    /// Write the image to a new device; the old one stops.
    StopOld(NewLayout),
    /// Write the image to a new device, which stops.
    StopNew(NewLayout),
}

/// The inputs of a deed.
#[derive(Clone, Copy)]
pub(crate) struct Task<'a> {
    pub(crate) alloc: Global,
    /// The device's sectors at the start.
    pub(crate) image: &'a [u8],
    /// The script during which the device stops; for an upgrade or a copy, the first sectors of the new device.
    pub(crate) script: &'a [u8],
    /// The lines for the same kernel after the stop.
    pub(crate) tail: &'a [u8],
    /// The lines for a last kernel. It opens the device as the others left it, with all objects in memory.
    pub(crate) last: &'a [u8],
}

/// Returns the outcome of a power cut that a word names: `keep`, `drop`, or a byte; or `None`.
pub(crate) fn outcome_of(word: &str) -> Option<Outcome> {
    match word {
        "keep" => Some(Outcome::Keep),
        "drop" => Some(Outcome::Drop),
        byte => match byte.parse::<u8>() {
            Ok(byte) => Some(Outcome::Fill(byte)),
            Err(_) => None,
        },
    }
}
