// The entries of a description.

use home_ranges::NumberRange;
use model::{Capability, Geometry, State};

/// A slot or register, with its capability.
#[derive(Clone, Copy)]
pub struct SlotEntry {
    /// The index of the slot or the register.
    pub index: u64,
    /// The capability in it, or `None` if the text isn't a capability's.
    pub capability: Option<Capability>,
}

/// A word of a page, with its value.
#[derive(Clone, Copy)]
pub struct WordEntry {
    /// The index of the word.
    pub index: u64,
    pub word: u64,
}

/// A bank.
#[derive(Clone, Copy)]
pub struct BankEntry {
    pub number: u64,
    /// The number of the bank that owns this bank.
    pub owner: u64,
    pub limit: u64,
}

/// A process.
#[derive(Drop)]
pub struct ProcessEntry {
    pub root: u64,
    pub annex: u64,
    /// The number of the bank that owns the root and the annex.
    pub owner: u64,
    /// The state of the process, or `None` if the text isn't a state's.
    pub state: Option<State>,
    pub key: u64,
    pub words: [u64; 4],
    /// The address space, or `None` if the text isn't a capability's.
    pub space: Option<Capability>,
    pub registers: Vec<SlotEntry>,
}

/// A node.
#[derive(Drop)]
pub struct NodeEntry {
    pub number: u64,
    pub owner: u64,
    pub slots: Vec<SlotEntry>,
}

/// A page.
#[derive(Drop)]
pub struct PageEntry {
    pub number: u64,
    pub owner: u64,
    pub words: Vec<WordEntry>,
}

/// The content of an image. Numbers without an entry are free, slots without one void, words
/// without one 0.
#[derive(Drop)]
pub struct Description {
    pub geometry: Geometry,
    /// The number of the image's layout version.
    pub layout: u64,
    pub age: u64,
    /// The home ranges, in the order in which they lie in the image.
    pub ranges: Vec<NumberRange>,
    pub banks: Vec<BankEntry>,
    pub processes: Vec<ProcessEntry>,
    pub nodes: Vec<NodeEntry>,
    pub pages: Vec<PageEntry>,
}
