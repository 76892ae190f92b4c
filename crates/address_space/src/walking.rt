// The walk through an address space.
ghost use Rattle.std.specs.Prelude.{◌≡◌, ◌-◌, ◌*◌, ◌/◌, ◌%◌, ◌^◌, ◌<◌, ◌≤◌, IfOk};
ghost use Rattle.model.specs.Capability.{union};
ghost use Rattle.model.specs.Sound.{MayBeHeld};
ghost use Rattle.model.specs.Walk.{path, walk as walked, walk_along};
ghost use Rattle.model.specs.World.{slot_at};
ghost use Rattle.capability.specs.Parts.{AreSound, objects_in};
ghost use Rattle.address_space.specs.Reaches.{ReachesPage, allowed, reported};
ghost use Rattle.capability.specs.Parts.{FetchesOrFails};

use crate::fetching::fetch_one;
use bitflags::Flags;
use capability::{Access, Capability, Frames, objects};
use device::Failed;
use model::{MemoryFault, SLOTS, WORDS};

/// The page that a load or a store reaches.
#[derive(Clone, Copy)]
pub struct Reached {
    /// The number of the page.
    pub page: u64,
    /// The union of the accesses of all capabilities on the way to the page. It takes a whole word, because
    /// copies of a struct with padding are slow.
    pub access: u64,
}

impl Reached {
    // Returns the page that a capability with this access names.
    fn at(page: u64, access: Access) -> Reached
        ensures { result ≡ record { page = page; access = access.0 } }
    {
        Reached {
            page,
            access: u64::from(access.bits()),
        }
    }
}

// A tree of nodes, and the access with which it is reached.
#[derive(Clone, Copy)]
struct Tree {
    node: u64,
    height: u8,
    access: Access,
}

impl Tree {
    fn at(node: u64, height: u8, access: Access) -> Tree
        ensures { result ≡ record { node = node; height = height; access = access } }
    {
        Tree {
            node,
            height,
            access,
        }
    }
}

/// Walks through the address space that `capability` names, to the page with an address, for a load or for a store
/// (EROS: an address space is a page, or a tree of nodes 1 to 4 levels high).
///
/// An address is the number of a word, and a page has 512 words. A page alone is a space of one page. In a
/// tree of height h the index of the page, written as h digits to base 32, gives the slots on the way, from
/// the most significant digit on. If a capability on the way is read-only or weak, so is all below it.
///
/// A memory fault says why the walk stops: `NoSpace` if the capability is void, `Malformed` if it is no
/// address space, `Beyond` if the space has no page with that index, `Hole` at a void slot, and `Malformed`
/// at a slot that doesn't hold the next level (at height 1 a page, above it a tree one level lower). A stale
/// capability counts as void, so on the way it is a hole. `ReadOnly` is for a store, if any capability on the
/// way restricts the access.
///
/// Fetches at most four nodes, one after the other, but not the page. No object changes. Fails exactly if the device
/// fails.
pub fn walk<F: Frames>(
    frames: &mut F,
    capability: Capability,
    address: u64,
    for_write: bool,
) -> Result<Result<Reached, MemoryFault>, Failed>
    requires usable { F.IsUsable frames.old }
    requires sound { AreSound (F.parts frames.old) }
    requires held { MayBeHeld (objects_in (F.parts frames.old)) capability }
    ensures reached { IfOk result (λ reached. reported reached ≡ allowed for_write
        (walked (objects_in (F.parts frames.old)) capability (address / 512))) }
    ensures page { IfOk result (ReachesPage (objects_in (F.parts frames.old))) }
    ensures fetches { FetchesOrFails F.parts F.ContinuesTo frames.old frames.new result }
{
    match find(frames, capability, address / WORDS as u64)? {
        Ok(found) if for_write && found.access != 0 => Ok(Err(MemoryFault::ReadOnly)),
        reached => Ok(reached),
    }
}

// Finds the page with an index in an address space.
#[tactic(auto, unfolding(model::specs::Walk::walk))]
fn find<F: Frames>(
    frames: &mut F,
    capability: Capability,
    index: u64,
) -> Result<Result<Reached, MemoryFault>, Failed>
    requires usable { F.IsUsable frames.old }
    requires sound { AreSound (F.parts frames.old) }
    requires held { MayBeHeld (objects_in (F.parts frames.old)) capability }
    ensures reached { IfOk result (λ reached.
        reported reached ≡ walked (objects_in (F.parts frames.old)) capability index) }
    ensures page { IfOk result (ReachesPage (objects_in (F.parts frames.old))) }
    ensures fetches { FetchesOrFails F.parts F.ContinuesTo frames.old frames.new result }
{
    match capability {
        Capability::Void => Ok(Err(MemoryFault::NoSpace)),
        Capability::Page { object, access } => {
            if index != 0 {
                return Ok(Err(MemoryFault::Beyond));
            }
            Ok(Ok(Reached::at(object, access)))
        }
        Capability::Space {
            object,
            height,
            access,
        } => {
            if index >= page_count(height) {
                return Ok(Err(MemoryFault::Beyond));
            }
            descend(frames, Tree::at(object, height, access), index)
        }
        _ => Ok(Err(MemoryFault::Malformed)),
    }
}

// Finds the page with an index in a tree.
#[tactic(auto, using(crate::proofs::Known::still_sound, crate::proofs::Known::still_held))]
fn descend<F: Frames>(
    frames: &mut F,
    tree: Tree,
    index: u64,
) -> Result<Result<Reached, MemoryFault>, Failed>
    requires usable { F.IsUsable frames.old }
    requires sound { AreSound (F.parts frames.old) }
    requires held { MayBeHeld (objects_in (F.parts frames.old)) (Capability.Space tree.node tree.height tree.access) }
    ensures reached { IfOk result (λ reached. reported reached ≡ walk_along (objects_in (F.parts frames.old))
        (Capability.Space tree.node tree.height tree.access) (path tree.height index)) }
    ensures page { IfOk result (ReachesPage (objects_in (F.parts frames.old))) }
    ensures fetches { FetchesOrFails F.parts F.ContinuesTo frames.old frames.new result }
{
    let mut at = tree;
    loop {
        match next_slot(frames, at, index)? {
            Capability::Void => return Ok(Err(MemoryFault::Hole)),
            Capability::Page { object, access } => {
                if at.height != 1 {
                    return Ok(Err(MemoryFault::Malformed));
                }
                return Ok(Ok(Reached::at(object, at.access.union(access))));
            }
            Capability::Space {
                object,
                height,
                access,
            } => {
                if at.height - 1 != height {
                    return Ok(Err(MemoryFault::Malformed));
                }
                at = Tree::at(object, height, at.access.union(access));
            }
            _ => return Ok(Err(MemoryFault::Malformed)),
        }
    }
}

// Returns the capability in the top node of a tree that leads to the page with an index.
fn next_slot<F: Frames>(frames: &mut F, tree: Tree, index: u64) -> Result<Capability, Failed>
    requires usable { F.IsUsable frames.old }
    requires sound { AreSound (F.parts frames.old) }
    requires held { MayBeHeld (objects_in (F.parts frames.old))
        (Capability.Space tree.node tree.height tree.access) }
    ensures slot { IfOk result (λ slot.
        slot ≡ slot_at (objects_in (F.parts frames.old)) tree.node
        (index / 32 ^ (tree.height - 1) % 32)) }
    ensures held { IfOk result (MayBeHeld (objects_in (F.parts frames.old))) }
    ensures fetches { FetchesOrFails F.parts F.ContinuesTo frames.old frames.new result }
{
    fetch_one(frames, tree.node)?;
    Ok(objects::slot(frames, tree.node, digit(index, tree.height - 1)))
}

// How many bits of a page's index select the slots of `levels` levels: five for each digit to base 32.
fn bits(levels: u8) -> u32
    requires { levels ≤ 4 }
    ensures { result ≡ 5 * levels }
{
    5 * u32::from(levels)
}

// Returns how many pages a tree of this height may have.
#[tactic(auto, using(crate::proofs::Paths::bits_power, crate::proofs::Paths::fits_64, crate::proofs::Paths::positive))]
fn page_count(height: u8) -> u64
    requires { height ≤ 4 }
    ensures count { result ≡ 32 ^ height }
    ensures some { 0 < result }
{
    1 << bits(height)
}

// Returns the slot on the way to a page, in a node that has `level` levels below it.
#[tactic(auto, using(crate::proofs::Paths::bits_power))]
fn digit(index: u64, level: u8) -> usize
    requires { level < 4 }
    ensures { result ≡ index / 32 ^ level % 32 }
{
    (index >> bits(level)) as usize % SLOTS
}
