// Renumbering a description for an image of other sizes.
ghost use Rattle.std.specs.Prelude.{◌≡◌, ◌≢◌, ℕ, ◌+◌, ◌≤◌, ◌<◌, ◌↔◌, ◌==◌, ◌&&◌, map, vec_capacity, IfErr, IsErrOf};
ghost use Rattle.std.specs.Prelude.{IsTrue, OnErr, OnOk};
ghost use Rattle.std.specs.List.{All, AllZip};
ghost use Rattle.layout.specs.Superblock.{IsGeometry};
ghost use Rattle.model.specs.Sound.{object_count};
ghost use Rattle.description.specs.Reading.{whole_ranges};
ghost use Rattle.home_ranges.specs.Laid.{MayBeLaid};
ghost use Rattle.image_describer.specs.Grown.{IsMovedNode, IsMovedPage, IsMovedProcess, IsNotRenumbered, IsRenumbered};
ghost use Rattle.image_describer.specs.Grown.{NamesNodes, NamesPages, grown_ranges, moved, moved_capability};
ghost use Rattle.image_describer.specs.Grown.{moved_held, moved_slot};

use description::{Description, GrowthFault, NodeEntry, PageEntry, ProcessEntry, SlotEntry};
use home_ranges::{NumberRange, lay_out};
use layout::Version;
use model::{Capability, Geometry};
use std::alloc::{AllocError, Global};

// Returns the number of an object in an image of other sizes.
fn moved(old: Geometry, new: Geometry, number: u64) -> u64
    requires old { object_count old ≤ 8192 }
    requires new { new.nodes ≤ 4096 }
    ensures { result ≡ moved old new number }
{
    if number < old.nodes || number >= old.nodes + old.pages {
        number
    } else {
        number - old.nodes + new.nodes
    }
}

// Returns a capability to the same object in an image of other sizes.
fn moved_capability(old: Geometry, new: Geometry, capability: Capability) -> Capability
    requires old { object_count old ≤ 8192 }
    requires new { new.nodes ≤ 4096 }
    ensures { result ≡ moved_capability (moved old new) capability }
{
    match capability {
        Capability::Void => Capability::Void,
        Capability::Number(number) => Capability::Number(number),
        Capability::Page { object, access } => Capability::Page {
            object: moved(old, new, object),
            access,
        },
        Capability::Node { object, access } => Capability::Node {
            object: moved(old, new, object),
            access,
        },
        Capability::Space {
            object,
            height,
            access,
        } => Capability::Space {
            object: moved(old, new, object),
            height,
            access,
        },
        Capability::Process(process) => Capability::Process(moved(old, new, process)),
        Capability::Start { process, key } => Capability::Start {
            process: moved(old, new, process),
            key,
        },
        Capability::Resume(process) => Capability::Resume(moved(old, new, process)),
        Capability::Bank(bank) => Capability::Bank(moved(old, new, bank)),
        Capability::Discrim => Capability::Discrim,
    }
}

// Returns a capability, if there is one, to the same object in an image of other sizes.
fn moved_held(old: Geometry, new: Geometry, capability: Option<Capability>) -> Option<Capability>
    requires old { object_count old ≤ 8192 }
    requires new { new.nodes ≤ 4096 }
    ensures { result ≡ moved_held (moved old new) capability }
{
    match capability {
        Some(capability) => Some(moved_capability(old, new, capability)),
        None => None,
    }
}

// An entry that can be renumbered.
trait Renumbered {
    /// The second entry is the first one renumbered. The function gives each object's new number.
    ghost IsMoved: { (ℕ → ℕ) → Self → Self → Type 0 };

    /// Renumbers the entry's object and its capabilities.
    fn renumber(&mut self, old: Geometry, new: Geometry)
        requires old { object_count old ≤ 8192 }
        requires new { new.nodes ≤ 4096 }
        ensures { IsMoved (moved old new) self.old self.new };
}

#[tactic(auto, using(description::proofs::Pairs::zip_set, description::proofs::Pairs::zip_whole))]
fn renumber_all<T: Renumbered>(old: Geometry, new: Geometry, entries: &mut [T])
    requires old { object_count old ≤ 8192 }
    requires new { new.nodes ≤ 4096 }
    ensures { AllZip (T.IsMoved (moved old new)) entries.old entries.new }
{
    for entry in entries.iter_mut() {
        entry.renumber(old, new);
    }
}

impl Renumbered for SlotEntry {
    ghost IsMoved = { λ at slot moved. moved ≡ moved_slot at slot };

    fn renumber(&mut self, old: Geometry, new: Geometry) {
        self.capability = moved_held(old, new, self.capability);
    }
}

// Renumbers the capabilities of slots.
fn move_slots(old: Geometry, new: Geometry, slots: &mut [SlotEntry])
    requires old { object_count old ≤ 8192 }
    requires new { new.nodes ≤ 4096 }
    ensures { slots.new ≡ map (moved_slot (moved old new)) slots.old }
{
    renumber_all(old, new, slots);
}

impl Renumbered for ProcessEntry {
    ghost IsMoved = { IsMovedProcess };

    fn renumber(&mut self, old: Geometry, new: Geometry) {
        self.space = moved_held(old, new, self.space);
        move_slots(old, new, self.registers.as_mut_slice());
    }
}

impl Renumbered for NodeEntry {
    ghost IsMoved = { IsMovedNode };

    fn renumber(&mut self, old: Geometry, new: Geometry) {
        move_slots(old, new, self.slots.as_mut_slice());
    }
}

impl Renumbered for PageEntry {
    ghost IsMoved = { IsMovedPage };

    fn renumber(&mut self, old: Geometry, new: Geometry) {
        self.number = moved(old, new, self.number);
    }
}

// Whether the numbers of all banks, processes and nodes are below a count.
fn names_nodes(count: u64, description: &Description) -> bool
    ensures { IsTrue result ↔ NamesNodes count description.now }
{
    description.banks.iter().all(|bank| bank.number < count)
        && description
            .processes
            .iter()
            .all(|process| process.root < count && process.annex < count)
        && description.nodes.iter().all(|node| node.number < count)
}

// Whether each page has a number in an image of other sizes.
fn names_pages(new: Geometry, description: &Description) -> bool
    requires old { object_count description.now.geometry ≤ 8192 }
    requires new { object_count new ≤ 8192 }
    requires nodes { new.nodes ≤ 4096 }
    ensures { IsTrue result ↔ NamesPages description.now.geometry new description.now }
{
    let old = description.geometry;
    let end = new.nodes + new.pages;
    description
        .pages
        .iter()
        .all(|page| moved(old, new, page.number) < end)
}

// Returns two home ranges: all nodes, and all pages.
fn whole_ranges(geometry: Geometry) -> [NumberRange; 2]
    ensures { result ≡ whole_ranges geometry }
{
    [
        NumberRange {
            first: 0,
            count: geometry.nodes,
        },
        NumberRange {
            first: geometry.nodes,
            count: geometry.pages,
        },
    ]
}

// Whether two images have the same numbers of nodes and pages.
fn has_as_many(old: Geometry, new: Geometry) -> bool
    ensures { result ≡ (old.nodes == new.nodes && old.pages == new.pages) }
{
    old.nodes == new.nodes && old.pages == new.pages
}

// Returns the home ranges for an image of other sizes: the old ones if the numbers of nodes and
// pages stay, else `whole`.
fn ranges_for<'a>(
    old: Geometry,
    new: Geometry,
    ranges: &'a [NumberRange],
    whole: &'a [NumberRange],
) -> &'a [NumberRange]
    requires { whole.now ≡ whole_ranges new }
    ensures { result.now ≡ grown_ranges old new ranges.now }
{
    if has_as_many(old, new) { ranges } else { whole }
}

// Replaces the ranges by one of all nodes and one of all pages. The vector must have memory for
// two.
fn put_whole(geometry: Geometry, ranges: &mut Vec<NumberRange>)
    requires { 2 ≤ vec_capacity ranges.old }
    ensures { ranges.new.items ≡ whole_ranges geometry }
{
    ranges.clear();
    let _ = ranges.extend_from_slice(&whole_ranges(geometry));
}

// Makes sure that the vector has memory for two ranges. It may lose its ranges.
fn make_room(alloc: Global, ranges: &mut Vec<NumberRange>) -> Result<(), AllocError>
    ensures ok { OnOk result (2 ≤ vec_capacity ranges.new) }
    ensures same { OnErr result (ranges.new ≡ ranges.old) }
    ensures full { OnErr result (vec_capacity ranges.old < 2) }
{
    if ranges.capacity() >= 2 {
        return Ok(());
    }
    *ranges = Vec::with_capacity(alloc, 2)?;
    Ok(())
}

// Replaces the home ranges by those for an image of other sizes. It needs memory only if the vector has none for two.
fn set_ranges(
    alloc: Global,
    old: Geometry,
    new: Geometry,
    ranges: &mut Vec<NumberRange>,
) -> Result<(), AllocError>
    ensures ok { OnOk result (ranges.new.items ≡ grown_ranges old new ranges.old.items) }
    ensures same { OnErr result (ranges.new ≡ ranges.old) }
    ensures full { OnErr result (vec_capacity ranges.old < 2) }
{
    if has_as_many(old, new) {
        return Ok(());
    }
    make_room(alloc, ranges)?;
    put_whole(new, ranges);
    Ok(())
}

// Returns why a description can't be renumbered for these sizes, if it can't.
#[tactic(auto, using(crate::proofs::GrownRanges::ranges_suit))]
fn check_sizes(description: &Description, new: Geometry) -> Result<(), GrowthFault>
    requires laid { MayBeLaid description.now.geometry description.now.ranges.items }
    ensures limits { OnOk result (IsGeometry new) }
    ensures nodes { OnOk result (NamesNodes new.nodes description.now) }
    ensures pages { OnOk result (NamesPages description.now.geometry new description.now) }
    ensures refused { IfErr result (λ fault. IsNotRenumbered description.now new fault) }
    ensures memory { IfErr result (λ fault. fault ≢ GrowthFault.NoMemory) }
{
    let whole = whole_ranges(new);
    let ranges = ranges_for(description.geometry, new, &description.ranges, &whole);
    // Whether ranges can be laid out doesn't depend on the version.
    if let None = lay_out(Version::NEWEST, new, ranges) {
        return Err(GrowthFault::Limits);
    }
    if !names_nodes(new.nodes, description) {
        return Err(GrowthFault::Nodes);
    }
    if !names_pages(new, description) {
        return Err(GrowthFault::Pages);
    }
    Ok(())
}

/// Renumbers a description for an image of other sizes. Nodes keep their numbers. If the number of nodes changes,
/// each page's number changes by as much, also in capabilities. If the numbers of nodes and pages stay, the home
/// ranges stay too. Otherwise they become one of all nodes and one of all pages.
///
/// Returns the first error that applies, and then changes nothing:
///
/// - `Limits`: no image may have these sizes;
/// - `Nodes`: the number of a bank, process or node is beyond the new number of nodes;
/// - `Pages`: the number of a page is beyond the last number of such an image;
/// - `NoMemory`: memory ran out. It needs memory only if the old home ranges have none for two.
pub fn grow(
    alloc: Global,
    description: &mut Description,
    geometry: Geometry,
) -> Result<(), GrowthFault>
    requires { MayBeLaid description.old.geometry description.old.ranges.items }
    ensures geometry { OnOk result (description.new.geometry ≡ geometry) }
    ensures renumbered { OnOk result (IsRenumbered description.old description.new) }
    ensures limits { OnOk result (IsGeometry geometry) }
    ensures nodes { OnOk result (NamesNodes geometry.nodes description.old) }
    ensures pages { OnOk result (NamesPages description.old.geometry geometry description.old) }
    ensures refused { IfErr result (λ fault. IsNotRenumbered description.old geometry fault) }
    ensures same { OnErr result (description.new ≡ description.old) }
    ensures memory { IsErrOf result GrowthFault.NoMemory → vec_capacity description.old.ranges < 2 }
{
    let old = description.geometry;
    check_sizes(description, geometry)?;
    if set_ranges(alloc, old, geometry, &mut description.ranges).is_err() {
        return Err(GrowthFault::NoMemory);
    }
    description.geometry = geometry;
    renumber_all(old, geometry, description.processes.as_mut_slice());
    renumber_all(old, geometry, description.nodes.as_mut_slice());
    renumber_all(old, geometry, description.pages.as_mut_slice());
    Ok(())
}
