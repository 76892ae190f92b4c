// The world that a description names.
ghost use Rattle.std.specs.Prelude.{◌≡◌, vec_len, IfErr, IfOk, OnOk};
ghost use Rattle.layout.specs.Superblock.{IsGeometry};
ghost use Rattle.model.specs.Frame.{frames_in};
ghost use Rattle.model.specs.Keepable.{AreKeepable};
ghost use Rattle.model.specs.Sound.{object_count};
ghost use Rattle.model.specs.Keepable.{IsTarget};
ghost use Rattle.description.specs.Broken.{AllHave, BreaksWorld};
ghost use Rattle.description.specs.Described.{HasFields, HasNumbers, IsDescribed, IsWorldFault};
ghost use Rattle.description.specs.Outcomes.{world_fault};

use crate::fields::misfilled;
use crate::numbers::misnumbered;
use crate::objects::{lay_annexes, lay_banks, lay_nodes, lay_pages, lay_roots};
use crate::targets::{OfItsKind, failing};
use crate::world::World;
use crate::{Description, WorldFault};
use std::alloc::{AllocError, Global};

// Returns the first flaw in the fields of a description; if there is none, the first in its
// capabilities.
fn check_objects(description: &Description) -> Result<(), WorldFault>
    requires { HasNumbers description.now }
    ensures fields { OnOk result (HasFields description.now) }
    ensures targets { OnOk result (AllHave (IsTarget description.now.geometry) description.now) }
    ensures place { IfErr result (BreaksWorld description.now) }
    ensures fault { IfErr result (λ why. IsWorldFault description.now (world_fault why)) }
{
    if let Some(part) = misfilled(description) {
        return Err(WorldFault::Field(part));
    }
    match failing(&OfItsKind::new(description.geometry), description) {
        Some(held) => Err(WorldFault::Target(held)),
        None => Ok(()),
    }
}

// Returns the first reason why a description has no world, if there is one.
fn check(alloc: Global, description: &Description) -> Result<(), WorldFault>
    requires { IsGeometry description.now.geometry }
    ensures numbers { OnOk result (HasNumbers description.now) }
    ensures fields { OnOk result (HasFields description.now) }
    ensures targets { OnOk result (AllHave (IsTarget description.now.geometry) description.now) }
    ensures place { IfErr result (BreaksWorld description.now) }
    ensures fault { IfErr result (λ why. IsWorldFault description.now (world_fault why)) }
{
    let found = misnumbered(alloc, description)?;
    match found {
        Some(number) => Err(WorldFault::Number(number)),
        None => check_objects(description),
    }
}

// Lays out the world of a description that passed `check`. Fails only if memory runs out.
fn lay_described(alloc: Global, description: &Description) -> Result<World, AllocError>
    requires geometry { IsGeometry description.now.geometry }
    requires numbers { HasNumbers description.now }
    requires fields { HasFields description.now }
    requires targets { AllHave (IsTarget description.now.geometry) description.now }
    ensures described { IfOk result (λ w.
        IsDescribed description.now (frames_in w.headers.items w.contents.items)) }
    ensures keepable { IfOk result (λ w. AreKeepable description.now.geometry 0
        (frames_in w.headers.items w.contents.items)) }
    ensures headers { IfOk result (λ w.
        vec_len w.headers ≡ object_count description.now.geometry) }
    ensures contents { IfOk result (λ w.
        vec_len w.contents ≡ object_count description.now.geometry) }
{
    let count = description.geometry.nodes + description.geometry.pages;
    let mut world = World::free(alloc, count as usize)?;
    lay_banks(&mut world, &description.banks);
    lay_roots(&mut world, &description.processes);
    lay_annexes(alloc, &mut world, &description.processes)?;
    lay_nodes(alloc, &mut world, &description.nodes)?;
    lay_pages(alloc, &mut world, &description.pages)?;
    Ok(world)
}

/// Returns the world of a description: its objects at their numbers, and all other numbers free. All counts are 0.
///
/// Fails with the first that applies, and its first place:
/// - `Number`: a number is out of range for its kind, or occurs twice;
/// - `Field`: a field is malformed, or a slot, register or word occurs twice;
/// - `Target`: a capability names a number that no object of its kind can have.
///
/// Fails with `NoMemory` if memory runs out, whatever else applies.
pub fn lay_world(alloc: Global, description: &Description) -> Result<World, WorldFault>
    requires { IsGeometry description.now.geometry }
    ensures described { IfOk result (λ w.
        IsDescribed description.now (frames_in w.headers.items w.contents.items)) }
    ensures keepable { IfOk result (λ w. AreKeepable description.now.geometry 0
        (frames_in w.headers.items w.contents.items)) }
    ensures headers { IfOk result (λ w.
        vec_len w.headers ≡ object_count description.now.geometry) }
    ensures contents { IfOk result (λ w.
        vec_len w.contents ≡ object_count description.now.geometry) }
    ensures named { IfOk result (λ _. HasNumbers description.now × HasFields description.now) }
    ensures targets { OnOk result (AllHave (IsTarget description.now.geometry) description.now) }
    ensures place { IfErr result (BreaksWorld description.now) }
    ensures fault { IfErr result (λ why. IsWorldFault description.now (world_fault why)) }
{
    check(alloc, description)?;
    let world = lay_described(alloc, description)?;
    Ok(world)
}
