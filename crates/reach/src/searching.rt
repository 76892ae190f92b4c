// The search, level by level.
ghost use Rattle.std.specs.Prelude.{◌≡◌, ◌↔◌, ℕ, ◌+◌, ◌<◌, ◌≤◌, false, length, IfOk, IsTrue};
ghost use Rattle.std.specs.List.{All};
ghost use Rattle.model.specs.declared.object.Content.TheVariants as content;
ghost use Rattle.collections.specs.Marks.{is_marked};
ghost use Rattle.model.specs.Object.{is_free};
ghost use Rattle.model.specs.Revoke.{is_member};
ghost use Rattle.model.specs.World.{content_at};
ghost use Rattle.reach.specs.Levels.{FindsBy, IsBy, IsFrom, IsFromLevel, IsHeldIn, IsOwnedBelow, IsSearched};
ghost use Rattle.reach.specs.Levels.{NamesWithin};
ghost use Rattle.reach.specs.Links.{links};
ghost use Rattle.reach.specs.Reached.{AreSoundObjects};

use crate::authority::{Purpose, authority_but};
use crate::levels::Levels;
use crate::printing::slots_of;
use crate::step::{Step, Way};
use collections::NumberSet;
use model::{Capability, Content, Object, Root};
use std::alloc::{AllocError, Global};

// Records the object that a capability has authority over, if there is one.
fn find(
    levels: &mut Levels,
    purpose: Purpose,
    trusted: &NumberSet,
    from: u64,
    way: Way,
    capability: Capability,
    level: u64,
)
    requires known { NamesWithin (length levels.old.found.items) capability }
    requires count { length trusted.now ≡ length levels.old.found.items }
    requires level { level ≤ levels.old.greatest + 1 }
    ensures { FindsBy (IsBy (links purpose (is_marked trusted.now)) from way capability) level levels.old levels.new }
{
    if let Some(to) = authority_but(capability, purpose, trusted) {
        levels.add(Step { from, way, to }, level);
    }
}

// Records the objects that the capabilities in these slots have authority over.
#[tactic(auto, using(crate::proofs::Finding::finds_none))]
fn find_held(
    levels: &mut Levels,
    purpose: Purpose,
    trusted: &NumberSet,
    from: u64,
    slots: &[Capability],
    level: u64,
)
    requires known { All (NamesWithin (length levels.old.found.items)) slots.now }
    requires count { length trusted.now ≡ length levels.old.found.items }
    requires level { level ≤ levels.old.greatest + 1 }
    ensures { FindsBy (IsHeldIn (links purpose (is_marked trusted.now)) slots.now (length slots.now) from) level
        levels.old levels.new }
{
    for (index, capability) in slots.iter().enumerate() {
        let way = Way::Slot {
            index: index as u64,
            capability: *capability,
        };
        find(levels, purpose, trusted, from, way, *capability, level);
    }
}

// Whether a bank owns an object.
fn is_owned(object: &Object, bank: u64) -> bool
    ensures { IsTrue result ↔ ((is_free object.now.content ≡ false) × (object.now.owner ≡ bank)) }
{
    match object.content {
        Content::Free => false,
        _ => object.owner == bank,
    }
}

// Records the objects that a bank owns.
#[tactic(auto, using(crate::proofs::Finding::finds_none))]
fn find_owned(levels: &mut Levels, objects: &[Object], bank: u64, level: u64)
    requires count { length levels.old.found.items ≡ length objects.now }
    requires level { level ≤ levels.old.greatest + 1 }
    ensures { FindsBy (IsOwnedBelow objects.now (length objects.now) bank) level levels.old levels.new }
{
    for (number, object) in objects.iter().enumerate() {
        if is_owned(object, bank) {
            let (from, to) = (bank, number as u64);
            levels.add(
                Step {
                    from,
                    way: Way::Owner,
                    to,
                },
                level,
            );
        }
    }
}

// Records what a process has authority over: its annex, its address space, and the objects of its registers.
fn find_of_process(
    levels: &mut Levels,
    objects: &[Object],
    purpose: Purpose,
    trusted: &NumberSet,
    process: u64,
    root: &Root<Capability>,
    level: u64,
)
    requires sound { AreSoundObjects objects.now }
    requires count { length levels.old.found.items ≡ length objects.now }
    requires trusted { length trusted.now ≡ length objects.now }
    requires root { content_at objects.now process ≡ content.Root root.now }
    requires level { level ≤ levels.old.greatest + 1 }
    ensures { FindsBy (IsFrom objects.now (links purpose (is_marked trusted.now)) process) level levels.old levels.new }
{
    let (from, to) = (process, root.annex);
    levels.add(
        Step {
            from,
            way: Way::Annex,
            to,
        },
        level,
    );
    find(
        levels,
        purpose,
        trusted,
        process,
        Way::Space(root.space),
        root.space,
        level,
    );
    find_held(
        levels,
        purpose,
        trusted,
        process,
        slots_of(objects, root.annex),
        level,
    );
}

// Records all that an object has authority over in one step.
fn find_of_object(
    levels: &mut Levels,
    objects: &[Object],
    purpose: Purpose,
    trusted: &NumberSet,
    number: u64,
    level: u64,
)
    requires sound { AreSoundObjects objects.now }
    requires count { length levels.old.found.items ≡ length objects.now }
    requires trusted { length trusted.now ≡ length objects.now }
    requires known { number < length objects.now }
    requires level { level ≤ levels.old.greatest + 1 }
    ensures { FindsBy (IsFrom objects.now (links purpose (is_marked trusted.now)) number) level levels.old levels.new }
{
    match &objects[number as usize].content {
        Content::Free | Content::Page(_) => {}
        Content::Node(slots) => find_held(
            levels,
            purpose,
            trusted,
            number,
            slots.as_slice(),
            level,
        ),
        Content::Annex(registers) => find_held(
            levels,
            purpose,
            trusted,
            number,
            registers.as_slice(),
            level,
        ),
        Content::Root(root) => find_of_process(
            levels, objects, purpose, trusted, number, root, level,
        ),
        Content::Bank { .. } => find_owned(levels, objects, number, level),
    }
}

// Records all that the numbers of a level have authority over in one step.
#[tactic(auto, using(crate::proofs::Finding::finds_none))]
fn follow_level(
    levels: &mut Levels,
    objects: &[Object],
    purpose: Purpose,
    trusted: &NumberSet,
    level: u64,
)
    requires sound { AreSoundObjects objects.now }
    requires count { length levels.old.found.items ≡ length objects.now }
    requires trusted { length trusted.now ≡ length objects.now }
    requires level { level ≤ levels.old.greatest }
    requires few { levels.old.greatest ≤ length objects.now }
    ensures { FindsBy
        (IsFromLevel objects.now (links purpose (is_marked trusted.now)) levels.old level (length objects.now)) (level + 1)
        levels.old levels.new }
{
    for number in 0..objects.len() {
        if levels.is_at(number as u64, level) {
            find_of_object(levels, objects, purpose, trusted, number as u64, level + 1);
        }
    }
}

// Returns all numbers that chains of steps from `starts` lead to. No step starts a process that
// `trusted` marks.
#[tactic(auto, using(crate::proofs::Searches::searched_first))]
fn search_but(
    alloc: Global,
    objects: &[Object],
    purpose: Purpose,
    trusted: &NumberSet,
    starts: &[u64],
) -> Result<Levels, AllocError>
    requires sound { AreSoundObjects objects.now }
    requires trusted { length trusted.now ≡ length objects.now }
    requires known { All (λ n. n < length objects.now) starts.now }
    ensures { IfOk result (λ l. (level : ℕ) × (l.greatest < level)
        × IsSearched objects.now (links purpose (is_marked trusted.now)) starts.now level l) }
{
    let mut levels = Levels::new(alloc, objects.len())?;
    for start in starts {
        levels.begin(*start);
    }
    let mut level = 0;
    while level <= levels.greatest() {
        follow_level(&mut levels, objects, purpose, trusted, level);
        level += 1;
    }
    Ok(levels)
}

/// Returns the set of the numbers in a list. Fails only if memory runs out.
pub(crate) fn set_of(alloc: Global, numbers: &[u64], total: usize) -> Result<NumberSet, AllocError>
    requires { All (λ n. n < total) numbers.now }
    ensures count { IfOk result (λ set. length set ≡ total) }
    ensures each { IfOk result (λ set. (n : ℕ) → is_marked set n ≡ is_member numbers.now n) }
{
    let mut set = NumberSet::new(alloc, total)?;
    for number in numbers {
        set.set(*number as usize, true);
    }
    Ok(set)
}

/// Returns all numbers that chains of steps from `starts` lead to, each found by a shortest chain. No step starts a
/// process of `trusted`. Fails only if memory runs out.
pub(crate) fn search(
    alloc: Global,
    objects: &[Object],
    purpose: Purpose,
    trusted: &[u64],
    starts: &[u64],
) -> Result<Levels, AllocError>
    requires sound { AreSoundObjects objects.now }
    requires trusted { All (λ n. n < length objects.now) trusted.now }
    requires known { All (λ n. n < length objects.now) starts.now }
    ensures { IfOk result (λ l. (level : ℕ) × (l.greatest < level)
        × IsSearched objects.now (links purpose (is_member trusted.now)) starts.now level l) }
{
    let set = set_of(alloc, trusted, objects.len())?;
    let levels = search_but(alloc, objects, purpose, &set, starts)?;
    Ok(levels)
}
