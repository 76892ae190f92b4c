// Finding all that can change or read an object.
ghost use Rattle.std.specs.Prelude.{◌≡◌, ◌↔◌, ◌<◌, ℕ, false, length, slice_index_or, IfOk, IsTrue};
ghost use Rattle.std.specs.List.{All, Contains};
ghost use Rattle.model.specs.declared.capability.Capability.TheVariants.{Void};
ghost use Rattle.model.specs.Object.{is_free};
ghost use Rattle.model.specs.Revoke.{is_member};
ghost use Rattle.model.specs.World.{content_at};
ghost use Rattle.collections.specs.Marks.{is_marked};
ghost use Rattle.reach.specs.Backward.{AddsOwners, ConveysInto, Grows, IsClosedAt, LeadsInto, Widens, others};
ghost use Rattle.reach.specs.Levels.{NamesWithin};
ghost use Rattle.reach.specs.Links.{StaysFor, links};
ghost use Rattle.reach.specs.Reached.{AreChangers, AreSoundObjects, CanChange};

use crate::authority::{Purpose, authority_but};
use crate::holders::Holders;
use crate::searching::set_of;
use collections::NumberSet;
use model::{Capability, Content, Object};
use std::alloc::{AllocError, Global};

// Whether a capability lets its holder change or read a member of a set. A capability that starts a trusted process
// doesn't.
fn conveys_into(
    capability: Capability,
    purpose: Purpose,
    trusted: &NumberSet,
    inside: &NumberSet,
) -> bool
    requires known { NamesWithin (length inside.now) capability }
    requires count { length trusted.now ≡ length inside.now }
    ensures some { IsTrue result
        → ConveysInto (links purpose (is_marked trusted.now)) (is_marked inside.now) capability }
    ensures none { result ≡ false
        → StaysFor (links purpose (is_marked trusted.now)) (others (is_marked inside.now)) capability }
{
    match authority_but(capability, purpose, trusted) {
        Some(number) => inside.contains(number as usize),
        None => false,
    }
}

// Whether one of these capabilities gives authority over a member of a set.
fn some_convey_into(
    capabilities: &[Capability],
    purpose: Purpose,
    trusted: &NumberSet,
    inside: &NumberSet,
) -> bool
    requires known { All (NamesWithin (length inside.now)) capabilities.now }
    requires count { length trusted.now ≡ length inside.now }
    ensures some { IsTrue result → (i : ℕ)
        × ConveysInto (links purpose (is_marked trusted.now)) (is_marked inside.now)
        (slice_index_or capabilities.now i Void) }
    ensures none { result ≡ false
        → All (StaysFor (links purpose (is_marked trusted.now)) (others (is_marked inside.now))) capabilities.now }
{
    for capability in capabilities {
        if conveys_into(*capability, purpose, trusted, inside) {
            return true;
        }
    }
    false
}

// Whether an object outside a set has authority over a member, by its annex or by a capability that it holds.
fn leads_into(
    objects: &[Object],
    purpose: Purpose,
    trusted: &NumberSet,
    number: usize,
    inside: &NumberSet,
) -> bool
    requires sound { AreSoundObjects objects.now }
    requires count { length inside.now ≡ length objects.now }
    requires trusted { length trusted.now ≡ length objects.now }
    requires known { number < length objects.now }
    ensures some { IsTrue result → (is_marked inside.now number ≡ false)
        × LeadsInto objects.now (links purpose (is_marked trusted.now)) (is_marked inside.now) number }
    ensures there { IsTrue result → is_free (content_at objects.now number) ≡ false }
    ensures none { result ≡ false → is_marked inside.now number ≡ false
        → IsClosedAt objects.now (links purpose (is_marked trusted.now)) (others (is_marked inside.now)) number }
{
    if inside.contains(number) {
        return false;
    }
    match &objects[number].content {
        Content::Free | Content::Page(_) | Content::Bank { .. } => false,
        Content::Node(slots) => some_convey_into(slots.as_slice(), purpose, trusted, inside),
        Content::Annex(registers) => some_convey_into(
            registers.as_slice(),
            purpose,
            trusted,
            inside,
        ),
        Content::Root(root) => {
            if inside.contains(root.annex as usize) {
                return true;
            }
            conveys_into(root.space, purpose, trusted, inside)
        }
    }
}

// Adds an object to a set, then its owner, the owner's owner, and so on up to a member. Marks all that it adds as
// still to follow.
fn add_owners(objects: &[Object], inside: &mut NumberSet, to_follow: &mut NumberSet, number: usize)
    requires sound { AreSoundObjects objects.now }
    requires count { length inside.old ≡ length objects.now }
    requires to_follow { length to_follow.old ≡ length objects.now }
    requires there { is_free (content_at objects.now number) ≡ false }
    ensures adds { AddsOwners objects.now number inside.old inside.new }
    ensures count { length to_follow.new ≡ length to_follow.old }
{
    let mut at = number;
    while !inside.contains(at) {
        inside.set(at, true);
        to_follow.set(at, true);
        at = objects[at].owner as usize;
    }
}

// Adds an object, with its owners, if it has authority over a member.
#[tactic(auto, using(crate::proofs::Sources::grows_none))]
fn add_leading(
    objects: &[Object],
    purpose: Purpose,
    trusted: &NumberSet,
    number: usize,
    inside: &mut NumberSet,
    to_follow: &mut NumberSet,
)
    requires sound { AreSoundObjects objects.now }
    requires count { length inside.old ≡ length objects.now }
    requires to_follow { length to_follow.old ≡ length objects.now }
    requires trusted { length trusted.now ≡ length objects.now }
    ensures grows { Grows objects.now (links purpose (is_marked trusted.now)) inside.old inside.new }
    ensures count { length to_follow.new ≡ length to_follow.old }
{
    if number >= objects.len() {
        return;
    }
    if leads_into(objects, purpose, trusted, number, inside) {
        add_owners(objects, inside, to_follow, number);
    }
}

// Adds the objects among `numbers` that have authority over a member, with their owners.
#[tactic(auto, using(crate::proofs::Sources::grows_none))]
fn add_all_leading(
    objects: &[Object],
    purpose: Purpose,
    trusted: &NumberSet,
    numbers: &[u64],
    inside: &mut NumberSet,
    to_follow: &mut NumberSet,
)
    requires sound { AreSoundObjects objects.now }
    requires count { length inside.old ≡ length objects.now }
    requires to_follow { length to_follow.old ≡ length objects.now }
    requires trusted { length trusted.now ≡ length objects.now }
    ensures grows { Grows objects.now (links purpose (is_marked trusted.now)) inside.old inside.new }
    ensures count { length to_follow.new ≡ length to_follow.old }
{
    for number in numbers {
        let number = *number as usize;
        add_leading(objects, purpose, trusted, number, inside, to_follow);
    }
}

// Takes each member still to follow, and adds the objects that name it, until none is left.
#[tactic(auto, using(crate::proofs::Sources::grows_none))]
fn follow_back(
    objects: &[Object],
    purpose: Purpose,
    trusted: &NumberSet,
    holders: &Holders,
    inside: &mut NumberSet,
    to_follow: &mut NumberSet,
)
    requires sound { AreSoundObjects objects.now }
    requires count { length inside.old ≡ length objects.now }
    requires to_follow { length to_follow.old ≡ length objects.now }
    requires trusted { length trusted.now ≡ length objects.now }
    ensures grows { Grows objects.now (links purpose (is_marked trusted.now)) inside.old inside.new }
    ensures count { length to_follow.new ≡ length to_follow.old }
{
    for turn in 0..objects.len() {
        if let Some(member) = to_follow.next(0) {
            to_follow.set(member, false);
            let numbers = holders.of_number(member);
            add_all_leading(objects, purpose, trusted, numbers, inside, to_follow);
        }
    }
}

// Goes over all objects once. Adds those that have authority over a member, with their owners, and
// returns whether it added any.
fn widen(
    objects: &[Object],
    purpose: Purpose,
    trusted: &NumberSet,
    inside: &mut NumberSet,
    to_follow: &mut NumberSet,
) -> bool
    requires sound { AreSoundObjects objects.now }
    requires count { length inside.old ≡ length objects.now }
    requires to_follow { length to_follow.old ≡ length objects.now }
    requires trusted { length trusted.now ≡ length objects.now }
    ensures widens { Widens objects.now (links purpose (is_marked trusted.now)) (length objects.now) result
        inside.old inside.new }
    ensures count { length to_follow.new ≡ length to_follow.old }
{
    let mut grew = false;
    for number in 0..objects.len() {
        if leads_into(objects, purpose, trusted, number, inside) {
            add_owners(objects, inside, to_follow, number);
            grew = true;
        }
    }
    grew
}

// Returns which of `numbers` are members of a set. Fails only if memory runs out.
fn members_of(
    alloc: Global,
    inside: &NumberSet,
    numbers: &[u64],
    total: usize,
) -> Result<NumberSet, AllocError>
    requires total { total ≡ length inside.now }
    requires known { All (λ n. n < length inside.now) numbers.now }
    ensures count { IfOk result (λ set. length set ≡ length inside.now) }
    ensures each { IfOk result (λ set. (n : ℕ)
        → IsTrue (is_marked set n) ↔ (Contains numbers.now n × IsTrue (is_marked inside.now n))) }
{
    let mut set = NumberSet::new(alloc, total)?;
    for number in numbers {
        if inside.contains(*number as usize) {
            set.set(*number as usize, true);
        }
    }
    Ok(set)
}

// Returns the set of all numbers that can ever change or read an object without starting a trusted process. Fails
// only if memory runs out.
fn sources(
    alloc: Global,
    objects: &[Object],
    purpose: Purpose,
    trusted: &NumberSet,
    object: u64,
) -> Result<NumberSet, AllocError>
    requires sound { AreSoundObjects objects.now }
    requires trusted { length trusted.now ≡ length objects.now }
    requires there { is_free (content_at objects.now object) ≡ false }
    ensures count { IfOk result (λ inside. length inside ≡ length objects.now) }
    ensures each { IfOk result (λ inside. (n : ℕ)
        → IsTrue (is_marked inside n) ↔ CanChange objects.now (links purpose (is_marked trusted.now)) n object) }
{
    let mut inside = NumberSet::new(alloc, objects.len())?;
    let mut to_follow = NumberSet::new(alloc, objects.len())?;
    let holders = Holders::of_objects(alloc, objects)?;
    add_owners(objects, &mut inside, &mut to_follow, object as usize);
    follow_back(
        objects,
        purpose,
        trusted,
        &holders,
        &mut inside,
        &mut to_follow,
    );
    // If a pass adds nothing, nothing is missing. Usually that is the first pass.
    let mut grew = true;
    while grew {
        grew = widen(objects, purpose, trusted, &mut inside, &mut to_follow);
    }
    Ok(inside)
}

/// Returns those of `starts` that can ever change or read an object in a sound world: the sets that `reach` finds
/// for them contain the object. It searches once, backwards from the object.
///
/// `AllocError` means that memory ran out, which is tested, not proved.
pub fn changers(
    alloc: Global,
    objects: &[Object],
    purpose: Purpose,
    starts: &[u64],
    trusted: &[u64],
    object: u64,
) -> Result<NumberSet, AllocError>
    requires sound { AreSoundObjects objects.now }
    requires known { All (λ n. n < length objects.now) starts.now }
    requires trusted { All (λ n. n < length objects.now) trusted.now }
    requires there { is_free (content_at objects.now object) ≡ false }
    ensures changers { IfOk result (λ set.
        AreChangers objects.now (links purpose (is_member trusted.now)) starts.now object (is_marked set)) }
    ensures count { IfOk result (λ set. length set ≡ length objects.now) }
{
    let trusts = set_of(alloc, trusted, objects.len())?;
    let inside = sources(alloc, objects, purpose, &trusts, object)?;
    let set = members_of(alloc, &inside, starts, objects.len())?;
    Ok(set)
}
