// Finding the first rule that a table breaks, and where.
ghost use Rattle.std.specs.Prelude.{◌≡◌, Some, IfNone, IfOk, IfSome};
ghost use Rattle.toml.specs.Data.{Members};
ghost use Rattle.toml.specs.View.{table_view};
ghost use Rattle.model.specs.Frame.{frames_in};
ghost use Rattle.capability.specs.Consistency.{AreNamed};
ghost use Rattle.recovery.specs.Noted.{AreNoted};
ghost use Rattle.description.specs.declared.entry.Description.{Description};
ghost use Rattle.description.specs.Broken.{AllHave, BreaksWorld};
ghost use Rattle.description.specs.Reading.{IsDescription};
ghost use Rattle.description.specs.Outcomes.{Misses};
ghost use Rattle.description.specs.Shapes.{BreaksShape};
ghost use Rattle.description.specs.Rules.{IsWithinLimits};
ghost use Rattle.description.specs.Laid.{AreLaid};
ghost use Rattle.model.specs.Keepable.{IsTarget};
ghost use Rattle.description_explainer.specs.Explained.{ExplainsDescription};
ghost use Rattle.description_explainer.specs.Places.{Explains};

use crate::place::{Place, Rule};
use crate::roles::OfItsRole;
use capability::Plain;
use description::{
    Description, Held, Misread, World, WorldFault, beyond_limits, failing, lay_world,
};
use recovery::{Noted, find_unbanked, read_notes};
use std::alloc::{AllocError, Global};
use toml::Table;

// Returns the rule for owners if described frames break it, else `None`.
fn explain_banks(
    alloc: Global,
    description: &Description,
    frames: &mut Plain,
) -> Result<Option<Rule>, AllocError>
    requires limits { IsWithinLimits description.now }
    requires geometry { frames.old.geometry ≡ description.now.geometry }
    requires laid { AreLaid description.now frames.old.headers frames.old.contents }
    requires named { AreNamed (frames_in frames.old.headers frames.old.contents) }
    ensures { IfOk result (λ found. ExplainsDescription description.now found) }
{
    match find_unbanked(alloc, frames) {
        Ok(Some(unbanked)) => Ok(Some(Rule::Owner(unbanked))),
        Ok(None) => Ok(None),
        Err(_) => Err(AllocError),
    }
}

// Returns the first capability of described frames that names no object of its kind, or `None`.
fn find_unnamed(description: &Description, frames: &Plain, notes: &[Option<Noted>]) -> Option<Held>
    requires limits { IsWithinLimits description.now }
    requires laid { AreLaid description.now frames.now.headers frames.now.contents }
    requires notes { AreNoted (frames_in frames.now.headers frames.now.contents) notes.now }
    requires kinds { AllHave (IsTarget description.now.geometry) description.now }
    ensures none { IfNone result (AreNamed (frames_in frames.now.headers frames.now.contents)) }
    ensures some { IfSome result (λ at. ExplainsDescription description.now (Some (Rule.Target at))) }
{
    failing(&OfItsRole::new(frames, notes), description)
}

// Returns the first rule that described frames break, or `None`.
fn explain_frames(
    alloc: Global,
    description: &Description,
    frames: &mut Plain,
) -> Result<Option<Rule>, AllocError>
    requires limits { IsWithinLimits description.now }
    requires geometry { frames.old.geometry ≡ description.now.geometry }
    requires laid { AreLaid description.now frames.old.headers frames.old.contents }
    requires kinds { AllHave (IsTarget description.now.geometry) description.now }
    ensures { IfOk result (λ found. ExplainsDescription description.now found) }
{
    let notes = match read_notes(alloc, frames) {
        Ok(notes) => notes,
        Err(_) => return Err(AllocError),
    };
    match find_unnamed(description, frames, &notes) {
        Some(at) => Ok(Some(Rule::Target(at))),
        None => explain_banks(alloc, description, frames),
    }
}

// Returns the broken rule for a reason why a description has no world. Fails if the reason is lack
// of memory.
fn rule_of(why: WorldFault) -> Result<Option<Rule>, AllocError>
    ensures { (d : Description) → IsWithinLimits d → BreaksWorld d why
        → IfOk result (λ found. ExplainsDescription d found) }
{
    match why {
        WorldFault::Number(place) => Ok(Some(Rule::Number(place))),
        WorldFault::Field(part) => Ok(Some(Rule::Field(part))),
        WorldFault::Target(held) => Ok(Some(Rule::Target(held))),
        WorldFault::NoMemory => Err(AllocError),
    }
}

// Returns the first rule that a description within the limits breaks, or `None`.
fn explain_world(alloc: Global, description: &Description) -> Result<Option<Rule>, AllocError>
    requires { IsWithinLimits description.now }
    ensures { IfOk result (λ found. ExplainsDescription description.now found) }
{
    match lay_world(alloc, description) {
        Ok(world) => {
            let World { headers, contents } = world;
            let mut frames = Plain::new(description.geometry, headers, contents);
            explain_frames(alloc, description, &mut frames)
        }
        Err(why) => rule_of(why),
    }
}

// Returns the first rule that a description breaks, or `None`.
#[tactic(auto, using(crate::proofs::Explanations::explains_limit))]
fn explain_rules(alloc: Global, description: &Description) -> Result<Option<Rule>, AllocError>
    ensures { IfOk result (λ found. ExplainsDescription description.now found) }
{
    match beyond_limits(description) {
        Some(limit) => Ok(Some(Rule::Limit(limit))),
        None => explain_world(alloc, description),
    }
}

// Returns the place where the description breaks this rule, or `None` if it breaks none.
fn place_of<'a>(description: Description, found: Option<Rule>) -> Option<Place<'a>>
    requires { ExplainsDescription description found }
    ensures { (table : Members) → IsDescription table description → Explains table result }
{
    match found {
        Some(rule) => Some(Place::Rule(description, rule)),
        None => None,
    }
}

// Returns the place where a table can't be read. Fails if memory ran out instead.
fn unread<'a>(why: Misread<'a>) -> Result<Option<Place<'a>>, AllocError>
    ensures { (table : Members) → Misses (BreaksShape table) why.entry → IfOk result (Explains table) }
{
    match why {
        Misread::Misshapen(place) => Ok(Some(Place::Shape(place))),
        Misread::NoMemory => Err(AllocError),
    }
}

/// Returns the first rule that makes `build` refuse a table, and where the table breaks it. Returns `None` if
/// `build` accepts the table on a device that is large enough. Fails only if memory runs out.
pub fn explain<'a>(alloc: Global, table: &'a Table) -> Result<Option<Place<'a>>, AllocError>
    ensures { IfOk result (Explains (table_view table.entry.now)) }
{
    match Description::read(alloc, table) {
        Ok(description) => match explain_rules(alloc, &description) {
            Ok(found) => Ok(place_of(description, found)),
            Err(error) => Err(error),
        },
        Err(why) => unread(why),
    }
}
