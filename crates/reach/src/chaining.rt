// A shortest chain of steps.
ghost use Rattle.std.specs.Prelude.{◌≡◌, ℕ, ◌<◌, Bool, is_some, length, IfOk};
ghost use Rattle.std.specs.List.{All};
ghost use Rattle.model.specs.Revoke.{is_member};
ghost use Rattle.reach.specs.Chain.{IsShortestIfAny};
ghost use Rattle.reach.specs.Links.{links};
ghost use Rattle.reach.specs.Reached.{AreSoundObjects, IsReach};

use crate::authority::Purpose;
use crate::searching::search;
use crate::step::Step;
use model::Object;
use std::alloc::{AllocError, Global};

/// Returns a shortest chain of steps from one of `starts` to an object, first step first, in a sound world. No step
/// uses a capability that starts a process of `trusted`. The chain is empty if the object is one of `starts`.
///
/// Returns `None` exactly if the object isn't in the set that `reach` finds for `purpose`, `starts` and `trusted`.
///
/// It follows each number once. `AllocError` means that memory ran out, which is tested, not proved.
#[tactic(auto, using(crate::proofs::Chains::back_first))]
pub fn shortest_chain(
    alloc: Global,
    objects: &[Object],
    purpose: Purpose,
    starts: &[u64],
    trusted: &[u64],
    object: u64,
) -> Result<Option<Vec<Step>>, AllocError>
    requires sound { AreSoundObjects objects.now }
    requires known { All (λ n. n < length objects.now) starts.now }
    requires trusted { All (λ n. n < length objects.now) trusted.now }
    ensures shortest { IfOk result
        (IsShortestIfAny objects.now (links purpose (is_member trusted.now)) starts.now object) }
    ensures reach { IfOk result (λ chain. (inside : ℕ → Bool)
        → IsReach objects.now (links purpose (is_member trusted.now)) starts.now inside
        → inside object ≡ is_some chain) }
{
    let levels = search(alloc, objects, purpose, trusted, starts)?;
    if !levels.contains(object) {
        return Ok(None);
    }
    let mut steps = Vec::new(alloc);
    let mut at = object;
    while let Some(step) = levels.step_to(at) {
        steps.push(step)?;
        at = step.from;
    }
    steps.reverse();
    Ok(Some(steps))
}
