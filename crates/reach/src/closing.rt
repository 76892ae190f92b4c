// The least closed set that contains some numbers.
ghost use Rattle.std.specs.Prelude.{◌≡◌, ◌<◌, length, IfOk};
ghost use Rattle.std.specs.List.{All};
ghost use Rattle.model.specs.Revoke.{is_member};
ghost use Rattle.collections.specs.Marks.{is_marked};
ghost use Rattle.reach.specs.Links.{links};
ghost use Rattle.reach.specs.Reached.{AreSoundObjects, BoundsRuns, IsReach};

use crate::authority::Purpose;
use crate::searching::search;
use collections::NumberSet;
use model::Object;
use std::alloc::{AllocError, Global};

/// Returns the least closed set that contains `starts`, in a sound world. A closed set contains its processes'
/// annexes, the objects that its banks own, and each object that a member holds a capability to. Two kinds of
/// capabilities don't count: those that start a process of `trusted`, and, if the purpose is to change, weak ones.
///
/// If the purpose is to read, the set is closed for reading: nothing outside determines an answer to its processes
/// (crate `noninterference`). Exceptions: turns that look outside, and refusals because the log is full or the
/// machine worn.
///
/// The authority bound (EROS: confinement) holds over any run of invocations, loads and stores by processes of the
/// set, and by processes that they make from free numbers: objects outside that weren't free keep their content and
/// owner. Exceptions: capabilities to members may become void, and the roots and annexes of `trusted` processes
/// receive messages. The bound holds again from any later moment at which the set is closed in this sense, whatever
/// others did meanwhile.
///
/// It follows each number once. `AllocError` means that memory ran out, which is tested, not proved.
pub fn reach(
    alloc: Global,
    objects: &[Object],
    purpose: Purpose,
    starts: &[u64],
    trusted: &[u64],
) -> Result<NumberSet, AllocError>
    requires sound { AreSoundObjects objects.now }
    requires known { All (λ n. n < length objects.now) starts.now }
    requires trusted { All (λ n. n < length objects.now) trusted.now }
    ensures reach { IfOk result (λ inside.
        IsReach objects.now (links purpose (is_member trusted.now)) starts.now (is_marked inside)) }
    ensures count { IfOk result (λ inside. length inside ≡ length objects.now) }
    ensures bounds { IfOk result (λ inside. BoundsRuns objects.now (is_member trusted.now) (is_marked inside)) }
{
    let levels = search(alloc, objects, purpose, trusted, starts)?;
    let inside = levels.numbers(alloc)?;
    Ok(inside)
}
