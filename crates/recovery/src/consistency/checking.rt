// Checks all frames.
ghost use Rattle.std.specs.Prelude.{◌≡◌, ◌↔◌, ◌<◌, ◌≤◌, ◌^◌, IfOk, OnOk, IsErrOf};
ghost use Rattle.model.specs.Keepable.{AreKeepable, IsSoundFrames};
ghost use Rattle.capability.specs.Parts.{MayFetch, OnlyFetches, OnlyReads, frames_of};
ghost use Rattle.recovery.specs.Consistency.{IsInconsistent, Tells};

use crate::consistency::banks::find_unbanked;
use crate::consistency::capabilities::are_named;
use crate::consistency::processes::{are_whole, read_notes};
use capability::Frames;
use checkpoint::OpenFault;
use layout::BadImage;
use model::Refusal;
use std::alloc::Global;

// Returns the least of reasons 8 to 10 that holds for frames that have encodings, or `None`.
fn reason<F: Frames>(alloc: Global, store: &mut F) -> Result<Option<BadImage>, Refusal>
    requires may { MayFetch F.IsUsable F.parts store.old }
    ensures tells { IfOk result (λ why. Tells (frames_of (F.parts store.old)) why) }
    ensures only_reads { OnlyReads F.parts F.ContinuesTo store.old store.new result }
{
    let notes = read_notes(alloc, store)?;
    if !are_named(store, &notes)? {
        return Ok(Some(BadImage::BadCapability));
    }
    if !are_whole(alloc, store, &notes)? {
        return Ok(Some(BadImage::BadProcess));
    }
    match find_unbanked(alloc, store)? {
        None => Ok(None),
        Some(_) => Ok(Some(BadImage::BadBank)),
    }
}

/// Checks whether the world of frames that have encodings at an age is sound (EROS: the consistency check of
/// a checkpoint).
///
/// Every object is read, one at a time, and no object changes. Allocates in proportion to the number of
/// objects, and frees that memory.
///
/// Returns `Bad` with the least of reasons 8 to 10 that holds: capabilities are checked first, then
/// processes, then banks. Returns `NoMemory` if memory ran out, and `Failed` exactly if the device failed.
pub fn check<F: Frames>(alloc: Global, store: &mut F, age: u64) -> Result<(), OpenFault>
    requires usable { F.IsUsable store.old }
    requires keepable { AreKeepable (F.parts store.old).geometry age
        (frames_of (F.parts store.old)) }
    requires most { age ≤ 2 ^ 62 }
    ensures sound { OnOk result (IsSoundFrames (F.parts store.old).geometry age
        (frames_of (F.parts store.old))) }
    ensures inconsistent { (why : BadImage) → IsErrOf result (OpenFault.Bad why)
        → IsInconsistent (frames_of (F.parts store.old)) why }
    ensures same { OnOk result (F.parts store.new ≡ F.parts store.old) }
    ensures snapshots { OnlyFetches F.parts F.ContinuesTo store.old store.new }
    ensures cause { IsErrOf result OpenFault.Failed
        ↔ ((F.parts store.old).failures < (F.parts store.new).failures) }
{
    match reason(alloc, store)? {
        None => Ok(()),
        Some(why) => Err(OpenFault::Bad(why)),
    }
}
