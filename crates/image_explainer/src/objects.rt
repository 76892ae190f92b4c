// Finding what is wrong with the objects of an image: reasons 8 to 10.
ghost use Rattle.std.specs.Prelude.{IfOk};
ghost use Rattle.capability.specs.Parts.{MayFetch, OnlyReads, frames_of};
ghost use Rattle.image_explainer.specs.Finding.{IsConsistentOr};

use crate::capabilities::find_misnamed;
use crate::fault::ImageFault;
use crate::processes::find_unmatched;
use capability::Frames;
use model::Refusal;
use recovery::{find_unbanked, read_notes};
use std::alloc::Global;

/// Returns what is wrong with the objects of a store, or `None`: the least of the reasons 8 to 10 that applies,
/// with its first place. Fetches objects one at a time, and changes none.
pub(crate) fn find_in_objects<F: Frames>(
    alloc: Global,
    store: &mut F,
) -> Result<Option<ImageFault>, Refusal>
    requires may { MayFetch F.IsUsable F.parts store.old }
    ensures found { IfOk result (IsConsistentOr (frames_of (F.parts store.old))) }
    ensures only_reads { OnlyReads F.parts F.ContinuesTo store.old store.new result }
{
    let notes = read_notes(alloc, store)?;
    if let Some(misnamed) = find_misnamed(store, &notes)? {
        return Ok(Some(ImageFault::Capability(misnamed)));
    }
    if let Some(unmatched) = find_unmatched(store, &notes) {
        return Ok(Some(ImageFault::Process(unmatched)));
    }
    match find_unbanked(alloc, store)? {
        Some(unbanked) => Ok(Some(ImageFault::Bank(unbanked))),
        None => Ok(None),
    }
}
