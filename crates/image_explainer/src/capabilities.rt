// Finding a capability that an image may not hold.
ghost use Rattle.std.specs.Prelude.{◌≡◌, ◌<◌, length, IfNone, IfOk, IfSome};
ghost use Rattle.std.specs.List.{All};
ghost use Rattle.model.specs.Frame.{frame_at};
ghost use Rattle.model.specs.Keepable.{caps_in};
ghost use Rattle.capability.specs.Parts.{MayFetch, OnlyReads, frames_of};
ghost use Rattle.capability.specs.Consistency.{IsNamed};
ghost use Rattle.recovery.specs.Noted.{AreNoted};
ghost use Rattle.image_explainer.specs.Breaking.{IsMisnamed};
ghost use Rattle.image_explainer.specs.Finding.{IsFirstOf, NamesOr};

use crate::fault::Misnamed;
use capability::Frames;
use model::{Cap, ContentRef, Refusal};
use recovery::{Noted, is_named};

// Returns the first of an object's capabilities that is misnamed (see `find_misnamed`), or `None`.
fn find_in<F: Frames>(
    store: &F,
    notes: &[Option<Noted>],
    number: u64,
    held: &[Cap],
) -> Option<Misnamed>
    requires notes { AreNoted (frames_of (F.parts store.now)) notes.now }
    requires held { held.now ≡ caps_in (frame_at (frames_of (F.parts store.now)) number).content }
    ensures found { IfSome result (IsMisnamed (frames_of (F.parts store.now))) }
    ensures first { IfSome result (IsFirstOf (frames_of (F.parts store.now)) number) }
    ensures none { IfNone result (All (IsNamed (frames_of (F.parts store.now))) held.now) }
{
    for (index, capability) in held.iter().enumerate() {
        if !is_named(store, notes, *capability) {
            return Some(Misnamed {
                holder: number,
                role: store.table().header(number).role,
                index: index as u64,
                held: *capability,
                current: store.table().current_count(capability.what),
            });
        }
    }
    None
}

// Returns the first misnamed capability of a fetched object, or `None`.
fn find_there<F: Frames>(store: &F, notes: &[Option<Noted>], number: u64) -> Option<Misnamed>
    requires fetched { F.IsFetched store.now number }
    requires notes { AreNoted (frames_of (F.parts store.now)) notes.now }
    ensures found { IfSome result (IsMisnamed (frames_of (F.parts store.now))) }
    ensures first { IfSome result (IsFirstOf (frames_of (F.parts store.now)) number) }
    ensures none { let frames = frames_of (F.parts store.now) in
        IfNone result (All (IsNamed frames) (caps_in (frame_at frames number).content)) }
{
    match store.frame(number) {
        ContentRef::Node(slots) => find_in(store, notes, number, &slots[..]),
        ContentRef::Root(root) => find_in(store, notes, number, &[root.space]),
        ContentRef::Annex(registers) => find_in(store, notes, number, &registers[..]),
        _ => None,
    }
}

// Fetches an object, and returns its first misnamed capability, or `None`.
fn find_at<F: Frames>(
    store: &mut F,
    notes: &[Option<Noted>],
    number: u64,
) -> Result<Option<Misnamed>, Refusal>
    requires known { number < length (F.parts store.old).headers }
    requires may { MayFetch F.IsUsable F.parts store.old }
    requires notes { AreNoted (frames_of (F.parts store.old)) notes.now }
    ensures found { IfOk result (λ found. IfSome found (IsMisnamed (frames_of (F.parts store.old)))) }
    ensures first { IfOk result (λ found. IfSome found (IsFirstOf (frames_of (F.parts store.old)) number)) }
    ensures none { let frames = frames_of (F.parts store.old) in IfOk result (λ found.
        IfNone found (All (IsNamed frames) (caps_in (frame_at frames number).content))) }
    ensures only_reads { OnlyReads F.parts F.ContinuesTo store.old store.new result }
{
    store.fetch(&[number])?;
    Ok(find_there(store, notes, number))
}

/// Returns the first misnamed capability, by holder and slot, or `None`. A capability is misnamed if its count is
/// greater than its object's, or if it is live and names an object of another kind. Fetches objects one at a time.
pub(crate) fn find_misnamed<F: Frames>(
    store: &mut F,
    notes: &[Option<Noted>],
) -> Result<Option<Misnamed>, Refusal>
    requires may { MayFetch F.IsUsable F.parts store.old }
    requires notes { AreNoted (frames_of (F.parts store.old)) notes.now }
    ensures found { IfOk result (NamesOr (frames_of (F.parts store.old))) }
    ensures only_reads { OnlyReads F.parts F.ContinuesTo store.old store.new result }
{
    for number in 0..store.table().count() {
        if let Some(misnamed) = find_at(store, notes, number)? {
            return Ok(Some(misnamed));
        }
    }
    Ok(None)
}
