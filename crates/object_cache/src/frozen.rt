// Frozen frames: which body an entry has for one, and writing it.
ghost use Rattle.std.specs.Prelude.{◌≡◌, Some, option_map, IsSome, OnOk, OnErr};
ghost use Rattle.model.specs.Frame.{content_behind};
ghost use Rattle.device.specs.Calls.{Counts};
ghost use Rattle.migrator.specs.Put.{Broken, Kept};
ghost use Rattle.migrator.specs.Durable.{stored_of, with_frozen, GoesOn};
ghost use Rattle.cache_entries.specs.Entries.{entry_at};
ghost use Rattle.object_cache.specs.Memory.{frozen_state_by, masked, own_body_of};
ghost use Rattle.object_cache.specs.StoreState.{MayPutFrozen};

use cache_entries::Entries;
use device::{Device, Failed};
use migrator::Durable;
use model::{ContentRef, ObjectHeader, Role};

/// Which body an entry has for a frozen frame that isn't in the log: none, the present body, or a frozen copy.
#[derive(Drop)]
pub(crate) enum FrozenState {
    Nothing,
    Shared,
    Apart,
}

// Returns the frozen state of an entry, from three facts: its frozen frame is pending, it has a frozen copy,
// the object was written since the freeze.
pub(crate) fn state_by(is_pending: bool, is_kept: bool, is_touched: bool) -> FrozenState
    ensures { result ≡ frozen_state_by is_pending is_kept is_touched }
{
    if !is_pending {
        return FrozenState::Nothing;
    }
    if is_kept {
        return FrozenState::Apart;
    }
    if is_touched {
        return FrozenState::Nothing;
    }
    FrozenState::Shared
}

// Returns the body of an object with this role: `Free` if the role is `Free`.
pub(crate) fn mask(role: Role, content: ContentRef<'_>) -> ContentRef<'_>
    ensures { content_behind result ≡ masked role (content_behind content.entry) }
{
    match role {
        Role::Free => ContentRef::Free,
        _ => content,
    }
}

// Returns the frozen body that an entry has: the frozen copy if there is one, else the present body.
pub(crate) fn own_body(entries: &Entries, number: u64) -> ContentRef<'_>
    requires { IsSome (entry_at entries.now.at number) }
    ensures { option_map own_body_of (entry_at entries.now.at number) ≡ Some (content_behind result) }
{
    match entries.kept(number) {
        Some(kept) => kept,
        None => entries.present(number),
    }
}

// Writes a frozen frame to the log. Its body is `Free` if the header's role is `Free`.
pub(crate) fn put_body<D: Device>(
    durable: &mut Durable<D>,
    number: u64,
    header: ObjectHeader,
    content: ContentRef<'_>,
) -> Result<(), Failed>
    requires { MayPutFrozen D.disk durable.old number
        (record { header = header; content = masked header.role (content_behind content) }) }
    ensures put { OnOk result (stored_of D.disk durable.new ≡ with_frozen number
        (Kept (record { header = header; content = masked header.role (content_behind content.entry) }))
        (stored_of D.disk durable.old)) }
    ensures broken { OnErr result (stored_of D.disk durable.new
        ≡ with_frozen number Broken (stored_of D.disk durable.old)) }
    ensures goes_on { GoesOn D.disk durable.old durable.new }
    ensures cause { Counts (D.disk durable.old.beneath) (D.disk durable.new.beneath) result }
{
    match durable.put_frozen(number, header, mask(header.role, content)) {
        Ok(()) => Ok(()),
        Err(_) => Err(Failed),
    }
}
