// Present frames, read and changed as objects.
ghost use Rattle.std.specs.Prelude.{[], ◌∷◌, ◌≡◌, ℕ, ◌+◌, ◌<◌, ◌≤◌, ◌^◌, None, false, length, slice_set, IfSome};
ghost use Rattle.std.specs.Prelude.{IsTrue};
ghost use Rattle.std.specs.List.{All};
ghost use Rattle.model.specs.Frame.{content_behind, current_count, header_at, held_at};
ghost use Rattle.model.specs.Keepable.{AreCurrent, AreKeepable, AreKeptWords, IsKeptCap};
ghost use Rattle.model.specs.Object.{is_annex, slots_in};
ghost use Rattle.model.specs.Revoke.{consume as consumed, is_member, rescind as rescinded};
ghost use Rattle.model.specs.World.{word_at, slot_at, annex_at, content_at, is_process, with_word, with_slot};
ghost use Rattle.model.specs.World.{with_slots_from};
ghost use Rattle.capability.specs.Objects.{live_cap, with_message};
ghost use Rattle.capability.specs.Parts.{AreGivenUp, Edits, FreshFits, IsFreshAt, IsOnce, KeepsRest};
ghost use Rattle.capability.specs.Parts.{frames_of, fresh_content, objects_in};

use crate::present::{Frames, Fresh, PresentFrames, RootChange};
use model::{Cap, Capability, ContentRef, Message, Role};

/// The word of a fetched page, or 0 if the object isn't a page.
#[tactic(auto, using(crate::proofs::FrameLists::word_there))]
pub fn word<F: Frames>(store: &F, number: u64, index: usize) -> u64
    requires fetched { F.IsFetched store.now number }
    requires within { index < 512 }
    ensures { result ≡ word_at (objects_in (F.parts store.now)) number index }
{
    match store.frame(number) {
        ContentRef::Page(words) => words[index],
        _ => 0,
    }
}

/// The annex of a process whose root is fetched, or 0 if the object isn't a root.
#[tactic(auto, using(crate::proofs::FrameLists::content_there))]
pub fn annex<F: Frames>(store: &F, process: u64) -> u64
    requires fetched { F.IsFetched store.now process }
    ensures { result ≡ annex_at (objects_in (F.parts store.now)) process }
{
    match store.frame(process) {
        ContentRef::Root(root) => root.annex,
        _ => 0,
    }
}

// The slots of a node, or the registers of an annex, or `None`.
#[inline(always)]
fn slots_behind(content: ContentRef<'_>) -> Option<&[Cap]>
    ensures some { IfSome result (λ slots. slots.now ≡ slots_in (content_behind content.entry)) }
    ensures length { IfSome result (λ slots. length slots.now ≡ 32) }
    ensures none { result ≡ None → slots_in (content_behind content.entry) ≡ [] }
{
    match content {
        ContentRef::Node(slots) => Some(&slots[..]),
        ContentRef::Annex(registers) => Some(&registers[..]),
        _ => None,
    }
}

/// The capability in a slot of a fetched node, or a register of a fetched annex. Void if it is stale, or if
/// the object is neither.
#[tactic(auto, using(crate::proofs::FrameLists::no_slot_there))]
pub fn slot<F: Frames>(store: &F, number: u64, slot: usize) -> Capability
    requires fetched { F.IsFetched store.now number }
    requires within { slot < 32 }
    ensures { result ≡ slot_at (objects_in (F.parts store.now)) number slot }
{
    match slots_behind(store.frame(number)) {
        Some(slots) => store.table().conveyed(slots[slot]),
        None => Capability::Void,
    }
}

/// The capabilities in four slots of a fetched node, or registers of a fetched annex, as `slot` reads each.
#[inline(always)]
pub fn four_slots<F: Frames>(
    store: &F,
    number: u64,
    first: usize,
    second: usize,
    third: usize,
    fourth: usize,
) -> [Capability; 4]
    requires fetched { F.IsFetched store.now number }
    requires within { (first < 32) × (second < 32) × (third < 32) × (fourth < 32) }
    ensures { let read = slot_at (objects_in (F.parts store.now)) number in
        result ≡ read first ∷ read second ∷ read third ∷ read fourth ∷ [] }
{
    let Some(slots) = slots_behind(store.frame(number)) else {
        return [Capability::Void; 4];
    };
    let table = store.table();
    [
        table.conveyed(slots[first]),
        table.conveyed(slots[second]),
        table.conveyed(slots[third]),
        table.conveyed(slots[fourth]),
    ]
}

/// Sets a word of a page that is fetched and announced. No other object changes.
pub fn set_word<F: PresentFrames>(store: &mut F, number: u64, index: usize, word: u64)
    requires fetched { F.IsFetched store.old number }
    requires announced { F.IsAnnounced store.old number }
    requires within { index < 512 }
    ensures { Edits F.parts F.IsFetched F.IsAnnounced F.ContinuesTo store.old store.new
        (with_word (objects_in (F.parts store.old)) number index word)
        (λ age. Unit {0}) }
{
    store.set_word(number, index, word);
}

/// Puts a capability into a slot of a node or a register of an annex, with its object's present count, so it
/// is live. The object must be fetched and announced. No other object changes.
pub fn set_slot<F: PresentFrames>(store: &mut F, number: u64, slot: usize, capability: Capability)
    requires fetched { F.IsFetched store.old number }
    requires announced { F.IsAnnounced store.old number }
    requires within { slot < 32 }
    ensures { Edits F.parts F.IsFetched F.IsAnnounced F.ContinuesTo store.old store.new
        (with_slot (objects_in (F.parts store.old)) number slot capability)
        (λ age. IsKeptCap (F.parts store.old).geometry age (live_cap (F.parts store.old).headers capability)
        × (IsTrue (is_annex (held_at (F.parts store.old).contents number)) → slot ≡ 0
        → capability ≡ Capability.Void)) }
{
    let held = store.table().live_cap(capability);
    store.set_slot(number, slot, held);
}

/// Puts the capabilities of a message into the last four slots of a node or registers of an annex, each with
/// its object's present count, so they are live. The node or annex must be fetched and announced. No other
/// object changes.
#[inline(always)]
pub fn set_last_slots<F: PresentFrames>(store: &mut F, number: u64, message: &Message)
    requires fetched { F.IsFetched store.old number }
    requires announced { F.IsAnnounced store.old number }
    ensures { Edits F.parts F.IsFetched F.IsAnnounced F.ContinuesTo store.old store.new
        (with_slots_from (objects_in (F.parts store.old)) number 28 message.now.capabilities)
        (λ age. All (λ c. IsKeptCap (F.parts store.old).geometry age (live_cap (F.parts store.old).headers c))
        message.now.capabilities) }
{
    let [first, second, third, fourth] = message.capabilities;
    let table = store.table();
    let held = [
        table.live_cap(first),
        table.live_cap(second),
        table.live_cap(third),
        table.live_cap(fourth),
    ];
    store.set_last_slots(number, held);
}

/// Sets the words and the key of a process, and makes it running. Its root must be fetched and announced.
pub fn set_message<F: PresentFrames>(store: &mut F, process: u64, words: [u64; 4], key: u16)
    requires fetched { F.IsFetched store.old process }
    requires announced { F.IsAnnounced store.old process }
    requires process { IsTrue (is_process (objects_in (F.parts store.old)) process) }
    ensures { Edits F.parts F.IsFetched F.IsAnnounced F.ContinuesTo store.old store.new
        (with_message (objects_in (F.parts store.old)) process words key)
        (λ age. Unit {0}) }
{
    are_root_words(&words);
    store.change_root(process, RootChange::Message { words, key });
}

/// Makes a free number a new object of a bank (EROS: a space bank's allocation). The number must be fetched
/// and announced. The body is blank, and the counts stay.
#[tactic(auto, using(crate::proofs::Edits::claim_objects, crate::proofs::Edits::claim_stays_current))]
pub fn claim<F: PresentFrames>(store: &mut F, number: u64, fresh: Fresh, owner: u64)
    requires fetched { F.IsFetched store.old number }
    requires announced { F.IsAnnounced store.old number }
    requires free { (header_at (F.parts store.old).headers number).role ≡ Role.Free }
    requires place { IsFreshAt (F.parts store.old).geometry number fresh }
    ensures objects { objects_in (F.parts store.new)
        ≡ slice_set (objects_in (F.parts store.old)) number
        (record { owner = owner; content = fresh_content Capability.Void fresh }) }
    ensures current { AreCurrent (frames_of (F.parts store.old))
        → AreCurrent (frames_of (F.parts store.new)) }
    ensures keepable { (age : ℕ) → FreshFits fresh
        → AreKeepable (F.parts store.old).geometry age (frames_of (F.parts store.old))
        → AreKeepable (F.parts store.old).geometry age (frames_of (F.parts store.new)) }
    ensures snapshots { KeepsRest F.parts F.IsFetched F.IsAnnounced F.ContinuesTo store.old store.new }
{
    store.claim(number, fresh, owner);
}

/// Makes another bank the owner of an object, which must be announced.
#[tactic(auto, using(crate::proofs::Edits::owner_objects, crate::proofs::Edits::owner_stays_current))]
pub fn set_owner<F: PresentFrames>(store: &mut F, number: u64, bank: u64)
    requires announced { F.IsAnnounced store.old number }
    ensures objects { let objects = objects_in (F.parts store.old) in
        objects_in (F.parts store.new)
        ≡ slice_set objects number (record { owner = bank; content = content_at objects number }) }
    ensures current { AreCurrent (frames_of (F.parts store.old))
        → AreCurrent (frames_of (F.parts store.new)) }
    ensures keepable { (age : ℕ)
        → ((header_at (F.parts store.old).headers number).role ≡ Role.Free → bank ≡ 0)
        → AreKeepable (F.parts store.old).geometry age (frames_of (F.parts store.old))
        → AreKeepable (F.parts store.old).geometry age (frames_of (F.parts store.new)) }
    ensures snapshots { KeepsRest F.parts F.IsFetched F.IsAnnounced F.ContinuesTo store.old store.new }
{
    store.set_owner(number, bank);
}

/// Voids every resume capability to a process, whose root is announced (EROS: a resume capability
/// works at most once).
#[tactic(auto, using(crate::proofs::Counts::objects_called, crate::proofs::Counts::current_called))]
pub fn consume<F: PresentFrames>(store: &mut F, process: u64)
    requires announced { F.IsAnnounced store.old process }
    requires calls { (header_at (F.parts store.old).headers process).calls < u64.MAX }
    requires current { AreCurrent (frames_of (F.parts store.old)) }
    ensures objects { objects_in (F.parts store.new)
        ≡ consumed process (objects_in (F.parts store.old)) }
    ensures current { AreCurrent (frames_of (F.parts store.new)) }
    ensures keepable { (age : ℕ) → age + 1 < 2 ^ 64
        → AreKeepable (F.parts store.old).geometry age (frames_of (F.parts store.old))
        → AreKeepable (F.parts store.old).geometry (age + 1) (frames_of (F.parts store.new)) }
    ensures snapshots { KeepsRest F.parts F.IsFetched F.IsAnnounced F.ContinuesTo store.old store.new }
{
    store.consume(process);
}

/// Frees the listed objects, each announced and listed once. Every capability to them becomes void
/// (EROS: rescind, KeyKOS: sever).
pub fn rescind<F: PresentFrames>(store: &mut F, numbers: &[u64])
    requires announced { All (F.IsAnnounced store.old) numbers.now }
    requires once { IsOnce numbers.now }
    requires allocations { All
        (λ n. (header_at (F.parts store.old).headers n).allocations < u64.MAX) numbers.now }
    requires calls { All
        (λ n. (header_at (F.parts store.old).headers n).calls < u64.MAX) numbers.now }
    requires current { AreCurrent (frames_of (F.parts store.old)) }
    ensures objects { objects_in (F.parts store.new)
        ≡ rescinded numbers.now (objects_in (F.parts store.old)) }
    ensures current { AreCurrent (frames_of (F.parts store.new)) }
    ensures keepable { (age : ℕ) → age + 1 < 2 ^ 64
        → AreKeepable (F.parts store.old).geometry age (frames_of (F.parts store.old))
        → AreKeepable (F.parts store.old).geometry (age + 1) (frames_of (F.parts store.new)) }
    ensures given_up { AreGivenUp numbers.now (F.parts store.old) (F.parts store.new) }
    ensures fetched { (n : ℕ) → is_member numbers.now n ≡ false
        → F.IsFetched store.old n → F.IsFetched store.new n }
    ensures announced { (n : ℕ) → is_member numbers.now n ≡ false
        → F.IsAnnounced store.old n → F.IsAnnounced store.new n }
    ensures continues { F.ContinuesTo store.old store.new }
{
    for number in numbers {
        store.reset(*number);
    }
}

// A lemma as a function, which does nothing: the words of a root have 64 bits each.
fn are_root_words(words: &[u64])
    requires { length words.now ≡ 4 }
    ensures { AreKeptWords 4 words.now }
{
    let _count = words.len();
}
