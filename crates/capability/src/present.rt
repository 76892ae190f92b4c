// The present frames of objects: a trait to read them, and one to change them.
ghost use Rattle.std.specs.Prelude.{◌≡◌, ◌≢◌, ℕ, ◌<◌, ◌≤◌, ◌∷◌, [], length, OnOk, IsErr, ◌↔◌};
ghost use Rattle.std.specs.List.{All, Contains};
ghost use Rattle.model.specs.declared.object.Content.TheVariants as content;
ghost use Rattle.model.specs.Machine.{touched_count};
ghost use Rattle.model.specs.Frame.{content_behind, header_at, held_at, void_held, given_up, owned_by, called, claimed};
ghost use Rattle.model.specs.Object.{role_of, with_slot_in, with_word_in};
ghost use Rattle.capability.specs.Objects.{changed_root, with_root_in, with_slots_in};
ghost use Rattle.capability.specs.Parts.{Parts, with_header, with_held, with_both, fresh_content, IsFreshAt};
ghost use Rattle.capability.specs.Parts.{Becomes, MayFetch, OnlyFetches, Prepares};

use crate::table::ObjectTable;
use device::Failed;
use model::{Cap, ContentRef, Geometry, Refusal, Role, Root, State};

/// How many frames can be fetched at a time.
pub const MAX_FETCHED: usize = 8;

/// What a free number becomes.
#[derive(Clone, Copy)]
pub enum Fresh {
    /// A page of zeros.
    Page,
    /// A node with void slots.
    Node,
    /// An available process without a message or an address space.
    Root {
        /// The number of its annex.
        annex: u64,
    },
    /// An annex with void registers.
    Annex,
    Bank {
        limit: u64,
    },
}

/// A change of a process's root.
#[derive(Clone, Copy)]
pub enum RootChange {
    /// The state.
    State(State),
    /// A word of the last message; nothing if the index is out of range.
    Word { index: usize, word: u64 },
    /// The address space.
    Space(Cap),
    /// The words and the key of a message. The process runs afterwards.
    Message { words: [u64; 4], key: u16 },
}

impl RootChange {
    /// Makes the change.
    #[inline(always)]
    pub fn make(self, root: &mut Root<Cap>)
        ensures { root.new ≡ changed_root self root.old }
    {
        match self {
            RootChange::State(state) => root.state = state,
            RootChange::Word { index, word } => {
                if index < root.words.len() {
                    root.words[index] = word;
                }
            }
            RootChange::Space(space) => root.space = space,
            RootChange::Message { words, key } => {
                root.state = State::Running;
                root.words = words;
                root.key = key;
            }
        }
    }
}

/// The present objects, to be read.
///
/// The table with the headers of all objects is always in memory. `fetch` brings bodies into memory. No call
/// allocates: a store takes all its memory when it is opened.
pub trait Frames: Drop {
    ghost parts: { Self → Parts };

    /// The store was opened, and the device hasn't failed since, so objects can be read and changed.
    ghost IsUsable: { Self → Type 0 };

    ghost IsFetched: { Self → ℕ → Type 0 };

    /// The store went on with no commit and no new checkpoint.
    ghost ContinuesTo: { Self → Self → Type 0 };

    /// The numbers of nodes, pages and log slots. At most `log` numbers are touched (`within`).
    fn geometry(&self) -> Geometry
        ensures geometry { result ≡ (parts self.now).geometry }
        ensures within { IsUsable self.now
            → touched_count (parts self.now).touched ≤ (parts self.now).geometry.log };

    /// The headers of all objects, fetched or not.
    fn table(&self) -> &ObjectTable
        ensures { result.now ≡ (parts self.now).headers };

    /// Brings the bodies of up to 8 objects into memory. No object changes. Fails exactly if the device
    /// fails. After a failure the objects are unknown and no call can follow: close the store.
    fn fetch(&mut self, numbers: &[u64]) -> Result<(), Failed>
        requires few { length numbers.now ≤ MAX_FETCHED }
        requires known { All (λ n. n < length (parts self.old).headers) numbers.now }
        requires may { MayFetch IsUsable parts self.old }
        ensures fetched { OnOk result ((n : ℕ) → Contains numbers.now n → IsFetched self.new n) }
        ensures same { OnOk result (parts self.new ≡ parts self.old) }
        ensures cause { IsErr result ↔ ((parts self.old).failures < (parts self.new).failures) }
        ensures snapshots { OnlyFetches parts ContinuesTo self.old self.new };

    /// The body of a fetched object.
    fn frame(&self, number: u64) -> ContentRef<'_>
        requires { IsFetched self.now number }
        ensures { content_behind result ≡ held_at (parts self.now).contents number };

    ghost known_fetched: { (s : Self) (n : ℕ) → IsFetched s n → (n < length (parts s).headers)
        × (n < length (parts s).contents) };

    /// A usable store stays usable until the device fails.
    ghost stays_usable: { (s t : Self) → ContinuesTo s t → (parts t).failures ≡ (parts s).failures
        → IsUsable s → IsUsable t };

    ghost continues_same: { (s : Self) → ContinuesTo s s };

    ghost continues_twice: { (s t u : Self) → ContinuesTo s t → ContinuesTo t u → ContinuesTo s u };
}

/// The present objects, to be read and changed, and the numbers written since the last checkpoint.
///
/// A body can be changed only if its object is announced and, except by `reset`, fetched.
pub trait PresentFrames: Frames {
    ghost IsAnnounced: { Self → ℕ → Type 0 };

    /// Brings the bodies of up to 8 objects into memory, and announces the objects to be written.
    ///
    /// `LogFull` changes no object and no touched number; it comes only if more numbers would be touched than
    /// half of the log has slots. `Fault` comes exactly if the device failed; then the objects are unknown.
    /// There is no other refusal.
    fn prepare(&mut self, fetched: &[u64], written: &[u64]) -> Result<(), Refusal>
        requires few { length fetched.now ≤ MAX_FETCHED }
        requires known { All (λ n. n < length (Self.parts self.old).headers) fetched.now }
        requires announced { All (λ n. n < length (Self.parts self.old).headers) written.now }
        requires may { MayFetch Self.IsUsable Self.parts self.old }

        ensures fetched { OnOk result
            ((n : ℕ) → Contains fetched.now n → Self.IsFetched self.new n) }
        ensures announced { OnOk result
            ((n : ℕ) → Contains written.now n → IsAnnounced self.new n) }
        ensures prepares { Prepares Self.parts Self.ContinuesTo self.old self.new written.now result };

    /// Sets a word of a page. No other body changes.
    fn set_word(&mut self, number: u64, index: usize, word: u64)
        requires fetched { Self.IsFetched self.old number }
        requires announced { IsAnnounced self.old number }
        requires within { index < 512 }
        ensures { Becomes Self.parts Self.IsFetched IsAnnounced Self.ContinuesTo self.old self.new
            (with_held (Self.parts self.old) number
            (with_word_in (held_at (Self.parts self.old).contents number) index word)) };

    /// Sets a slot of a node or a register of an annex. No other body changes.
    fn set_slot(&mut self, number: u64, slot: usize, held: Cap)
        requires fetched { Self.IsFetched self.old number }
        requires announced { IsAnnounced self.old number }
        requires within { slot < 32 }
        ensures { Becomes Self.parts Self.IsFetched IsAnnounced Self.ContinuesTo self.old self.new
            (with_held (Self.parts self.old) number
            (with_slot_in (held_at (Self.parts self.old).contents number) slot held)) };

    /// Sets the last four slots of a node or registers of an annex. No other body changes.
    fn set_last_slots(&mut self, number: u64, held: [Cap; 4])
        requires fetched { Self.IsFetched self.old number }
        requires announced { IsAnnounced self.old number }
        ensures { Becomes Self.parts Self.IsFetched IsAnnounced Self.ContinuesTo self.old self.new
            (with_held (Self.parts self.old) number
            (with_slots_in (held_at (Self.parts self.old).contents number) 28 held)) };

    /// Changes the root of a process. No other body changes.
    fn change_root(&mut self, process: u64, change: RootChange)
        requires fetched { Self.IsFetched self.old process }
        requires announced { IsAnnounced self.old process }
        ensures { Becomes Self.parts Self.IsFetched IsAnnounced Self.ContinuesTo self.old self.new
            (with_held (Self.parts self.old) process
            (with_root_in (changed_root change) (held_at (Self.parts self.old).contents process))) };

    /// Makes a free number an object. Its counts stay.
    fn claim(&mut self, number: u64, fresh: Fresh, owner: u64)
        requires fetched { Self.IsFetched self.old number }
        requires announced { IsAnnounced self.old number }
        requires free { (header_at (Self.parts self.old).headers number).role ≡ Role.Free }
        requires place { IsFreshAt (Self.parts self.old).geometry number fresh }
        ensures { Becomes Self.parts Self.IsFetched IsAnnounced Self.ContinuesTo self.old self.new
            (with_both (Self.parts self.old) number
            (claimed (role_of (fresh_content void_held fresh)) owner (header_at (Self.parts self.old).headers number))
            (fresh_content void_held fresh)) };

    /// Frees an object and raises both of its counts by one.
    fn reset(&mut self, number: u64)
        requires announced { IsAnnounced self.old number }
        requires allocations { (header_at (Self.parts self.old).headers number).allocations < u64.MAX }
        requires calls { (header_at (Self.parts self.old).headers number).calls < u64.MAX }
        ensures { Becomes Self.parts Self.IsFetched IsAnnounced Self.ContinuesTo self.old self.new
            (with_both (Self.parts self.old) number
            (given_up (header_at (Self.parts self.old).headers number)) content.Free) };

    /// Makes another bank the owner of an object.
    fn set_owner(&mut self, number: u64, bank: u64)
        requires { IsAnnounced self.old number }
        ensures { Becomes Self.parts Self.IsFetched IsAnnounced Self.ContinuesTo self.old self.new
            (with_header (Self.parts self.old) number
            (owned_by bank (header_at (Self.parts self.old).headers number))) };

    /// Raises a process's call count by one, which makes every resume capability to it stale.
    fn consume(&mut self, root: u64)
        requires announced { IsAnnounced self.old root }
        requires calls { (header_at (Self.parts self.old).headers root).calls < u64.MAX }
        ensures { Becomes Self.parts Self.IsFetched IsAnnounced Self.ContinuesTo self.old self.new
            (with_header (Self.parts self.old) root
            (called (header_at (Self.parts self.old).headers root))) };

    ghost known_announced: { (s : Self) (n : ℕ) → IsAnnounced s n → (n < length (Self.parts s).headers)
        × (n < length (Self.parts s).contents) };
}
