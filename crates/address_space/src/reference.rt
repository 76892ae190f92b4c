// Loads and stores of processes.
ghost use Rattle.std.specs.Prelude.{◌≡◌, ◌%◌, ◌<◌, ◌≤◌, IfOk, OnOk, IsErrOf, IsTrue, [], ◌∷◌};
ghost use Rattle.model.specs.Machine.{touched_count, touching};
ghost use Rattle.model.specs.Object.{is_page};
ghost use Rattle.model.specs.Step.{reached};
ghost use Rattle.model.specs.World.{content_at, is_running_process, with_word};
ghost use Rattle.capability.specs.Parts.{AreSound, objects_in};
ghost use Rattle.address_space.specs.Reaches.{ReachesPage, allowed, reported};
ghost use Rattle.capability.specs.Parts.{FetchesOrFails};
ghost use Rattle.address_space.specs.References.{IsLoaded, IsStored, OverfillsStore, WritesWord};

use crate::fetching::{fetch_one, space_of};
use crate::walking::{Reached, walk};
use capability::{Frames, PresentFrames, objects};
use device::Failed;
use model::{MemoryFault, Refusal, WORDS};

/// Reads the word at an address in the address space of a running process. If the walk to its page stops,
/// returns the memory fault of `walk`.
///
/// Changes nothing. Fails exactly if the device fails.
#[tactic(auto, using(crate::proofs::Known::page_still_known))]
pub fn load<F: Frames>(
    frames: &mut F,
    process: u64,
    address: u64,
) -> Result<Result<u64, MemoryFault>, Failed>
    requires usable { F.IsUsable frames.old }
    requires sound { AreSound (F.parts frames.old) }
    requires process { IsTrue (is_running_process (objects_in (F.parts frames.old)) process) }
    ensures loaded { IfOk result (λ loaded.
        IsLoaded (objects_in (F.parts frames.old)) process address loaded) }
    ensures fetches { FetchesOrFails F.parts F.ContinuesTo frames.old frames.new result }
{
    match reach(frames, process, address, false)? {
        Ok(found) => {
            fetch_one(frames, found.page)?;
            Ok(Ok(objects::word(frames, found.page, word_index(address))))
        }
        Err(fault) => Ok(Err(fault)),
    }
}

/// Writes a word at an address in the address space of a running process. If the walk to its page stops,
/// returns the memory fault of `walk` for a store, and writes nothing.
///
/// Only the page is written. It is announced after the walk has reached it, so a memory fault comes before
/// `LogFull`. Returns `LogFull` if, with the page, more objects would be touched than a log half has slots;
/// then nothing changes. Returns `Fault` exactly if the device failed; then the objects are unknown. There is
/// no other refusal.
pub fn store<F: PresentFrames>(
    frames: &mut F,
    process: u64,
    address: u64,
    word: u64,
) -> Result<Result<(), MemoryFault>, Refusal>
    requires usable { F.IsUsable frames.old }
    requires sound { AreSound (F.parts frames.old) }
    requires process { IsTrue (is_running_process (objects_in (F.parts frames.old)) process) }
    ensures stored { IfOk result (λ stored. IsStored (F.parts frames.old).geometry.log
        (objects_in (F.parts frames.old)) (F.parts frames.old).touched process address word
        (objects_in (F.parts frames.new)) (F.parts frames.new).touched stored) }
    ensures full { IsErrOf result Refusal.LogFull
        → OverfillsStore (F.parts frames.old).geometry.log (objects_in (F.parts frames.old))
        (F.parts frames.old).touched process address }
    ensures writes { WritesWord F.parts F.ContinuesTo frames.old frames.new result }
{
    match reach(frames, process, address, true)? {
        Ok(found) => {
            put(frames, found.page, word_index(address), word)?;
            Ok(Ok(()))
        }
        Err(fault) => Ok(Err(fault)),
    }
}

// Returns the page that a load or a store of a process reaches.
fn reach<F: Frames>(
    frames: &mut F,
    process: u64,
    address: u64,
    for_write: bool,
) -> Result<Result<Reached, MemoryFault>, Failed>
    requires usable { F.IsUsable frames.old }
    requires sound { AreSound (F.parts frames.old) }
    requires process { IsTrue (is_running_process (objects_in (F.parts frames.old)) process) }
    ensures reached { IfOk result (λ found.
        reported found ≡ allowed for_write
        (reached (objects_in (F.parts frames.old)) process address)) }
    ensures page { IfOk result (ReachesPage (objects_in (F.parts frames.old))) }
    ensures fetches { FetchesOrFails F.parts F.ContinuesTo frames.old frames.new result }
{
    let space = space_of(frames, process)?;
    walk(frames, space, address, for_write)
}

// Announces a page, and writes a word into it.
#[tactic(auto, using(crate::proofs::Known::page_known))]
fn put<F: PresentFrames>(frames: &mut F, page: u64, index: usize, word: u64) -> Result<(), Refusal>
    requires usable { F.IsUsable frames.old }
    requires sound { AreSound (F.parts frames.old) }
    requires page { IsTrue (is_page (content_at (objects_in (F.parts frames.old)) page)) }
    requires within { index < 512 }
    ensures objects { OnOk result (objects_in (F.parts frames.new)
        ≡ with_word (objects_in (F.parts frames.old)) page index word) }
    ensures touched { OnOk result ((F.parts frames.new).touched
        ≡ touching (F.parts frames.old).touched (page ∷ [])) }
    ensures within { OnOk result (touched_count (F.parts frames.new).touched
        ≤ (F.parts frames.old).geometry.log) }
    ensures full { IsErrOf result Refusal.LogFull
        → (F.parts frames.old).geometry.log
        < touched_count (touching (F.parts frames.old).touched (page ∷ [])) }
    ensures writes { WritesWord F.parts F.ContinuesTo frames.old frames.new result }
{
    frames.prepare(&[page], &[page])?;
    objects::set_word(frames, page, index, word);
    Ok(())
}

// Returns the index of a word in its page.
fn word_index(address: u64) -> usize
    ensures { result ≡ address % 512 }
{
    (address % WORDS as u64) as usize
}
