// The steps of loads and stores.
ghost use Rattle.std.specs.Prelude.{ℕ, ◌≡◌, ◌≢◌, IfOk};
ghost use Rattle.model.specs.declared.command.Command.TheVariants as command;
ghost use Rattle.model.specs.Keepable.{IsSoundFrames};
ghost use Rattle.capability.specs.Parts.{OnlyFetches, frames_of, objects_in};
ghost use Rattle.space_bank.specs.Banks.{AreCounted, BanksState};
ghost use Rattle.kernel.specs.Machine.{MakesNoDeviceCall, Performs, answer_of};

use crate::processes::early::early;
use capability::{Frames, PresentFrames};
use model::{Answer, Refusal};

/// Reads the word at an address in the address space of a process. The age stays.
///
/// Returns `Value`, or `MemoryFault` if the walk can't reach a page. A refusal changes nothing:
/// `NoProcess` (the store is untouched), else `NotRunning`. `Fault` exactly if the device failed:
/// then nothing is said of the objects.
pub fn load<F: Frames>(store: &mut F, process: u64, address: u64) -> Result<Answer, Refusal>
    requires usable { F.IsUsable store.old }
    requires sound { (age : ℕ) × IsSoundFrames (F.parts store.old).geometry age (frames_of (F.parts store.old)) }
    ensures serves { (age : ℕ) → IsSoundFrames (F.parts store.old).geometry age (frames_of (F.parts store.old))
        → Performs age (F.parts store.old) (command.Load process address) (answer_of result) age (F.parts store.new) }
    ensures untouched { MakesNoDeviceCall (answer_of result) → store.new ≡ store.old }
    ensures no_fault { IfOk result (λ answer. answer ≢ Answer.Refused Refusal.Fault) }
    ensures snapshots { OnlyFetches F.parts F.ContinuesTo store.old store.new }
{
    if let Some(why) = early(store, process)? {
        return Err(why);
    }
    match address_space::load(store, process, address)? {
        Ok(word) => Ok(Answer::Value(word)),
        Err(fault) => Ok(Answer::MemoryFault(fault)),
    }
}

/// Writes a word at an address in the address space of a process. The age stays.
///
/// Returns `Done`, or `MemoryFault` if the walk can't reach a page or the page is read-only. A
/// refusal changes nothing: the first that applies of `NoProcess` (the store is untouched),
/// `NotRunning` and `LogFull`. A memory fault precedes `LogFull`. The counts of `Banks` stay right.
/// `Fault` exactly if the device failed: then nothing is said of the objects.
pub fn store<F: PresentFrames>(
    store: &mut F,
    process: u64,
    address: u64,
    word: u64,
) -> Result<Answer, Refusal>
    requires usable { F.IsUsable store.old }
    requires sound { (age : ℕ) × IsSoundFrames (F.parts store.old).geometry age (frames_of (F.parts store.old)) }
    ensures serves { (age : ℕ) → IsSoundFrames (F.parts store.old).geometry age (frames_of (F.parts store.old))
        → Performs age (F.parts store.old) (command.Store process address word) (answer_of result) age
        (F.parts store.new) }
    ensures untouched { MakesNoDeviceCall (answer_of result) → store.new ≡ store.old }
    ensures no_fault { IfOk result (λ answer. answer ≢ Answer.Refused Refusal.Fault) }
    ensures counted { (banks : BanksState)
        → AreCounted (F.parts store.old).geometry (objects_in (F.parts store.old)) banks
        → (F.parts store.new).failures ≡ (F.parts store.old).failures
        → AreCounted (F.parts store.new).geometry (objects_in (F.parts store.new)) banks }
    ensures continues { F.ContinuesTo store.old store.new }
{
    if let Some(why) = early(store, process)? {
        return Err(why);
    }
    match address_space::store(store, process, address, word)? {
        Ok(()) => Ok(Answer::Done),
        Err(fault) => Ok(Answer::MemoryFault(fault)),
    }
}
