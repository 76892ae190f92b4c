// The step of showing an object.
ghost use Rattle.std.specs.Prelude.{ℕ, ◌≡◌, ◌≢◌, ◌<◌, IfOk, IsTrue, length, if◌then◌else◌, slice_index};
ghost use Rattle.model.specs.declared.command.Command.TheVariants as command;
ghost use Rattle.model.specs.Keepable.{IsSoundFrames};
ghost use Rattle.model.specs.Step.{shown};
ghost use Rattle.model.specs.Object.{is_annex, is_bank, slots_in};
ghost use Rattle.model.specs.World.{content_at};
ghost use Rattle.capability.specs.Parts.{MayFetch, OnlyFetches, OnlyReads, frames_of, objects_in};
ghost use Rattle.space_bank.specs.Banks.{AreCounted};
ghost use Rattle.kernel.specs.Machine.{MakesNoDeviceCall, Performs, answer_of};

use capability::{Frames, view};
use model::{Answer, Capability, Content, Description, Refusal, Shown, Slots};
use space_bank::Banks;
use std::alloc::Global;

// Returns the usage of a bank, or 0 for any other object.
fn used_by(banks: &Banks, content: &Content<Capability>, number: u64) -> u64
    ensures { result ≡ (if is_bank content.now then slice_index banks.now.usages number else 0) }
{
    match content {
        Content::Bank { .. } => banks.usage(number),
        _ => 0,
    }
}

// Returns the registers of a process, read from its annex.
fn registers_of<F: Frames>(
    alloc: Global,
    store: &mut F,
    annex: u64,
) -> Result<Slots<Capability>, Refusal>
    requires may { MayFetch F.IsUsable F.parts store.old }
    requires annex { IsTrue (is_annex
        (content_at (objects_in (F.parts store.old)) annex)) }
    ensures registers { IfOk result
        (λ registers. registers ≡ slots_in (content_at (objects_in (F.parts store.old)) annex)) }
    ensures only_reads { OnlyReads F.parts F.ContinuesTo store.old store.new result }
{
    store.fetch(&[annex])?;
    Ok(view::registers(alloc, store, annex)?)
}

// Returns an object as `show` answers it: with the registers of a process, the usage of a bank, and
// void in place of stale capabilities.
fn shown<F: Frames>(
    alloc: Global,
    store: &mut F,
    banks: &Banks,
    number: u64,
) -> Result<Answer, Refusal>
    requires usable { F.IsUsable store.old }
    requires sound { (age : ℕ) × IsSoundFrames (F.parts store.old).geometry age (frames_of (F.parts store.old)) }
    requires counted { AreCounted (F.parts store.old).geometry
        (objects_in (F.parts store.old)) banks.now }
    requires known { number < length (F.parts store.old).headers }
    ensures answer { IfOk result (λ answer. answer ≡ shown (objects_in (F.parts store.old)) number) }
    ensures only_reads { OnlyReads F.parts F.ContinuesTo store.old store.new result }
{
    store.fetch(&[number])?;
    let object = view::object(alloc, store, number)?;
    let used = used_by(banks, &object.content, number);
    let registers = match &object.content {
        Content::Root(root) => Some(registers_of(alloc, store, root.annex)?),
        _ => None,
    };
    let description = Description {
        number,
        object,
        registers,
        used,
    };
    Ok(Answer::Shown(Shown::new(alloc, description)?))
}

/// Returns the answer to `show` of an object.
///
/// Refused with `BadNumber` if no object has the number (the store is untouched), and with `NoMemory`
/// if memory ran out. `Fault` exactly if the device failed.
pub fn show<F: Frames>(
    alloc: Global,
    store: &mut F,
    banks: &Banks,
    number: u64,
) -> Result<Answer, Refusal>
    requires usable { F.IsUsable store.old }
    requires sound { (age : ℕ) × IsSoundFrames (F.parts store.old).geometry age (frames_of (F.parts store.old)) }
    requires counted { AreCounted (F.parts store.old).geometry
        (objects_in (F.parts store.old)) banks.now }
    ensures serves { (age : ℕ) → IsSoundFrames (F.parts store.old).geometry age (frames_of (F.parts store.old))
        → Performs age (F.parts store.old) (command.Show number) (answer_of result) age (F.parts store.new) }
    ensures untouched { MakesNoDeviceCall (answer_of result) → store.new ≡ store.old }
    ensures no_fault { IfOk result (λ answer. answer ≢ Answer.Refused Refusal.Fault) }
    ensures snapshots { OnlyFetches F.parts F.ContinuesTo store.old store.new }
{
    if number >= store.table().count() {
        return Err(Refusal::BadNumber);
    }
    shown(alloc, store, banks, number)
}
