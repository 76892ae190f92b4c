// Putting the objects of a description into a world.
ghost use Rattle.std.specs.Prelude.{◌≡◌, ◌<◌, ◌^◌, length, map, vec_len, IfOk, OnOk};
ghost use Rattle.std.specs.List.{All};
ghost use Rattle.model.specs.Keepable.{AreKeptWords};
ghost use Rattle.capability.specs.Plain.{fresh_cap};
ghost use Rattle.description.specs.Laid.{slot_held, slots_of, words_of, root_of, IsLaid};
ghost use Rattle.description.specs.Laid.{OfBank, OfRoot, OfAnnex, OfNode, OfPage};

use crate::world::World;
use crate::{BankEntry, NodeEntry, PageEntry, ProcessEntry, SlotEntry, WordEntry};
use model::{Cap, Capability, Content, Root, Slots, State, Words};
use std::alloc::{AllocError, Global};

// Returns a capability with count 0, which every object of a new image has.
fn fresh_cap(what: Capability) -> Cap
    ensures { result ≡ fresh_cap what }
{
    Cap { what, count: 0 }
}

// Returns a slot's capability with count 0.
fn slot_held(slot: &SlotEntry) -> Cap
    ensures { result ≡ slot_held slot.now }
{
    fresh_cap(slot.capability.unwrap_or(Capability::Void))
}

// Returns 32 slots with these entries; the others are void. Fails only if memory runs out.
#[tactic(auto, using(crate::proofs::Lists::each_wrote))]
fn slots_of(alloc: Global, entries: &[SlotEntry]) -> Result<Slots<Cap>, AllocError>
    requires { All (λ s. s.index < 32) entries.now }
    ensures { IfOk result (λ slots. slots ≡ slots_of entries.now) }
{
    let mut slots = Slots::new(alloc, Cap::void())?;
    for entry in entries {
        slots.set(entry.index as usize, slot_held(entry));
    }
    Ok(slots)
}

// Returns 512 words with these entries; the others are 0. Fails only if memory runs out.
fn words_of(alloc: Global, entries: &[WordEntry]) -> Result<Words, AllocError>
    requires { All (λ w. w.index < 512) entries.now }
    ensures words { IfOk result (λ words. words ≡ words_of entries.now) }
    ensures fits { IfOk result (λ _. All (λ w. w < 2 ^ 64) (words_of entries.now)) }
{
    let mut words = Words::new(alloc)?;
    for entry in entries {
        words.set(entry.index as usize, entry.word);
    }
    Ok(words)
}

// Does nothing; the contract says that the words of a root have 64 bits, which the prover needs.
fn are_root_words(words: &[u64])
    requires { length words.now ≡ 4 }
    ensures { AreKeptWords 4 words.now }
{
    let _count = words.len();
}

// Returns the root of a process.
fn root_of(process: &ProcessEntry) -> Content<Cap>
    requires { process.now.key < 2 ^ 16 }
    ensures root { result ≡ root_of process.now }
    ensures fits { AreKeptWords 4 process.now.words }
{
    are_root_words(&process.words);
    Content::Root(Root {
        state: process.state.unwrap_or(State::Available),
        words: process.words,
        key: process.key as u16,
        annex: process.annex,
        space: fresh_cap(process.space.unwrap_or(Capability::Void)),
    })
}

// Returns the content of a bank with this limit.
fn bank_of(limit: u64) -> Content<Cap>
    ensures bank { result ≡ Content.Bank limit }
    ensures fits { limit < 2 ^ 64 }
{
    Content::Bank { limit }
}

// Puts each bank at its number.
#[tactic(auto, using(crate::proofs::LaidFrames::none_laid, crate::proofs::LaidFrames::all_laid))]
pub(crate) fn lay_banks(world: &mut World, banks: &[BankEntry])
    requires even { vec_len world.old.contents ≡ vec_len world.old.headers }
    requires within { All (λ b. b.number < vec_len world.old.headers) banks.now }
    ensures { IsLaid (map OfBank banks.now) world.old world.new }
{
    for bank in banks {
        world.put(bank.number, bank.owner, bank_of(bank.limit));
    }
}

// Puts the root of each process at its number.
#[tactic(auto, using(crate::proofs::LaidFrames::none_laid, crate::proofs::LaidFrames::still_within))]
pub(crate) fn lay_roots(world: &mut World, processes: &[ProcessEntry])
    requires even { vec_len world.old.contents ≡ vec_len world.old.headers }
    requires within { All (λ p. p.root < vec_len world.old.headers) processes.now }
    requires keys { All (λ p. p.key < 2 ^ 16) processes.now }
    ensures { IsLaid (map OfRoot processes.now) world.old world.new }
{
    for process in processes {
        world.put(process.root, process.owner, root_of(process));
    }
}

// Puts the annex of each process at its number. Fails only if memory runs out.
#[tactic(auto, using(crate::proofs::LaidFrames::none_laid, crate::proofs::LaidFrames::still_within))]
pub(crate) fn lay_annexes(
    alloc: Global,
    world: &mut World,
    processes: &[ProcessEntry],
) -> Result<(), AllocError>
    requires even { vec_len world.old.contents ≡ vec_len world.old.headers }
    requires within { All (λ p. p.annex < vec_len world.old.headers) processes.now }
    requires registers { All (λ p. All (λ s. s.index < 32) p.registers.items) processes.now }
    ensures { OnOk result (IsLaid (map OfAnnex processes.now) world.old world.new) }
{
    for process in processes {
        let registers = slots_of(alloc, &process.registers)?;
        world.put(process.annex, process.owner, Content::Annex(registers));
    }
    Ok(())
}

// Puts each node at its number. Fails only if memory runs out.
#[tactic(auto, using(crate::proofs::LaidFrames::none_laid, crate::proofs::LaidFrames::still_within))]
pub(crate) fn lay_nodes(
    alloc: Global,
    world: &mut World,
    nodes: &[NodeEntry],
) -> Result<(), AllocError>
    requires even { vec_len world.old.contents ≡ vec_len world.old.headers }
    requires within { All (λ n. n.number < vec_len world.old.headers) nodes.now }
    requires slots { All (λ n. All (λ s. s.index < 32) n.slots.items) nodes.now }
    ensures { OnOk result (IsLaid (map OfNode nodes.now) world.old world.new) }
{
    for node in nodes {
        let slots = slots_of(alloc, &node.slots)?;
        world.put(node.number, node.owner, Content::Node(slots));
    }
    Ok(())
}

// Puts each page at its number. Fails only if memory runs out.
#[tactic(auto, using(crate::proofs::LaidFrames::none_laid, crate::proofs::LaidFrames::still_within))]
pub(crate) fn lay_pages(
    alloc: Global,
    world: &mut World,
    pages: &[PageEntry],
) -> Result<(), AllocError>
    requires even { vec_len world.old.contents ≡ vec_len world.old.headers }
    requires within { All (λ p. p.number < vec_len world.old.headers) pages.now }
    requires words { All (λ p. All (λ w. w.index < 512) p.words.items) pages.now }
    ensures { OnOk result (IsLaid (map OfPage pages.now) world.old world.new) }
{
    for page in pages {
        let words = words_of(alloc, &page.words)?;
        world.put(page.number, page.owner, Content::Page(words));
    }
    Ok(())
}
