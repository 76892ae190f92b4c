// Objects as values that can be printed.
ghost use Rattle.std.specs.Prelude.{◌≡◌, map, IfOk, IsTrue};
ghost use Rattle.model.specs.Frame.{content_behind, conveyed};
ghost use Rattle.model.specs.Object.{is_annex, map_content, slots_in};
ghost use Rattle.model.specs.World.{content_at, object_at};
ghost use Rattle.capability.specs.Parts.{objects_in};

use crate::present::Frames;
use crate::table::ObjectTable;
use model::{Cap, Capability, Content, ContentRef, Object, Root, SLOTS, Slots, Words};
use std::alloc::{AllocError, Global};

// What each of 32 stored capabilities conveys.
fn conveyed_slots(
    alloc: Global,
    table: &ObjectTable,
    held: &[Cap; SLOTS],
) -> Result<Slots<Capability>, AllocError>
    ensures { IfOk result (λ slots. slots ≡ map (conveyed table.now) held.now) }
{
    let mut slots = Slots::new(alloc, Capability::Void)?;
    for (i, capability) in held.iter().enumerate() {
        slots.set(i, table.conveyed(*capability));
    }
    Ok(slots)
}

// An object's content, in which each capability is replaced by what it conveys.
fn conveyed_content(
    alloc: Global,
    table: &ObjectTable,
    held: ContentRef<'_>,
) -> Result<Content<Capability>, AllocError>
    ensures { IfOk result (λ content. content ≡ map_content (conveyed table.now) (content_behind held.entry)) }
{
    match held {
        ContentRef::Free => Ok(Content::Free),
        ContentRef::Page(words) => Ok(Content::Page(Words::of(alloc, words)?)),
        ContentRef::Node(slots) => Ok(Content::Node(conveyed_slots(alloc, table, slots)?)),
        ContentRef::Root(root) => Ok(Content::Root(Root {
            state: root.state,
            words: root.words,
            key: root.key,
            annex: root.annex,
            space: table.conveyed(root.space),
        })),
        ContentRef::Annex(registers) => Ok(Content::Annex(conveyed_slots(
            alloc, table, registers,
        )?)),
        ContentRef::Bank { limit } => Ok(Content::Bank { limit }),
    }
}

/// A fetched object, in which stale capabilities are void. Fails only if memory runs out.
pub fn object<F: Frames>(alloc: Global, store: &F, number: u64) -> Result<Object, AllocError>
    requires { F.IsFetched store.now number }
    ensures { IfOk result (λ object.
        object ≡ object_at (objects_in (F.parts store.now)) number) }
{
    Ok(Object {
        owner: store.table().header(number).owner,
        content: conveyed_content(alloc, store.table(), store.frame(number))?,
    })
}

/// The registers in a fetched annex, in which stale capabilities are void. Fails only if memory runs out.
#[tactic(auto, using(crate::proofs::FrameLists::content_there))]
pub fn registers<F: Frames>(
    alloc: Global,
    store: &F,
    annex: u64,
) -> Result<Slots<Capability>, AllocError>
    requires fetched { F.IsFetched store.now annex }
    requires annex { IsTrue
        (is_annex (content_at (objects_in (F.parts store.now)) annex)) }
    ensures { IfOk result (λ registers.
        registers ≡ slots_in (content_at (objects_in (F.parts store.now)) annex)) }
{
    match store.frame(annex) {
        ContentRef::Annex(registers) => conveyed_slots(alloc, store.table(), registers),
        _ => unreachable!(),
    }
}
