// The entries of single objects.
ghost use Rattle.std.specs.Prelude.{◌≡◌, ◌≢◌, ◌↔◌, ℕ, ◌<◌, List, length, IfOk, IsTrue};
ghost use Rattle.std.proofs.Common.{rules};
ghost use Rattle.model.specs.declared.object.Object.{Object};
ghost use Rattle.model.specs.declared.object.Role.{Role};
ghost use Rattle.model.specs.declared.object.Role.TheVariants as role;
ghost use Rattle.model.specs.Object.{is_annex, role_of, slots_in};
ghost use Rattle.model.specs.World.{content_at, object_at};
ghost use Rattle.capability.specs.Parts.{AreSound, HaveTheirRoles, OnlyReads, frames_of, objects_in};
ghost use Rattle.image_describer.specs.Brief.{NamesSlots};
ghost use Rattle.image_describer.specs.DescribedEntry.{MayTell, TellsBank, TellsNode, TellsPage, TellsProcess};

use crate::entries::entries_of;
use capability::{Frames, view};
use description::{BankEntry, NodeEntry, PageEntry, ProcessEntry, SlotEntry};
use model::{Content, Object, Refusal, Role};
use std::alloc::Global;

// Whether an object is of a kind, by its header. Fetches nothing.
fn has_role<F: Frames>(store: &F, number: u64, role: Role) -> bool
    requires { HaveTheirRoles (frames_of (F.parts store.now)) }
    ensures { IsTrue result
        ↔ (role_of (content_at (objects_in (F.parts store.now)) number) ≡ role) }
{
    store.table().header(number).role == role
}

// Fetches an object, and returns it with void in place of stale capabilities.
fn object<F: Frames>(alloc: Global, store: &mut F, number: u64) -> Result<Object, Refusal>
    requires usable { F.IsUsable store.old }
    requires sound { AreSound (F.parts store.old) }
    requires known { number < length (F.parts store.old).headers }
    ensures object { IfOk result (λ object.
        object ≡ object_at (objects_in (F.parts store.old)) number) }
    ensures only_reads { OnlyReads F.parts F.ContinuesTo store.old store.new result }
{
    store.fetch(&[number])?;
    Ok(view::object(alloc, store, number)?)
}

// Fetches an annex, and returns its registers that aren't void.
fn registers<F: Frames>(alloc: Global, store: &mut F, annex: u64) -> Result<Vec<SlotEntry>, Refusal>
    requires usable { F.IsUsable store.old }
    requires sound { AreSound (F.parts store.old) }
    requires annex { IsTrue (is_annex
        (content_at (objects_in (F.parts store.old)) annex)) }
    ensures named { IfOk result (λ registers.
        NamesSlots (slots_in (content_at (objects_in (F.parts store.old)) annex)) registers.items) }
    ensures only_reads { OnlyReads F.parts F.ContinuesTo store.old store.new result }
{
    store.fetch(&[annex])?;
    let slots = view::registers(alloc, store, annex)?;
    Ok(entries_of(alloc, slots.as_slice())?)
}

/// An entry that describes an object.
pub(crate) trait DescribedEntry: Drop {
    /// The number of the entry's object.
    ghost number_of: { Self → ℕ };

    /// The entry describes the object at its number in this list.
    ghost Tells: { List Object → Self → Type 0 };

    ghost kind: { Role };

    /// Returns the entry for a number, or `None` if it has no object of this kind. Returns `Fault` exactly if the
    /// device failed.
    fn entry_of<F: Frames>(
        alloc: Global,
        store: &mut F,
        number: u64,
    ) -> Result<Option<Self>, Refusal>
        requires usable { F.IsUsable store.old }
        requires sound { AreSound (F.parts store.old) }
        requires known { number < length (F.parts store.old).headers }
        ensures entry_of { let objects = objects_in (F.parts store.old) in
            IfOk result (MayTell number_of (Tells objects) kind objects number) }
        ensures only_reads { OnlyReads F.parts F.ContinuesTo store.old store.new result };

    /// The kind isn't `Free`: free numbers have no entries.
    ghost is_kept: { kind ≢ role.Free };
}

impl DescribedEntry for BankEntry {
    ghost number_of = { λ b. b.number };

    ghost Tells = { TellsBank };

    ghost kind = { role.Bank };

    ghost is_kept = { Prim.search rules };

    fn entry_of<F: Frames>(
        alloc: Global,
        store: &mut F,
        number: u64,
    ) -> Result<Option<BankEntry>, Refusal> {
        if !has_role(store, number, Role::Bank) {
            return Ok(None);
        }
        let Object { owner, content } = object(alloc, store, number)?;
        let Content::Bank { limit } = content else {
            unreachable!()
        };
        Ok(Some(BankEntry {
            number,
            owner,
            limit,
        }))
    }
}

// A process's entry has the root's number and the annex's registers.
impl DescribedEntry for ProcessEntry {
    ghost number_of = { λ p. p.root };

    ghost Tells = { TellsProcess };

    ghost kind = { role.Root };

    ghost is_kept = { Prim.search rules };

    fn entry_of<F: Frames>(
        alloc: Global,
        store: &mut F,
        number: u64,
    ) -> Result<Option<ProcessEntry>, Refusal> {
        if !has_role(store, number, Role::Root) {
            return Ok(None);
        }
        let Object { owner, content } = object(alloc, store, number)?;
        let Content::Root(root) = content else {
            unreachable!()
        };
        let registers = registers(alloc, store, root.annex)?;
        let words = root.words;
        Ok(Some(ProcessEntry {
            root: number,
            annex: root.annex,
            owner,
            state: Some(root.state),
            key: u64::from(root.key),
            words,
            space: Some(root.space),
            registers,
        }))
    }
}

impl DescribedEntry for NodeEntry {
    ghost number_of = { λ n. n.number };

    ghost Tells = { TellsNode };

    ghost kind = { role.Node };

    ghost is_kept = { Prim.search rules };

    fn entry_of<F: Frames>(
        alloc: Global,
        store: &mut F,
        number: u64,
    ) -> Result<Option<NodeEntry>, Refusal> {
        if !has_role(store, number, Role::Node) {
            return Ok(None);
        }
        let Object { owner, content } = object(alloc, store, number)?;
        let Content::Node(slots) = content else {
            unreachable!()
        };
        let slots = entries_of(alloc, slots.as_slice())?;
        Ok(Some(NodeEntry {
            number,
            owner,
            slots,
        }))
    }
}

impl DescribedEntry for PageEntry {
    ghost number_of = { λ p. p.number };

    ghost Tells = { TellsPage };

    ghost kind = { role.Page };

    ghost is_kept = { Prim.search rules };

    fn entry_of<F: Frames>(
        alloc: Global,
        store: &mut F,
        number: u64,
    ) -> Result<Option<PageEntry>, Refusal> {
        if !has_role(store, number, Role::Page) {
            return Ok(None);
        }
        let Object { owner, content } = object(alloc, store, number)?;
        let Content::Page(words) = content else {
            unreachable!()
        };
        let words = entries_of(alloc, words.as_slice())?;
        Ok(Some(PageEntry {
            number,
            owner,
            words,
        }))
    }
}
