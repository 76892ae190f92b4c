// The bodies of objects, by place, in reserved memory.
ghost use Rattle.std.specs.Prelude.{◌≡◌, ◌<◌, Some, None, length, replicate, slice_set, IfOk};
ghost use Rattle.capability.specs.Objects.{changed_root, with_root_in, with_slots_in};
ghost use Rattle.capability.specs.Parts.{fresh_content};
ghost use Rattle.model.specs.Frame.{content_behind, held_at, void_held};
ghost use Rattle.model.specs.Object.{with_slot_in, with_word_in};
ghost use Rattle.model.specs.declared.object.Content.{Content};
ghost use Rattle.cache_entries.specs.Bodies.{kind_of, slots_are_of, with_slots_of, with_words_of, kind_with_root};
ghost use Rattle.cache_entries.specs.Bodies.{words_are_of};

use crate::nodes::Nodes;
use capability::{Fresh, RootChange};
use collections::SparseVec;
use model::{Cap, ContentRef, Page, Root, State};
use std::alloc::{AllocError, Global};
use std::marker::Model;

/// A body without the words of a page or the slots of a node or an annex.
#[derive(Drop)]
pub(crate) enum Kind {
    Free,
    Page,
    Node,
    Root(Root<Cap>),
    Annex,
    Bank { limit: u64 },
}

/// A body at each place, in memory reserved for a body of any kind.
#[derive(Drop)]
pub(crate) struct Bodies {
    kinds: Vec<Kind>,
    pages: SparseVec<Page>,
    /// The slots of nodes and the registers of annexes.
    nodes: Nodes,
}

impl Model for Bodies {
    ghost use Rattle.std.specs.Prelude.{List};
    ghost use Rattle.model.specs.declared.capability.Cap.{Cap as CapValue};
    ghost use Rattle.model.specs.declared.object.Content.{Content as ContentValue};
    ghost use Rattle.cache_entries.specs.Bodies.{AreBodies, contents_in};

    ghost Value = { List (ContentValue CapValue) };

    ghost view = { λ b. contents_in b.kinds.items b.pages b.nodes };

    ghost invariant = { λ b. AreBodies b.kinds.items b.pages b.nodes };
}

// Returns `most` kinds, all `Free`. Fails only if memory runs out.
fn free_kinds(alloc: Global, most: usize) -> Result<Vec<Kind>, AllocError>
    ensures { IfOk result (λ kinds. kinds.items ≡ replicate most Kind.Free) }
{
    let mut kinds = Vec::with_capacity(alloc, most)?;
    for _ in 0..most {
        kinds.push(Kind::Free)?;
    }
    Ok(kinds)
}

// Sets the words of the page at a place.
fn put_page(pages: &mut SparseVec<Page>, place: usize, words: &[u64; 512])
    requires { place < length pages.old }
    ensures { pages.new ≡ slice_set pages.old place (Some words.now) }
{
    if pages.has(place) {
        pages.item_mut(place).put(words);
    } else {
        pages.add(place, Page::of(words));
    }
}

// Sets all words of the page at a place to 0.
fn clear_page(pages: &mut SparseVec<Page>, place: usize)
    requires { place < length pages.old }
    ensures { pages.new ≡ slice_set pages.old place (Some (replicate 512 0)) }
{
    if pages.has(place) {
        pages.item_mut(place).clear();
    } else {
        pages.add(place, Page::blank());
    }
}

// Returns the kind of a content.
fn kind_behind(content: ContentRef<'_>) -> Kind
    ensures { result ≡ kind_of (content_behind content.entry) }
{
    match content {
        ContentRef::Free => Kind::Free,
        ContentRef::Page(_) => Kind::Page,
        ContentRef::Node(_) => Kind::Node,
        ContentRef::Root(root) => Kind::Root(Root {
            state: root.state,
            words: root.words,
            key: root.key,
            annex: root.annex,
            space: root.space,
        }),
        ContentRef::Annex(_) => Kind::Annex,
        ContentRef::Bank { limit } => Kind::Bank { limit },
    }
}

// Whether a body is a page.
fn is_page(kind: &Kind) -> bool
    ensures { result ≡ words_are_of kind.now }
{
    match kind {
        Kind::Page => true,
        _ => false,
    }
}

// Changes the kind if it is a root; else changes nothing.
#[inline(always)]
fn change_kind(kind: &mut Kind, change: RootChange)
    ensures { kind.new ≡ kind_with_root (changed_root change) kind.old }
{
    if let Kind::Root(root) = kind {
        change.make(root);
    }
}

// Whether a body has slots.
fn has_slots(kind: &Kind) -> bool
    ensures { result ≡ slots_are_of kind.now }
{
    match kind {
        Kind::Node => true,
        Kind::Annex => true,
        _ => false,
    }
}

// Copies the words or slots of a content to a place.
fn put_arrays(pages: &mut SparseVec<Page>, nodes: &mut Nodes, place: usize, content: ContentRef<'_>)
    requires pages { place < length pages.old }
    requires nodes { place < length nodes.old }
    ensures pages { pages.new ≡ with_words_of (content_behind content.entry) place pages.old }
    ensures nodes { nodes.new ≡ with_slots_of (content_behind content.entry) place nodes.old }
{
    match content {
        ContentRef::Page(words) => put_page(pages, place, words),
        ContentRef::Node(slots) => nodes.put(place, slots),
        ContentRef::Annex(registers) => nodes.put(place, registers),
        _ => {}
    }
}

// Returns the kind of a new object.
fn fresh_kind(fresh: Fresh) -> Kind
    ensures { result ≡ kind_of (fresh_content void_held fresh) }
{
    match fresh {
        Fresh::Page => Kind::Page,
        Fresh::Node => Kind::Node,
        Fresh::Root { annex } => Kind::Root(Root {
            state: State::Available,
            words: [0; 4],
            key: 0,
            annex,
            space: Cap::void(),
        }),
        Fresh::Annex => Kind::Annex,
        Fresh::Bank { limit } => Kind::Bank { limit },
    }
}

// Sets the words or slots at a place to those of a new object.
#[tactic(auto, unfolding(model::specs::Object::all_slots, model::specs::Object::zero_words))]
fn clear_arrays(pages: &mut SparseVec<Page>, nodes: &mut Nodes, place: usize, fresh: Fresh)
    requires pages { place < length pages.old }
    requires nodes { place < length nodes.old }
    ensures pages { pages.new ≡ with_words_of (fresh_content void_held fresh) place pages.old }
    ensures nodes { nodes.new ≡ with_slots_of (fresh_content void_held fresh) place nodes.old }
{
    match fresh {
        Fresh::Page => clear_page(pages, place),
        Fresh::Node => nodes.clear(place),
        Fresh::Annex => nodes.clear(place),
        _ => {}
    }
}

impl Bodies {
    ghost use Rattle.model.specs.declared.object.Content.TheVariants as content;

    /// Returns `most` free places, with memory for a body at each. Fails only if memory runs out.
    pub(crate) fn new(alloc: Global, most: usize) -> Result<Bodies, AllocError>
        ensures { IfOk result (λ bodies. bodies ≡ replicate most content.Free) }
    {
        Ok(Bodies {
            kinds: free_kinds(alloc, most)?,
            pages: SparseVec::new(alloc, most)?,
            nodes: Nodes::new(alloc, most)?,
        })
    }

    /// The body at a place.
    #[tactic(auto, using(crate::proofs::Contents::kind_within, crate::proofs::Contents::room_of))]
    pub(crate) fn get(&self, place: usize) -> ContentRef<'_>
        requires { place < length self.now }
        ensures { held_at self.now place ≡ content_behind result }
    {
        match &self.kinds[place] {
            Kind::Free => ContentRef::Free,
            Kind::Page => ContentRef::Page(self.pages.item(place).as_array()),
            Kind::Node => ContentRef::Node(self.nodes.item(place)),
            Kind::Root(root) => ContentRef::Root(root),
            Kind::Annex => ContentRef::Annex(self.nodes.item(place)),
            Kind::Bank { limit } => ContentRef::Bank { limit: *limit },
        }
    }

    /// Copies a content to a place.
    #[tactic(auto, using(crate::proofs::Contents::places_within, crate::proofs::Contents::puts_seen))]
    pub(crate) fn put(&mut self, place: usize, content: ContentRef<'_>)
        requires { place < length self.old }
        ensures { self.new ≡ slice_set self.old place (content_behind content.entry) }
    {
        put_arrays(&mut self.pages, &mut self.nodes, place, content);
        self.kinds[place] = kind_behind(content);
    }

    /// Sets a word of the page at a place. No other body changes.
    #[tactic(auto, using(crate::proofs::Contents::kind_within, crate::proofs::Contents::word_edits))]
    pub(crate) fn set_word(&mut self, place: usize, index: usize, word: u64)
        requires place { place < length self.old }
        requires within { index < 512 }
        ensures { self.new ≡ slice_set self.old place (with_word_in (held_at self.old place) index word) }
    {
        if is_page(&self.kinds[place]) {
            self.pages.item_mut(place).set(index, word);
        }
    }

    /// Sets a slot of the node or annex at a place. No other body changes.
    #[tactic(auto, using(crate::proofs::Contents::kind_within, crate::proofs::Contents::slot_edits))]
    pub(crate) fn set_slot(&mut self, place: usize, slot: usize, held: Cap)
        requires place { place < length self.old }
        requires within { slot < 32 }
        ensures { self.new ≡ slice_set self.old place (with_slot_in (held_at self.old place) slot held) }
    {
        if has_slots(&self.kinds[place]) {
            self.nodes.set(place, slot, held);
        }
    }

    /// Sets the last four slots of the node or annex at a place. No other body changes.
    #[tactic(auto, using(crate::proofs::Contents::kind_within, crate::proofs::Contents::slot_edits))]
    pub(crate) fn set_last_slots(&mut self, place: usize, held: [Cap; 4])
        requires { place < length self.old }
        ensures { self.new ≡ slice_set self.old place (with_slots_in (held_at self.old place) 28 held) }
    {
        if has_slots(&self.kinds[place]) {
            self.nodes.set_last(place, &held);
        }
    }

    /// Changes the root at a place. No other body changes.
    #[inline(always)]
    #[tactic(auto, using(crate::proofs::Contents::kind_within, crate::proofs::Contents::root_seen))]
    pub(crate) fn change_root(&mut self, place: usize, change: RootChange)
        requires { place < length self.old }
        ensures { self.new ≡ slice_set self.old place (with_root_in (changed_root change) (held_at self.old place)) }
    {
        change_kind(&mut self.kinds[place], change);
    }

    /// Replaces the body at a place by that of a new object.
    #[tactic(auto, using(crate::proofs::Contents::places_within, crate::proofs::Contents::body_edits))]
    pub(crate) fn claim(&mut self, place: usize, fresh: Fresh)
        requires { place < length self.old }
        ensures { self.new ≡ slice_set self.old place (fresh_content void_held fresh) }
    {
        clear_arrays(&mut self.pages, &mut self.nodes, place, fresh);
        self.kinds[place] = fresh_kind(fresh);
    }
}
