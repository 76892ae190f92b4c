// Objects, and what they hold.
ghost use Rattle.std.specs.Prelude.{◌≡◌, IfOk};
ghost use Rattle.model.specs.Frame.{content_behind};
ghost use Rattle.model.specs.Object.{role_of, role_number, state_number};

use crate::{Cap, SLOTS, Slots, WORDS, Words};
use std::alloc::{AllocError, Global};

/// What an object is.
#[derive(Clone, Copy, PartialEq, Eq)]
pub enum Role {
    Free = 0,
    Page = 1,
    Node = 2,
    /// The root of a process.
    Root = 3,
    /// The annex of a process.
    Annex = 4,
    Bank = 5,
}

/// What a process does.
#[derive(Clone, Copy, PartialEq, Eq)]
pub enum State {
    /// The process can be started.
    Available = 0,
    /// The process invokes capabilities.
    Running = 1,
    /// The process has called, and can be resumed once.
    Waiting = 2,
}

/// The root of a process: everything except its registers, which are in its annex.
#[derive(Drop)]
pub struct Root<C> {
    pub state: State,
    /// The words last delivered.
    pub words: [u64; 4],
    /// The key last delivered: it shows which start capability was used.
    pub key: u16,
    /// The number of the object with the registers.
    pub annex: u64,
    /// The address space, or void.
    pub space: C,
}

/// What an object holds.
#[derive(Drop)]
pub enum Content<C> {
    Free,
    Page(Words),
    Node(Slots<C>),
    Root(Root<C>),
    Annex(Slots<C>),
    Bank { limit: u64 },
}

/// An object and the bank that owns it, which is 0 if the object is free.
#[derive(Drop)]
pub struct Object {
    pub owner: u64,
    pub content: Content<crate::Capability>,
}

impl Role {
    /// The number of the role in an image: its place above, from 0.
    pub fn number(self) -> u64
        ensures { result ≡ role_number self }
    {
        self as u64
    }
}

impl State {
    /// The number of the state in an image and in orders: its place above, from 0.
    pub fn number(self) -> u64
        ensures { result ≡ state_number self }
    {
        self as u64
    }
}

impl<C> Content<C> {
    /// What the object is.
    pub fn role(&self) -> Role
        ensures { result ≡ role_of self.now }
    {
        match self {
            Content::Free => Role::Free,
            Content::Page(_) => Role::Page,
            Content::Node(_) => Role::Node,
            Content::Root(_) => Role::Root,
            Content::Annex(_) => Role::Annex,
            Content::Bank { .. } => Role::Bank,
        }
    }
}

impl Content<Cap> {
    /// A reference to the content.
    pub fn as_ref(&self) -> ContentRef<'_>
        ensures { content_behind result ≡ self.now }
    {
        match self {
            Content::Free => ContentRef::Free,
            Content::Page(words) => ContentRef::Page(words.as_array()),
            Content::Node(slots) => ContentRef::Node(slots.as_array()),
            Content::Root(root) => ContentRef::Root(root),
            Content::Annex(registers) => ContentRef::Annex(registers.as_array()),
            Content::Bank { limit } => ContentRef::Bank { limit: *limit },
        }
    }
}

/// A reference to an object's content, wherever that is stored.
#[derive(Clone, Copy)]
pub enum ContentRef<'a> {
    Free,
    Page(&'a [u64; WORDS]),
    Node(&'a [Cap; SLOTS]),
    Root(&'a Root<Cap>),
    Annex(&'a [Cap; SLOTS]),
    Bank { limit: u64 },
}

impl ContentRef<'_> {
    /// Copies the content into new memory. Fails only if memory runs out.
    pub fn to_content(self, alloc: Global) -> Result<Content<Cap>, AllocError>
        ensures { IfOk result (λ content. content ≡ content_behind self.entry) }
    {
        match self {
            ContentRef::Free => Ok(Content::Free),
            ContentRef::Page(words) => Ok(Content::Page(Words::of(alloc, words)?)),
            ContentRef::Node(slots) => Ok(Content::Node(Slots::of(alloc, slots)?)),
            ContentRef::Root(root) => Ok(Content::Root(Root {
                state: root.state,
                words: root.words,
                key: root.key,
                annex: root.annex,
                space: root.space,
            })),
            ContentRef::Annex(registers) => Ok(Content::Annex(Slots::of(alloc, registers)?)),
            ContentRef::Bank { limit } => Ok(Content::Bank { limit }),
        }
    }
}
