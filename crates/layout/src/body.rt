// The body of a frame: what comes after its header. Also a scratch buffer for bodies.
ghost use Rattle.std.specs.Prelude.{◌≡◌, IfOk, replicate};
ghost use Rattle.model.specs.Frame.{content_behind, void_held};
ghost use Rattle.layout.specs.Frame.{content_of};

use model::{Cap, ContentRef, Root, Slots, Words};
use std::alloc::{AllocError, Global};

/// The content of a frame, but without the words of a page and the slots of a node or an annex, which lie in a
/// `Scratch`.
#[derive(Drop)]
pub enum Body {
    Free,
    Page,
    Node,
    Root(Root<Cap>),
    Annex,
    Bank { limit: u64 },
}

impl Body {
    /// Returns the content: this body with the words of a page, or the slots of a node or an annex, in
    /// `scratch`.
    pub fn content<'a>(&'a self, scratch: &'a Scratch) -> ContentRef<'a>
        ensures { content_behind result ≡ content_of self.now scratch.now.slots scratch.now.words }
    {
        match self {
            Body::Free => ContentRef::Free,
            Body::Page => ContentRef::Page(scratch.words.as_array()),
            Body::Node => ContentRef::Node(scratch.slots.as_array()),
            Body::Root(root) => ContentRef::Root(root),
            Body::Annex => ContentRef::Annex(scratch.slots.as_array()),
            Body::Bank { limit } => ContentRef::Bank { limit: *limit },
        }
    }
}

/// A scratch buffer for the slots or words of any object. Callers lend it to functions that read
/// frames, which then allocate nothing.
#[derive(Drop)]
pub struct Scratch {
    pub slots: Slots<Cap>,
    pub words: Words,
}

impl Scratch {
    /// Returns a scratch buffer with void slots and words of 0, or `AllocError` if memory runs out.
    pub fn new(alloc: Global) -> Result<Scratch, AllocError>
        ensures slots { IfOk result (λ scratch. scratch.slots ≡ replicate 32 void_held) }
        ensures words { IfOk result (λ scratch. scratch.words ≡ replicate 512 0) }
    {
        Ok(Scratch {
            slots: Slots::new(alloc, Cap::void())?,
            words: Words::new(alloc)?,
        })
    }
}
