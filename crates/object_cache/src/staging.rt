// The staging buffer: a frozen body without an entry, to be written to another slot or under its frozen
// header.
ghost use Rattle.std.specs.Prelude.{◌≡◌, None, Some, IfOk, is_some, option_map};
ghost use Rattle.layout.specs.Frame.{content_of};
ghost use Rattle.object_cache.specs.Memory.{released, held_behind};

use layout::{Body, Scratch};
use model::ContentRef;
use std::alloc::{AllocError, Global};
use std::marker::Model;
use std::mem;

/// An object's number and body, or nothing. Only `new` allocates.
#[derive(Drop)]
pub(crate) struct Staging {
    held: Option<(u64, Body)>,
    /// The words and slots of the body.
    scratch: Scratch,
}

impl Model for Staging {
    ghost use Rattle.std.specs.Prelude.{Option, option_map};
    ghost use Rattle.object_cache.specs.Memory.{Held, held_in};

    ghost Value = { Option Held };

    ghost view = { λ h. option_map (held_in h.scratch) h.held };
}

impl Staging {
    /// Returns an empty staging buffer. Fails only if memory runs out.
    pub(crate) fn new(alloc: Global) -> Result<Staging, AllocError>
        ensures { IfOk result (λ staging. staging ≡ None) }
    {
        Ok(Staging {
            held: None,
            scratch: Scratch::new(alloc)?,
        })
    }

    /// Returns the number and the body in the staging buffer, or `None` if it is empty.
    pub(crate) fn get(&self) -> Option<(u64, ContentRef<'_>)>
        ensures { option_map held_behind result ≡ self.now }
    {
        match &self.held {
            Some(held) => Some((held.0, held.1.content(&self.scratch))),
            None => None,
        }
    }

    /// Whether the staging buffer has a body.
    pub(crate) fn is_held(&self) -> bool
        ensures { result ≡ is_some self.now }
    {
        self.held.is_some()
    }

    /// Takes a body that was read into a scratch buffer, by swapping the two buffers.
    pub(crate) fn take_up(&mut self, number: u64, body: Body, scratch: &mut Scratch)
        ensures { self.new ≡ Some (record {
          number = number;
          content = content_of body scratch.old.slots scratch.old.words;
        }) }
    {
        mem::swap(&mut self.scratch, scratch);
        self.held = Some((number, body));
    }

    /// Drops the body, if there is one.
    pub(crate) fn clear(&mut self)
        ensures { self.new ≡ None }
    {
        self.held = None;
    }

    /// Drops the body, if it is that of this number.
    pub(crate) fn release(&mut self, number: u64)
        ensures { self.new ≡ released number self.old }
    {
        let is_held = match &self.held {
            Some(held) => held.0 == number,
            None => false,
        };
        if is_held {
            self.clear();
        }
    }
}
