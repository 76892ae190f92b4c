// The trait of what receives the frames of an image as they are read.
ghost use Rattle.std.specs.Prelude.{◌≡◌, ℕ, ◌+◌, ◌<◌, ◌≤◌, ◌++◌, ◌∷◌, [], List, length, IfOk, OnOk};
ghost use Rattle.model.specs.declared.frame.Frame.{Frame};
ghost use Rattle.layout.specs.Frame.{frame_of};

use layout::{Body, Scratch};
use model::{Geometry, ObjectHeader};
use std::alloc::{AllocError, Global};

/// Receives the saved frames of an image as they are read, in the order of their numbers.
pub trait Intake: Drop + Sized {
    /// Memory that a new intake may use.
    type Memory: Drop;

    /// Whether exactly these frames were taken.
    ghost Took: { Self → List Frame → Type 0 };

    /// For how many frames there is memory.
    ghost room: { Self → ℕ };

    /// Returns an intake that took no frame yet, with memory for all. It may use `memory`. Fails only if
    /// memory runs out.
    fn new(alloc: Global, geometry: Geometry, memory: &mut Self::Memory) -> Result<Self, AllocError>
        requires few { geometry.nodes + geometry.pages ≤ 8192 }
        ensures none { IfOk result (λ taken. Took taken []) }
        ensures room { IfOk result (λ taken. geometry.nodes + geometry.pages ≤ room taken) };

    /// Takes the next frame. The slots of a node or an annex and the words of a page are in `scratch`. Fails only if
    /// memory runs out.
    fn take(
        &mut self,
        alloc: Global,
        read: (ObjectHeader, Body),
        scratch: &Scratch,
    ) -> Result<(), AllocError>
        requires { (fs : List Frame) × Took self.old fs × (length fs < room self.old) }
        ensures room { room self.old ≤ room self.new }
        ensures took { OnOk result ((fs : List Frame) → Took self.old fs
            → Took self.new (fs ++ frame_of read scratch.now ∷ [])) };
}

// An intake that stores only the headers of the frames.
impl Intake for Vec<ObjectHeader> {
    ghost use Rattle.std.specs.Prelude.{◌≡◌, vec_capacity};
    ghost use Rattle.model.specs.Frame.{headers};

    type Memory = ();

    ghost Took = { λ taken fs. taken.items ≡ headers fs };

    ghost room = { λ taken. vec_capacity taken };

    fn new(alloc: Global, geometry: Geometry, _memory: &mut ()) -> Result<Self, AllocError> {
        Vec::with_capacity(alloc, (geometry.nodes + geometry.pages) as usize)
    }

    fn take(
        &mut self,
        _alloc: Global,
        read: (ObjectHeader, Body),
        _scratch: &Scratch,
    ) -> Result<(), AllocError> {
        self.push(read.0)?;
        Ok(())
    }
}
