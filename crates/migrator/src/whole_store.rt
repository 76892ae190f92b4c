// Stores with all objects in memory, over a durable store.
ghost use Rattle.std.specs.Prelude.{◌≡◌, IfOk};
ghost use Rattle.migrator.specs.Durable.{DurableState};
ghost use Rattle.migrator.specs.WholeStore.{AreObjectsOf, IsOver};

use crate::durable::Durable;
use checkpoint::ObjectStore;
use device::Device;
use layout::Superblock;
use model::{Cap, Content, ObjectHeader};
use std::alloc::{AllocError, Global};

/// The headers and bodies of all objects, by number.
#[derive(Drop)]
pub struct AllObjects {
    pub headers: Vec<ObjectHeader>,
    pub contents: Vec<Content<Cap>>,
}

/// A store with all objects in memory from its opening on, over a durable store. Reading an object makes no
/// call on the device.
pub trait WholeStore<D: Device>: ObjectStore<D> {
    /// The durable store beneath.
    ghost durable: { Self → DurableState D };

    /// The superblock of the device.
    fn superblock(&self) -> &Superblock
        ensures { result.now ≡ (durable self.now).books.plan };

    /// Returns the durable store, with the saved frames, and all present objects. It makes no call on the
    /// device. The objects are `Err` only if memory runs out.
    fn into_parts(self, alloc: Global) -> (Durable<D>, Result<AllObjects, AllocError>)
        ensures durable { result.0 ≡ durable self }
        ensures objects { IfOk result.1 (λ objects. AreObjectsOf (Self.parts self) objects) };

    /// The store saves what the durable store saves.
    ghost is_over: { (s : Self) → IsOver D.disk (Self.view s) (durable s) };

    /// Fetching or changing present objects never changes the durable store.
    ghost still: { (s t : Self) → Self.ContinuesTo s t → durable t ≡ durable s };
}
