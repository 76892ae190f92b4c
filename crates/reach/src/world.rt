// Reading all objects of a store into a list.
ghost use Rattle.std.specs.Prelude.{◌≡◌, ◌<◌, length, IfOk};
ghost use Rattle.model.specs.World.{object_at};
ghost use Rattle.capability.specs.Parts.{AreSound, OnlyReads, objects_in};

use capability::{Frames, view};
use model::{Object, Refusal};
use std::alloc::Global;

// Fetches an object, and returns it with void in place of stale capabilities.
fn object<F: Frames>(alloc: Global, store: &mut F, number: u64) -> Result<Object, Refusal>
    requires usable { F.IsUsable store.old }
    requires sound { AreSound (F.parts store.old) }
    requires known { number < length (F.parts store.old).headers }
    ensures object { IfOk result (λ object. object ≡ object_at (objects_in (F.parts store.old)) number) }
    ensures only_reads { OnlyReads F.parts F.ContinuesTo store.old store.new result }
{
    store.fetch(&[number])?;
    Ok(view::object(alloc, store, number)?)
}

/// Returns all objects of a store, by number. Fetches each, and changes none.
///
/// Returns `NoMemory` if memory runs out, and `Fault` exactly if the device fails.
pub fn read_objects<F: Frames>(alloc: Global, store: &mut F) -> Result<Vec<Object>, Refusal>
    requires usable { F.IsUsable store.old }
    requires sound { AreSound (F.parts store.old) }
    ensures objects { IfOk result (λ objects. objects.items ≡ objects_in (F.parts store.old)) }
    ensures only_reads { OnlyReads F.parts F.ContinuesTo store.old store.new result }
{
    let mut objects = Vec::new(alloc);
    for number in 0..store.table().count() {
        let object = object(alloc, store, number)?;
        if objects.push(object).is_err() {
            return Err(Refusal::NoMemory);
        }
    }
    Ok(objects)
}
