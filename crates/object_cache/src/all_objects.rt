// Copies all objects of a store.
ghost use Rattle.std.specs.Prelude.{◌≡◌, ℕ, ◌<◌, Some, length, option_map, IfOk, IsSome};
ghost use Rattle.cache_entries.specs.Entries.{entry_at, present_of};
ghost use Rattle.model.specs.Frame.{held_at};

use cache_entries::Entries;
use capability::ObjectTable;
use migrator::AllObjects;
use model::{Cap, Content};
use std::alloc::{AllocError, Global};

// Returns copies of all bodies, by number. Each object must have an entry.
fn copy_bodies(
    alloc: Global,
    entries: &Entries,
    count: usize,
) -> Result<Vec<Content<Cap>>, AllocError>
    requires { (n : ℕ) → n < count → IsSome (entry_at entries.now.at n) }
    ensures count { IfOk result (λ bodies. length bodies.items ≡ count) }
    ensures bodies { IfOk result (λ bodies. (n : ℕ) → n < count
        → option_map present_of (entry_at entries.now.at n) ≡ Some (held_at bodies.items n)) }
{
    let mut bodies = Vec::with_capacity(alloc, count)?;
    for number in 0..count {
        let body = entries.present(number as u64).to_content(alloc)?;
        bodies.push(body)?;
    }
    Ok(bodies)
}

/// Returns copies of the objects with these headers. Each object must have an entry. Fails only if memory runs out.
pub(crate) fn copy_objects(
    alloc: Global,
    table: &ObjectTable,
    entries: &Entries,
) -> Result<AllObjects, AllocError>
    requires { (n : ℕ) → n < length table.now → IsSome (entry_at entries.now.at n) }
    ensures headers { IfOk result (λ objects. objects.headers.items ≡ table.now) }
    ensures count { IfOk result (λ objects. length objects.contents.items ≡ length table.now) }
    ensures bodies { IfOk result (λ objects. (n : ℕ) → n < length table.now
        → option_map present_of (entry_at entries.now.at n) ≡ Some (held_at objects.contents.items n)) }
{
    let headers = table.headers();
    Ok(AllObjects {
        headers: headers.to_vec(alloc)?,
        contents: copy_bodies(alloc, entries, headers.len())?,
    })
}
