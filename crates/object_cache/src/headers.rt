// The headers of frozen objects.
ghost use Rattle.std.specs.Prelude.{◌≡◌, ℕ, ◌<◌, length, true, IfOk};
ghost use Rattle.model.specs.Frame.{header_at};
ghost use Rattle.object_cache.specs.Memory.{mark_at};

use capability::ObjectTable;
use collections::NumberSet;
use model::ObjectHeader;
use std::alloc::{AllocError, Global};
use std::marker::Model;

/// Headers by number. For a pending object it is the header at the freeze.
#[derive(Drop)]
pub(crate) struct FrozenHeaders {
    items: Vec<ObjectHeader>,
}

impl Model for FrozenHeaders {
    ghost use Rattle.std.specs.Prelude.{List};
    ghost use Rattle.model.specs.declared.frame.ObjectHeader.{ObjectHeader};

    ghost Value = { List ObjectHeader };

    ghost view = { λ h. h.items.items };
}

// Copies the headers of marked numbers from the table.
fn copy_marked(frozen: &mut [ObjectHeader], table: &ObjectTable, marks: &NumberSet)
    requires each { length marks.now ≡ length frozen.old }
    ensures count { length frozen.new ≡ length frozen.old }
    ensures marked { (n : ℕ) → mark_at marks.now n ≡ true
        → header_at frozen.new n ≡ header_at table.now n }
{
    let mut from = 0;
    while let Some(number) = marks.next(from) {
        frozen[number] = table.header(number as u64);
        from = number + 1;
    }
}

impl FrozenHeaders {
    /// Returns a copy of these headers. Fails only if memory runs out.
    pub(crate) fn new(alloc: Global, headers: &[ObjectHeader]) -> Result<FrozenHeaders, AllocError>
        ensures { IfOk result (λ frozen. frozen ≡ headers.now) }
    {
        Ok(FrozenHeaders {
            items: headers.to_vec(alloc)?,
        })
    }

    /// Returns the header of an object.
    pub(crate) fn header(&self, number: u64) -> ObjectHeader
        requires { number < length self.now }
        ensures { result ≡ header_at self.now number }
    {
        self.items[number as usize]
    }

    /// Copies the headers of marked numbers from the table.
    pub(crate) fn take_marked(&mut self, table: &ObjectTable, marks: &NumberSet)
        requires each { length marks.now ≡ length self.old }
        ensures count { length self.new ≡ length self.old }
        ensures marked { (n : ℕ) → mark_at marks.now n ≡ true
            → header_at self.new n ≡ header_at table.now n }
    {
        copy_marked(&mut self.items, table, marks);
    }
}
