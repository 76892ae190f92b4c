// Appending an entry, if there is one.
ghost use Rattle.std.specs.Prelude.{◌≡◌, ◌++◌, OnOk, option_to_list};

use std::alloc::AllocError;

/// Appends an entry, if there is one. Fails only if memory runs out.
pub(crate) fn add<E: Drop>(entries: &mut Vec<E>, entry: Option<E>) -> Result<(), AllocError>
    ensures { OnOk result (entries.new.items ≡ entries.old.items ++ option_to_list entry) }
{
    match entry {
        None => Ok(()),
        Some(entry) => {
            entries.push(entry)?;
            Ok(())
        }
    }
}
