// Entries for slots and words. Those that have their default get no entry.
ghost use Rattle.std.specs.Prelude.{ℕ, IfOk, unwrap_or};
ghost use Rattle.model.specs.declared.capability.Capability.TheVariants.{Void};
ghost use Rattle.image_describer.specs.Brief.{Names};
ghost use Rattle.image_describer.specs.DescribedEntry.{MayName};

use crate::adding::add;
use description::{SlotEntry, WordEntry};
use model::Capability;
use std::alloc::{AllocError, Global};

/// A kind of entry for the items of a list. Items that equal the default have no entry.
pub(crate) trait SparseEntry: Drop {
    /// The type of the items.
    type Item: Copy;

    ghost index: { Self → ℕ };

    ghost value: { Self → Self.Item };

    ghost default: { Self.Item };

    /// Returns the entry for an item, or `None` if the item is the default.
    fn of_item(place: u64, item: Self::Item) -> Option<Self>
        ensures { MayName index value default place item result };
}

impl SparseEntry for SlotEntry {
    type Item = Capability;

    ghost index = { λ s. s.index };

    ghost value = { λ s. unwrap_or s.capability Void };

    ghost default = { Void };

    fn of_item(place: u64, item: Capability) -> Option<SlotEntry> {
        match item {
            Capability::Void => None,
            named => Some(SlotEntry {
                index: place,
                capability: Some(named),
            }),
        }
    }
}

impl SparseEntry for WordEntry {
    type Item = u64;

    ghost index = { λ w. w.index };

    ghost value = { λ w. w.word };

    ghost default = { 0 };

    fn of_item(place: u64, item: u64) -> Option<WordEntry> {
        if item == 0 {
            None
        } else {
            Some(WordEntry {
                index: place,
                word: item,
            })
        }
    }
}

/// Returns entries for all items that aren't the default, in order. Fails only if memory runs out.
pub(crate) fn entries_of<E: SparseEntry>(
    alloc: Global,
    items: &[E::Item],
) -> Result<Vec<E>, AllocError>
    ensures { IfOk result (λ entries. Names E.index E.value E.default items.now entries.items) }
{
    let mut entries = Vec::new(alloc);
    for (i, item) in items.iter().enumerate() {
        add(&mut entries, E::of_item(i as u64, *item))?;
    }
    Ok(entries)
}
