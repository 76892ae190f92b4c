// Freeing and transferring the objects of a bank.
ghost use Rattle.std.specs.Prelude.{◌≡◌, ◌≢◌, ℕ, ◌≤◌, ◌∷◌, [], drop, false, length};
ghost use Rattle.std.specs.List.{All};
ghost use Rattle.model.specs.Banking.{inherited, owned_by};
ghost use Rattle.model.specs.Keepable.{AreCurrent, AreKeepable};
ghost use Rattle.model.specs.Object.{is_free};
ghost use Rattle.model.specs.Revoke.{rescind as rescinded};
ghost use Rattle.model.specs.World.{content_at};
ghost use Rattle.capability.specs.Parts.{KeepsRest, frames_of, objects_in};
ghost use Rattle.space_bank.specs.Banks.{KeepsObjects, MayServe};
ghost use Rattle.space_bank.specs.Carrying.{AreTransferred, CarriesOut, MayFree};

use crate::banks::Banks;
use crate::marking::{mark, mark_free};
use crate::walking::owner;
use capability::PresentFrames;
use capability::objects::{rescind, set_owner};

// Makes a bank the owner of these objects, which must be announced.
fn transfer<F: PresentFrames>(store: &mut F, numbers: &[u64], bank: u64)
    requires announced { All (F.IsAnnounced store.old) numbers.now }
    requires used { All
        (λ n. is_free (content_at (objects_in (F.parts store.old)) n) ≡ false)
        numbers.now }
    ensures objects { AreTransferred numbers.now bank (objects_in (F.parts store.old))
        (objects_in (F.parts store.new)) }
    ensures current { AreCurrent (frames_of (F.parts store.old))
        → AreCurrent (frames_of (F.parts store.new)) }
    ensures keepable { (age : ℕ)
        → AreKeepable (F.parts store.old).geometry age (frames_of (F.parts store.old))
        → AreKeepable (F.parts store.old).geometry age (frames_of (F.parts store.new)) }
    ensures snapshots { KeepsRest F.parts F.IsFetched F.IsAnnounced F.ContinuesTo store.old store.new }
{
    for number in numbers {
        set_owner(store, *number, bank);
    }
}

impl Banks {
    // Frees a bank other than the prime bank, and transfers the objects that it owns to its owner.
    // `listed[skip..]` must have the bank and these objects, all announced.
    pub(crate) fn return_to_parent<F: PresentFrames>(
        &mut self,
        store: &mut F,
        skip: usize,
        bank: u64,
    )
        requires asks { MayServe (F.parts store.old) self.old bank }
        requires other { bank ≢ 0 }
        requires listed { drop skip self.old.listed
            ≡ bank ∷ owned_by (objects_in (F.parts store.old)) bank }
        requires announced { All (F.IsAnnounced store.old) (drop skip self.old.listed) }
        ensures objects { objects_in (F.parts store.new)
            ≡ rescinded (bank ∷ []) (inherited (objects_in (F.parts store.old)) bank) }
        ensures carried { CarriesOut (F.parts store.old) (F.parts store.new) self.new }
        ensures snapshots { KeepsObjects F.parts F.IsFetched F.IsAnnounced F.ContinuesTo store.old
            store.new }
    {
        let parent = owner(store, bank);
        self.release(store, parent, 1);
        transfer(store, &self.listed[skip + 1..], parent);
        rescind(store, &[bank]);
        // `limits` has an item for each node, so its length is the number of the first page.
        let first_page = self.limits.len();
        mark(&mut self.nodes, &mut self.pages, first_page, bank, true);
    }

    // Frees `listed[skip..]`, and subtracts their number from the usage of each bank in the chain of `above`.
    pub(crate) fn free_listed<F: PresentFrames>(&mut self, store: &mut F, skip: usize, above: u64)
        requires asks { MayServe (F.parts store.old) self.old above }
        requires may { MayFree (objects_in (F.parts store.old)) above
            (drop skip self.old.listed) }
        requires within { skip ≤ length self.old.listed }
        requires announced { All (F.IsAnnounced store.old) (drop skip self.old.listed) }
        ensures objects { objects_in (F.parts store.new)
            ≡ rescinded (drop skip self.old.listed) (objects_in (F.parts store.old)) }
        ensures carried { CarriesOut (F.parts store.old) (F.parts store.new) self.new }
        ensures snapshots { KeepsObjects F.parts F.IsFetched F.IsAnnounced F.ContinuesTo store.old
            store.new }
    {
        let count = (self.listed.len() - skip) as u64;
        self.release(store, above, count);
        rescind(store, &self.listed[skip..]);
        // `limits` has an item for each node, so its length is the number of the first page.
        let first_page = self.limits.len();
        mark_free(
            &mut self.nodes,
            &mut self.pages,
            first_page,
            &self.listed[skip..],
        );
    }
}
