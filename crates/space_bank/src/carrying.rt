// Carries out the change that an order of a bank planned.
ghost use Rattle.std.specs.Prelude.{◌≡◌, ◌≤◌, drop, length};
ghost use Rattle.std.specs.List.{All};
ghost use Rattle.capability.specs.Changes.{bank_changed};
ghost use Rattle.capability.specs.Parts.{AreSound, objects_in};
ghost use Rattle.space_bank.specs.Allocating.{numbers_of};
ghost use Rattle.space_bank.specs.Banks.{AreCounted, KeepsObjects};
ghost use Rattle.space_bank.specs.Carrying.{CarriesOut, MayMake};

use crate::banks::Banks;
use capability::{BankChange, PresentFrames};

impl Banks {
    /// Carries out a planned change. `listed[skip..]` has the numbers that its order writes. They must be
    /// announced, and those of new objects fetched.
    ///
    /// Doesn't allocate, and can't fail. Takes time in proportion to the listed numbers if objects are freed
    /// or transferred, and to at most 16 banks otherwise.
    pub fn carry_out<F: PresentFrames>(&mut self, store: &mut F, skip: usize, change: BankChange)
        requires sound { AreSound (F.parts store.old) }
        requires counted { AreCounted (F.parts store.old).geometry
            (objects_in (F.parts store.old)) self.old }
        requires may { MayMake (F.parts store.old).geometry (objects_in (F.parts store.old))
            (drop skip self.old.listed) change }
        requires within { skip ≤ length self.old.listed }
        requires announced { All (F.IsAnnounced store.old) (drop skip self.old.listed) }
        requires fetched { All (F.IsFetched store.old) (numbers_of change) }
        ensures objects { objects_in (F.parts store.new)
            ≡ bank_changed (objects_in (F.parts store.old)) (drop skip self.old.listed) change }
        ensures carried { CarriesOut (F.parts store.old) (F.parts store.new) self.new }
        ensures snapshots { KeepsObjects F.parts F.IsFetched F.IsAnnounced F.ContinuesTo store.old
            store.new }
    {
        match change {
            BankChange::Make {
                number,
                fresh,
                bank,
            } => self.allocate(store, number, fresh, bank),
            BankChange::MakeProcess { root, annex, bank } => {
                self.new_process(store, root, annex, bank)
            }
            BankChange::GiveUp { above } => self.free_listed(store, skip, above),
            BankChange::Transfer { bank } => self.return_to_parent(store, skip, bank),
        }
    }
}
