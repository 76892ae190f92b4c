// Makes new objects for banks.
ghost use Rattle.std.specs.Prelude.{◌≡◌, ℕ, ◌+◌, ◌<◌, ◌^◌, [], ◌∷◌, length, slice_set};
ghost use Rattle.model.specs.Banking.{new_annex, new_root, with_new};
ghost use Rattle.model.specs.Frame.{header_at};
ghost use Rattle.model.specs.Keepable.{AreCurrent, AreKeepable};
ghost use Rattle.capability.specs.Parts.{FreshFits, IsFreshAt, KeepsRest, frames_of, fresh_content, objects_in};
ghost use Rattle.space_bank.specs.Banks.{MayServe};
ghost use Rattle.space_bank.specs.Carrying.{CarriesOut, IsMade, MakesOne, MakesTwo};

use crate::banks::Banks;
use crate::marking::mark;
use capability::objects::claim;
use capability::{Fresh, PresentFrames};
use model::{Capability, Content, Role};

impl Banks {
    // Turns a free number, which is fetched and announced, into a page, a node or a bank that `bank` owns.
    // All limits in the chain of `bank` must allow one more object. For a new bank the chain must have fewer
    // than 16 banks.
    pub(crate) fn allocate<F: PresentFrames>(
        &mut self,
        store: &mut F,
        number: u64,
        fresh: Fresh,
        bank: u64,
    )
        requires asks { MayServe (F.parts store.old) self.old bank }
        requires may { MakesOne (F.parts store.old).geometry (objects_in (F.parts store.old))
            (number ∷ []) number fresh bank }
        requires fetched { F.IsFetched store.old number }
        requires announced { F.IsAnnounced store.old number }
        ensures objects { objects_in (F.parts store.new)
            ≡ with_new (objects_in (F.parts store.old)) number bank
            (fresh_content Capability.Void fresh) }
        ensures carried { CarriesOut (F.parts store.old) (F.parts store.new) self.new }
        ensures snapshots { KeepsRest F.parts F.IsFetched F.IsAnnounced F.ContinuesTo store.old store.new }
    {
        self.account(store, bank, 1);
        self.make(store, number, fresh, bank);
        match fresh {
            Fresh::Bank { limit } => self.keep_limit(number, limit),
            _ => {}
        }
    }

    // Records the limit of a new bank, whose usage is 0.
    fn keep_limit(&mut self, number: u64, limit: u64)
        requires usage { number < length self.old.usages }
        requires limit { number < length self.old.limits }
        ensures fits { limit < 2 ^ 64 }
        ensures kept { self.new ≡ record self.old {
          usages = slice_set self.old.usages number 0;
          limits = slice_set self.old.limits number limit;
        } }
    {
        self.usages[number as usize] = 0;
        self.limits[number as usize] = limit;
    }

    // Turns two free numbers, which are fetched and announced, into the root and the annex of a process that
    // `bank` owns.
    pub(crate) fn new_process<F: PresentFrames>(
        &mut self,
        store: &mut F,
        root: u64,
        annex: u64,
        bank: u64,
    )
        requires asks { MayServe (F.parts store.old) self.old bank }
        requires may { MakesTwo (F.parts store.old).geometry (objects_in (F.parts store.old))
            (root ∷ annex ∷ []) root annex bank }
        requires fetched { F.IsFetched store.old root }
        requires annex_fetched { F.IsFetched store.old annex }
        requires announced { F.IsAnnounced store.old root }
        requires annex_announced { F.IsAnnounced store.old annex }
        ensures objects { objects_in (F.parts store.new)
            ≡ with_new
            (with_new (objects_in (F.parts store.old)) root bank (new_root annex)) annex
            bank new_annex }
        ensures carried { CarriesOut (F.parts store.old) (F.parts store.new) self.new }
        ensures snapshots { KeepsRest F.parts F.IsFetched F.IsAnnounced F.ContinuesTo store.old store.new }
    {
        self.account(store, bank, 2);
        self.make(store, root, Fresh::Root { annex }, bank);
        self.make(store, annex, Fresh::Annex, bank);
        self.annexes[root as usize] = annex;
    }

    // Turns a free number into a new object, and marks it as taken. No usage changes.
    #[tactic(auto, unfolding(model::specs::Banking::with_new))]
    fn make<F: PresentFrames>(&mut self, store: &mut F, number: u64, fresh: Fresh, bank: u64)
        requires nodes { length self.old.limits ≡ length self.old.free_nodes }
        requires known { number < length self.old.free_nodes + length self.old.free_pages }
        requires fetched { F.IsFetched store.old number }
        requires announced { F.IsAnnounced store.old number }
        requires free { (header_at (F.parts store.old).headers number).role ≡ Role.Free }
        requires place { IsFreshAt (F.parts store.old).geometry number fresh }
        ensures objects { objects_in (F.parts store.new)
            ≡ with_new (objects_in (F.parts store.old)) number bank
            (fresh_content Capability.Void fresh) }
        ensures current { AreCurrent (frames_of (F.parts store.old))
            → AreCurrent (frames_of (F.parts store.new)) }
        ensures keepable { (age : ℕ) → FreshFits fresh
            → AreKeepable (F.parts store.old).geometry age (frames_of (F.parts store.old))
            → AreKeepable (F.parts store.old).geometry age (frames_of (F.parts store.new)) }
        ensures snapshots { KeepsRest F.parts F.IsFetched F.IsAnnounced F.ContinuesTo store.old store.new }
        ensures made { IsMade self.old self.new number }
    {
        // `limits` has an item for each node, so its length is the number of the first page.
        let first_page = self.limits.len();
        mark(&mut self.nodes, &mut self.pages, first_page, number, false);
        claim(store, number, fresh, bank);
    }
}
