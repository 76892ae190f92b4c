// Lists of the numbers that an order writes. There is memory for all numbers from the start, so adding to a
// list doesn't allocate.
ghost use Rattle.std.specs.Prelude.{◌≡◌, ◌≢◌, ◌+◌, ◌<◌, ◌≤◌, ◌++◌, [], ◌∷◌, false, length, vec_len};
ghost use Rattle.std.specs.Vec.{vec_capacity};
ghost use Rattle.model.specs.Object.{is_free as counts_as_free};
ghost use Rattle.model.specs.World.{content_at, owner_at};
ghost use Rattle.capability.specs.Parts.{HaveTheirRoles, frames_of, objects_in};
ghost use Rattle.space_bank.specs.Banks.{MayServe};
ghost use Rattle.space_bank.specs.Planning.{AreFree, is_listed, listed_by, writers};

use crate::banks::Banks;
use crate::marking::next_used;
use crate::walking::{is_free, is_under, owner};
use capability::{Caller, Frames};
use collections::NumberSet;
use model::Operation;

// Whether a number is to be listed for a bank. If `deep`: the bank, and all objects under it; else: the
// objects that it owns itself.
fn is_listed<F: Frames>(store: &F, bank: u64, deep: bool, number: u64) -> bool
    requires { HaveTheirRoles (frames_of (F.parts store.now)) }
    ensures { result ≡ is_listed (objects_in (F.parts store.now)) bank deep number }
{
    if deep {
        number == bank || is_under(store, bank, number)
    } else {
        !is_free(store, number) && owner(store, number) == bank
    }
}

// Lists the numbers of a bank other than the prime bank, in rising order. Number 0 is never among them.
// Visits all numbers in use.
#[tactic(auto, using(capability::proofs::FrameLists::length_objects, crate::proofs::Missing::listed_inner))]
fn list_all<F: Frames>(
    store: &F,
    nodes: &NumberSet,
    pages: &NumberSet,
    bank: u64,
    deep: bool,
    listed: &mut Vec<u64>,
)
    requires roles { HaveTheirRoles (frames_of (F.parts store.now)) }
    requires bank { counts_as_free (content_at (objects_in (F.parts store.now)) bank) ≡ false }
    requires nodes { length nodes.now ≡ (F.parts store.now).geometry.nodes }
    requires free { AreFree (objects_in (F.parts store.now)) nodes.now pages.now }
    requires prime { owner_at (objects_in (F.parts store.now)) 0 ≡ 0 }
    requires other { bank ≢ 0 }
    requires room { vec_len listed.old + length (F.parts store.now).headers
        ≤ vec_capacity listed.old + 1 }
    ensures listed { listed.new.items
        ≡ listed.old.items ++ listed_by (objects_in (F.parts store.now)) bank deep }
    ensures room { vec_capacity listed.new ≡ vec_capacity listed.old }
{
    let first_page = store.geometry().nodes;
    let mut from = 0;
    while let Some(number) = next_used(nodes, pages, first_page, from) {
        if is_listed(store, bank, deep, number) {
            listed.push_reserved(number);
        }
        from = number + 1;
    }
}

impl Banks {
    /// Replaces the list by the numbers that an invocation of a kernel object writes, without those that its
    /// order writes: for a call the process and its annex, for a return the process, else none.
    pub fn list_writers(&mut self, caller: Caller)
        requires { 2 ≤ self.old.room }
        ensures { self.new ≡ record self.old {
          listed = writers caller.operation caller.process caller.annex;
        } }
    {
        self.listed.clear();
        match caller.operation {
            Operation::Call => {
                self.listed.push_reserved(caller.process);
                self.listed.push_reserved(caller.annex);
            }
            Operation::Return => self.listed.push_reserved(caller.process),
            Operation::Send => {}
        }
    }

    /// Appends a number to the list.
    pub fn list(&mut self, number: u64)
        requires { length self.old.listed < self.old.room }
        ensures { self.new ≡ record self.old { listed = self.old.listed ++ number ∷ [] } }
    {
        self.listed.push_reserved(number);
    }

    // Appends the numbers of a bank to the list. If `deep`: the bank, and all objects under it; else: the
    // objects that it owns itself.
    #[tactic(auto, using(crate::proofs::Tallies::serve_roles, crate::proofs::Missing::bank_free))]
    pub(crate) fn list_all<F: Frames>(&mut self, store: &F, bank: u64, deep: bool)
        requires bank { MayServe (F.parts store.now) self.old bank }
        requires other { bank ≢ 0 }
        requires room { length self.old.listed + length (F.parts store.now).headers
            ≤ self.old.room + 1 }
        ensures { let objects = objects_in (F.parts store.now) in
            self.new ≡ record self.old { listed = self.old.listed ++ listed_by objects bank deep } }
    {
        list_all(
            store,
            &self.nodes,
            &self.pages,
            bank,
            deep,
            &mut self.listed,
        );
    }
}
