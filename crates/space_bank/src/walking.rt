// Walks along chains of banks, from owner to owner in the table of headers.
ghost use Rattle.std.specs.Prelude.{◌≡◌, ◌-◌, length, nat_eq, slice_index};
ghost use Rattle.std.specs.List.{list_any};
ghost use Rattle.model.specs.Bank.{chain, is_under as lies_under};
ghost use Rattle.model.specs.Banking.{has_quota as is_room, remaining};
ghost use Rattle.model.specs.Object.{is_free as counts_as_free};
ghost use Rattle.model.specs.World.{content_at, object_at, owner_at};
ghost use Rattle.capability.specs.Parts.{HaveTheirRoles, frames_of, objects_in};
ghost use Rattle.space_bank.specs.Banks.{MayServe};
ghost use Rattle.space_bank.specs.Planning.{HasLeft};

use crate::banks::Banks;
use capability::Frames;
use model::Role;

/// The most banks that a chain may have.
pub(crate) const MAX_CHAIN: usize = 16;

// Returns the owner of an object.
pub(crate) fn owner<F: Frames>(store: &F, number: u64) -> u64
    ensures { result ≡ owner_at (objects_in (F.parts store.now)) number }
{
    store.table().header(number).owner
}

// Whether a number is free. A number that doesn't exist counts as free.
pub(crate) fn is_free<F: Frames>(store: &F, number: u64) -> bool
    requires { HaveTheirRoles (frames_of (F.parts store.now)) }
    ensures { result
        ≡ counts_as_free (content_at (objects_in (F.parts store.now)) number) }
{
    matches!(store.table().header(number).role, Role::Free)
}

/// Whether the chain of `first`, at most 16 banks, contains a bank (KeyKOS, EROS: banks form a tree). Reads
/// only the table.
#[tactic(auto, using(crate::proofs::Plans::chain_begun, crate::proofs::Plans::chain_here))]
pub fn is_in_chain<F: Frames>(store: &F, first: u64, bank: u64) -> bool
    ensures { result
        ≡ list_any (nat_eq bank) (chain (objects_in (F.parts store.now)) first) }
{
    let mut link = first;
    for _step in 0..MAX_CHAIN {
        if link == bank {
            return true;
        }
        if link == 0 {
            return false;
        }
        link = owner(store, link);
    }
    false
}

// Whether a bank is in the chain of an object's owner.
pub(crate) fn is_under<F: Frames>(store: &F, bank: u64, number: u64) -> bool
    requires { HaveTheirRoles (frames_of (F.parts store.now)) }
    ensures { let objects = objects_in (F.parts store.now) in
        result ≡ lies_under objects bank (object_at objects number) }
{
    !is_free(store, number) && is_in_chain(store, owner(store, number), bank)
}

// Returns how many banks the chain of a bank has.
#[tactic(auto, using(crate::proofs::Plans::chain_begun, crate::proofs::Plans::chain_last))]
pub(crate) fn chain_length<F: Frames>(store: &F, bank: u64) -> usize
    ensures { result ≡ length (chain (objects_in (F.parts store.now)) bank) }
{
    let mut current = bank;
    for passed in 0..MAX_CHAIN {
        if current == 0 {
            return passed + 1;
        }
        current = owner(store, current);
    }
    MAX_CHAIN
}

impl Banks {
    // Returns how many more objects the limit of a bank itself allows.
    fn left(&self, bank: u64) -> u64
        requires { HasLeft self.now bank }
        ensures { result ≡ slice_index self.now.limits bank - slice_index self.now.usages bank }
    {
        self.limits[bank as usize] - self.usages[bank as usize]
    }

    // Whether the limits of all banks in the chain of a bank allow `count` more objects.
    #[tactic(auto, using(crate::proofs::Plans::quota_is, crate::proofs::Plans::chain_within_limits))]
    pub(crate) fn has_quota<F: Frames>(&self, store: &F, bank: u64, count: u64) -> bool
        requires { MayServe (F.parts store.now) self.now bank }
        ensures { result ≡ is_room (objects_in (F.parts store.now)) bank count }
    {
        count <= self.least_left(store, bank)
    }

    // Returns how many more objects all limits in the chain of a bank allow.
    #[tactic(auto, using(crate::proofs::Plans::left_there))]
    pub(crate) fn least_left<F: Frames>(&self, store: &F, bank: u64) -> u64
        requires { MayServe (F.parts store.now) self.now bank }
        ensures { result ≡ remaining (objects_in (F.parts store.now)) bank }
    {
        let mut least = u64::MAX;
        let mut current = bank;
        for _step in 0..MAX_CHAIN {
            least = least.min(self.left(current));
            if current == 0 {
                return least;
            }
            current = owner(store, current);
        }
        least
    }
}
