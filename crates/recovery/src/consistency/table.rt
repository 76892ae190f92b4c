// Facts about an object from the table of headers. Nothing is fetched.
ghost use Rattle.std.specs.Prelude.{◌≡◌, ◌↔◌, IsTrue};
ghost use Rattle.capability.specs.Parts.{frames_of};
ghost use Rattle.capability.specs.Consistency.{owner_of, role_at};

use capability::Frames;
use model::Role;

/// Whether an object has a role. A number that doesn't exist counts as free.
#[tactic(auto, using(crate::proofs::Tables::header_read))]
pub fn has_role<F: Frames>(store: &F, number: u64, role: Role) -> bool
    ensures { IsTrue result ↔ (role_at (frames_of (F.parts store.now)) number ≡ role) }
{
    store.table().header(number).role == role
}

// The owner of an object.
#[tactic(auto, using(crate::proofs::Tables::header_read))]
pub(crate) fn owner<F: Frames>(store: &F, number: u64) -> u64
    ensures { result ≡ owner_of (frames_of (F.parts store.now)) number }
{
    store.table().header(number).owner
}
