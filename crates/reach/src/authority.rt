// What a capability allows its holder to change or read.
ghost use Rattle.std.specs.Prelude.{◌≡◌, ◌⊎◌, ◌↔◌, ℕ, length, None, IfSome, IsTrue};
ghost use Rattle.model.specs.Capability.{IsWeak};
ghost use Rattle.collections.specs.Marks.{is_marked};
ghost use Rattle.confinement.specs.Trusted.{StartsOne};
ghost use Rattle.reach.specs.Chain.{Conveys, IsFollowed};
ghost use Rattle.reach.specs.Levels.{NamesWithin};
ghost use Rattle.reach.specs.Links.{links};

use collections::NumberSet;
use model::{Access, Capability};

/// What a search is for.
#[derive(Clone, Copy)]
pub enum Purpose {
    /// All that the processes can ever change.
    Change,
    /// All that the processes can ever read. Weak capabilities are followed too.
    Read,
}

// Whether a capability names nothing, or is both read-only and weak.
fn is_weak(capability: Capability) -> bool
    ensures { IsTrue result ↔ IsWeak capability }
{
    match capability {
        Capability::Void | Capability::Number(_) | Capability::Discrim => true,
        Capability::Page { access, .. }
        | Capability::Node { access, .. }
        | Capability::Space { access, .. } => access == Access::weak(),
        Capability::Process(_)
        | Capability::Start { .. }
        | Capability::Resume(_)
        | Capability::Bank(_) => false,
    }
}

// Whether a search follows a capability. It follows a weak one only to find what can be read.
fn is_followed(capability: Capability, purpose: Purpose) -> bool
    ensures { IsTrue result ↔ IsFollowed purpose capability }
{
    match purpose {
        Purpose::Change => !is_weak(capability),
        Purpose::Read => true,
    }
}

// Whether a capability starts a trusted process.
fn starts_one(capability: Capability, trusted: &NumberSet) -> bool
    requires { NamesWithin (length trusted.now) capability }
    ensures { IsTrue result ↔ StartsOne (is_marked trusted.now) capability }
{
    match capability {
        Capability::Start { process, .. } => trusted.contains(process as usize),
        _ => false,
    }
}

/// Returns the number of the object that a capability lets its holder change or read. Returns `None` if there is
/// no such object, or if the capability starts a trusted process.
pub(crate) fn authority_but(
    capability: Capability,
    purpose: Purpose,
    trusted: &NumberSet,
) -> Option<u64>
    requires { NamesWithin (length trusted.now) capability }
    ensures some { IfSome result (Conveys (links purpose (is_marked trusted.now)) capability) }
    ensures none { result ≡ None → (n : ℕ) → Conveys (links purpose (is_marked trusted.now)) capability n → ⊥ }
{
    if starts_one(capability, trusted) {
        return None;
    }
    if !is_followed(capability, purpose) {
        return None;
    }
    capability.named()
}
