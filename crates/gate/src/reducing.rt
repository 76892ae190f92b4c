// Adding restrictions to capabilities.
ghost use Rattle.std.specs.Prelude.{◌≡◌, if◌then◌else◌, None, Some};
ghost use Rattle.model.specs.Order.{reduces};
ghost use Rattle.gate.specs.Plan.{reduced, reduction};

use bitflags::Flags;
use capability::OrderPlan;
use model::{Access, Capability, ResultCode};

// Returns the access whose restrictions a word adds: read-only, or read-only and weak. `None` for any other
// word.
fn reducing_access(word: u64) -> Option<Access>
    ensures { result ≡ (if reduces word then Some (record { 0 = word }) else None) }
{
    match word {
        1 => Some(Access::READ_ONLY),
        3 => Some(Access::weak()),
        _ => None,
    }
}

// Returns a page, node or space capability with the restrictions of a word added. `None` if the word is no
// access, or the capability is of another kind.
fn reduced(capability: Capability, word: u64) -> Option<Capability>
    ensures { result ≡ reduced capability word }
{
    let less = reducing_access(word)?;
    match capability {
        Capability::Page { object, access } => Some(Capability::Page {
            object,
            access: access.union(less),
        }),
        Capability::Node { object, access } => Some(Capability::Node {
            object,
            access: access.union(less),
        }),
        Capability::Space {
            object,
            height,
            access,
        } => Some(Capability::Space {
            object,
            height,
            access: access.union(less),
        }),
        _ => None,
    }
}

/// Plans the order that adds the restrictions of a word to a page, node or space capability. The reply has
/// the new capability.
pub fn plan_reduction(capability: Capability, word: u64) -> OrderPlan
    ensures { result ≡ reduction capability word }
{
    match reduced(capability, word) {
        Some(less) => OrderPlan::given(less),
        None => OrderPlan::refused(ResultCode::BadIndex),
    }
}
