// What a capability lets its holder do.
ghost use Rattle.std.specs.Prelude.{⊤, ◌≡◌, ◌↔◌, [], ◌∷◌, IsTrue, codes};
ghost use Rattle.model.specs.Capability.{IsAccess, full, weak};

use bitflags::{Flag, Flags, bitflag_items};

/// What a page, node or space capability doesn't let its holder do.
///
/// A capability is full with no bit set, read-only with `READ_ONLY`, and weak with both. What is fetched
/// through a weak one is read-only and weak itself (EROS: the weak access right). No capability is weak
/// without being read-only. A number capability fetched through a weak one is unchanged.
#[derive(Clone, Copy, PartialEq, Eq)]
pub struct Access(u8);

bitflag_items! {
    impl Access: u8 {
        const READ_ONLY = 1;
        const WEAK = 2;
    }
}

impl Flags for Access {
    type Bits = u8;

    ghost exact = { ⊤ };

    ghost table = { (codes "READ_ONLY", 1) ∷ (codes "WEAK", 2) ∷ [] };

    ghost set_of = { λ a. a.0 };

    fn flags<'a>() -> &'a [Flag<Access>] {
        Access::FLAGS
    }

    fn bits(&self) -> u8 {
        self.0
    }

    fn from_bits_retain(bits: u8) -> Access {
        Access(bits)
    }
}

impl Access {
    /// The access of a capability that restricts nothing.
    pub fn full() -> Access
        ensures { result ≡ full }
    {
        Access::empty()
    }

    /// The access of a capability that is read-only and weak.
    pub fn weak() -> Access
        ensures { result ≡ weak }
    {
        Access::READ_ONLY.union(Access::WEAK)
    }

    /// Whether a capability may have this access: it restricts nothing, is read-only, or is read-only
    /// and weak.
    pub fn is_valid(self) -> bool
        ensures { IsTrue result ↔ IsAccess self }
    {
        matches!(self.bits(), 0 | 1 | 3)
    }
}
