// Capabilities, and capabilities as they are held.
ghost use Rattle.std.specs.Prelude.{◌≡◌, ◌↔◌, IsTrue};
ghost use Rattle.model.specs.Capability.{IsWellFormed, diminished, named};
ghost use Rattle.model.specs.Frame.{void_held};
ghost use Rattle.model.specs.Order.{is_space};
ghost use Rattle.model.specs.Sound.{IsSpace};

use crate::access::Access;

/// The most levels of nodes that an address space has.
pub const MAX_HEIGHT: u8 = 4;

/// The authority that a slot or a register holds.
///
/// A page, node or space capability names an object, a process, start or resume capability a
/// process, and a bank capability a bank, by number. The others name nothing.
#[derive(Clone, Copy, PartialEq, Eq)]
pub enum Capability {
    /// Conveys nothing.
    Void,
    /// A 64-bit number.
    Number(u64),
    /// A page of 512 words.
    Page {
        object: u64,
        access: Access,
    },
    /// A node of 32 capabilities.
    Node {
        object: u64,
        access: Access,
    },
    /// A tree of nodes as an address space, 1 to 4 levels high.
    Space {
        object: u64,
        height: u8,
        access: Access,
    },
    /// Full control of a process.
    Process(u64),
    /// The right to start an available process, which sees the key.
    Start {
        process: u64,
        key: u16,
    },
    /// The right to answer a waiting process, once.
    Resume(u64),
    /// A source of objects, and the right to destroy what it gave.
    Bank(u64),
    /// Returns the kind of a capability.
    Discrim,
}

/// A held capability. It conveys authority only while its count equals that of its object.
#[derive(Clone, Copy, PartialEq, Eq)]
pub struct Cap {
    pub what: Capability,
    pub count: u64,
}

impl Capability {
    /// The number of the object that the capability names, if it names one.
    pub fn named(self) -> Option<u64>
        ensures { result ≡ named self }
    {
        match self {
            Capability::Page { object, .. }
            | Capability::Node { object, .. }
            | Capability::Space { object, .. }
            | Capability::Process(object)
            | Capability::Start {
                process: object,
                ..
            }
            | Capability::Resume(object)
            | Capability::Bank(object) => Some(object),
            Capability::Void | Capability::Number(_) | Capability::Discrim => None,
        }
    }

    /// The capability that a fetch through a weak one gives in place of this one (EROS: weak access,
    /// KeyKOS: sense).
    ///
    /// A number capability is unchanged. A page, node or space becomes read-only and weak. All else becomes
    /// void, since it can't be made harmless.
    pub fn diminish(self) -> Capability
        ensures { result ≡ diminished self }
    {
        let access = Access::weak();
        match self {
            Capability::Number(number) => Capability::Number(number),
            Capability::Page { object, .. } => Capability::Page { object, access },
            Capability::Node { object, .. } => Capability::Node { object, access },
            Capability::Space { object, height, .. } => Capability::Space {
                object,
                height,
                access,
            },
            Capability::Void
            | Capability::Process(_)
            | Capability::Start { .. }
            | Capability::Resume(_)
            | Capability::Bank(_)
            | Capability::Discrim => Capability::Void,
        }
    }

    /// Whether the capability may be the address space of a process: nothing, a page or a tree of nodes.
    pub fn may_be_space(self) -> bool
        ensures value { result ≡ is_space self }
        ensures space { IsTrue result ↔ IsSpace self }
    {
        matches!(
            self,
            Capability::Void | Capability::Page { .. } | Capability::Space { .. }
        )
    }

    /// Whether the capability's access is valid, and its height is from 1 to 4.
    #[inline(always)]
    pub fn is_well_formed(self) -> bool
        ensures { IsTrue result ↔ IsWellFormed self }
    {
        match self {
            Capability::Page { access, .. } => access.is_valid(),
            Capability::Node { access, .. } => access.is_valid(),
            Capability::Space { height, access, .. } => {
                1 <= height && height <= MAX_HEIGHT && access.is_valid()
            }
            Capability::Number(_) => true,
            Capability::Start { .. } => true,
            Capability::Void
            | Capability::Process(_)
            | Capability::Resume(_)
            | Capability::Bank(_)
            | Capability::Discrim => true,
        }
    }
}

impl Cap {
    /// A capability that conveys nothing.
    pub fn void() -> Cap
        ensures { result ≡ void_held }
    {
        Cap {
            what: Capability::Void,
            count: 0,
        }
    }
}
