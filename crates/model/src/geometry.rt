// How many objects a device holds, and the greatest age.
ghost use Rattle.std.specs.Prelude.{◌↔◌, IsTrue};
ghost use Rattle.model.specs.Keepable.{IsTarget};

use crate::capability::Capability;

/// The greatest age. At this age invocations, checkpoints and journaling are refused.
pub const MAX_AGE: u64 = 1 << 62;

/// How much a device holds.
///
/// Nodes have the numbers below `nodes`, and pages the `pages` numbers after them.
#[derive(Clone, Copy)]
pub struct Geometry {
    /// How many numbers there are for nodes, roots, annexes and banks.
    pub nodes: u64,
    /// How many numbers there are for pages.
    pub pages: u64,
    /// How many slots each half of the log has, and so the most objects that one checkpoint can write.
    pub log: u64,
}

impl Geometry {
    /// Whether the number that a capability names is one for its kind of object. True if it names none.
    #[inline(always)]
    pub fn has_target(self, capability: Capability) -> bool
        ensures { IsTrue result ↔ IsTarget self capability }
    {
        match capability {
            Capability::Page { object, .. } => {
                self.nodes <= object && object - self.nodes < self.pages
            }
            Capability::Node { object, .. } => object < self.nodes,
            Capability::Space { object, .. } => object < self.nodes,
            Capability::Process(process) => process < self.nodes,
            Capability::Start { process, .. } => process < self.nodes,
            Capability::Resume(process) => process < self.nodes,
            Capability::Bank(bank) => bank < self.nodes,
            Capability::Void => true,
            Capability::Number(_) => true,
            Capability::Discrim => true,
        }
    }
}
