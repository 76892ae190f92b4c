// Testing whether a capability names an object of its kind.
ghost use Rattle.std.specs.Prelude.{◌≡◌, ◌↔◌, IsTrue};
ghost use Rattle.model.specs.declared.capability.Capability.{Capability};
ghost use Rattle.capability.specs.Parts.{frames_of};
ghost use Rattle.capability.specs.Plain.{parts_of};
ghost use Rattle.capability.specs.Consistency.{NamesItsRole};
ghost use Rattle.recovery.specs.Noted.{AreNoted};

use capability::Plain;
use description::Naming;
use model::Capability;
use recovery::{Noted, names_its_role};
use std::marker::Model;

/// The test whether a capability names an object of its kind, and a resume capability a waiting process.
#[derive(Drop)]
pub(crate) struct OfItsRole<'a> {
    frames: &'a Plain,
    notes: &'a [Option<Noted>],
}

impl<'a> Model for OfItsRole<'a> {
    ghost use Rattle.std.specs.Prelude.{List};
    ghost use Rattle.model.specs.declared.frame.Frame.{Frame};
    ghost use Rattle.capability.specs.Parts.{frames_of};
    ghost use Rattle.capability.specs.Plain.{parts_of};
    ghost use Rattle.recovery.specs.Noted.{AreNoted};

    ghost Value = { List Frame };

    ghost view = { λ r. frames_of (parts_of r.frames.now) };

    ghost invariant = { λ r. AreNoted (frames_of (parts_of r.frames.now)) r.notes.now };
}

impl<'a> OfItsRole<'a> {
    pub(crate) fn new(frames: &'a Plain, notes: &'a [Option<Noted>]) -> OfItsRole<'a>
        requires { AreNoted (frames_of (parts_of frames.now)) notes.now }
        ensures { result ≡ frames_of (parts_of frames.entry.now) }
    {
        OfItsRole { frames, notes }
    }
}

impl Naming for OfItsRole<'_> {
    ghost Passes = { λ fs c. NamesItsRole fs c };

    fn passes(&self, capability: Capability) -> bool {
        names_its_role(self.frames, self.notes, capability)
    }
}
