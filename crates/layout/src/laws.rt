// Laws of the format, stated by functions that do nothing.
ghost use Rattle.layout.specs.Laws.{SpellOneCapability, SpellOneGate, SpellOneHeader, SpellOneDirectory, SpellOneFrame};
ghost use Rattle.layout.specs.Laws.{SpellOneSuperblock, SpeltIsRead, DenoteOneState};

/// A lemma as a function, which does nothing: given bytes encode at most one value of each structure.
#[tactic(auto, using(crate::proofs::Capabilities::one_capability, crate::proofs::Superblocks::one_plan))]
pub fn spell_one_value()
    ensures capability { SpellOneCapability }
    ensures gate { SpellOneGate }
    ensures header { SpellOneHeader }
    ensures directory { SpellOneDirectory }
    ensures frame { SpellOneFrame }
    ensures superblock { SpellOneSuperblock }
{}

/// A lemma as a function, which does nothing: if bytes encode a frame, `decode_frame` returns that frame.
pub fn what_is_spelt_is_read()
    ensures { SpeltIsRead }
{}

/// A lemma as a function, which does nothing: an image denotes at most one saved state.
pub fn denote_one_state()
    ensures { DenoteOneState }
{}
