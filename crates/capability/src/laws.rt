//! Laws of counts. Each is the contract of a function that does nothing.

ghost use Rattle.capability.specs.Laws.{CalledIsConsumed, ConsumeKeepsSoundFrames, GivenUpIsRescinded};
ghost use Rattle.capability.specs.Laws.{RescindKeepsSoundFrames};

/// If both counts of some objects are raised, and the objects freed, they are rescinded: no capability that
/// is held names one.
#[tactic(auto, using(crate::proofs::Counts::objects_given_up))]
pub fn given_up_is_rescinded()
    ensures { GivenUpIsRescinded }
{}

/// If the call count of a process is raised, no capability that is held resumes it.
#[tactic(auto, using(crate::proofs::Counts::objects_called))]
pub fn called_is_consumed()
    ensures { CalledIsConsumed }
{}

/// If counts are raised by a rescind, the frames are sound at the next age, provided that their world is.
pub fn rescind_keeps_sound_frames()
    ensures { RescindKeepsSoundFrames }
{}

/// If a call count is raised, the frames are sound at the next age, provided that their world is.
pub fn consume_keeps_sound_frames()
    ensures { ConsumeKeepsSoundFrames }
{}
