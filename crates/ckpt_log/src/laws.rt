// Laws of the log, as contracts of functions that do nothing.
ghost use Rattle.ckpt_log.specs.CommitLaws.{FramesAreBehind, NewIsDenoted, OldIsDenoted};
ghost use Rattle.ckpt_log.specs.HeaderLaws.{SequencesAreReported, NextFollows, HeadersSpareSectors, HeadersSpareFrames};
ghost use Rattle.ckpt_log.specs.HeaderLaws.{HeadersSpareSlots, HeadersSpareDirectories};
ghost use Rattle.ckpt_log.specs.Places.{SlotsAreInside, FramesAreInSlots, DirectoriesAreInside, HalvesAreWithin};
ghost use Rattle.ckpt_log.specs.Places.{HalvesAreApart, SlotsAreApart, SlotsSpareDirectories};
ghost use Rattle.ckpt_log.specs.SavedSectors.{SameHeader, SameDirectory, SameFrames, SameSaved, SameUnits};
ghost use Rattle.ckpt_log.specs.Slot.{SlotsAreReadBack, DirectoriesAreReadBack};

/// The saved state depends only on superblock, header slots and gates, the directory of the committed header, and the
/// block of each object: a page's frame, or a whole cluster, in the log or at home. Images that agree in these have the
/// same header, directory, frames and, in version 3, sealed units. So no write of another sector changes the saved
/// state, even with a crash. The function does nothing: its contract is the law.
pub fn saved_is_read_from_its_sectors()
    ensures header { SameHeader }
    ensures directory { SameDirectory }
    ensures frames { SameFrames }
    ensures units { SameUnits }
    ensures saved { SameSaved }
{}

/// The slots and the directory of a generation lie in its half of the log, and don't overlap. A frame lies in
/// its slot. The halves lie after the headers and before the end, and don't overlap. So writes for the next
/// generation change no sector of the last one. The function does nothing: its contract is the law.
#[tactic(auto, using(crate::proofs::Places::place_laws))]
pub fn keep_halves_apart()
    ensures slots { SlotsAreInside }
    ensures frames { FramesAreInSlots }
    ensures directories { DirectoriesAreInside }
    ensures within { HalvesAreWithin }
    ensures apart { HalvesAreApart }
    ensures slots_apart { SlotsAreApart }
    ensures slots_spare_directories { SlotsSpareDirectories }
{}

/// A read of a slot returns the frame that was written there, if an image may hold it, or fails only if the device
/// fails. The same holds for a directory. The function does nothing: its contract is the law.
pub fn what_is_written_is_read()
    ensures slots { SlotsAreReadBack }
    ensures directories { DirectoriesAreReadBack }
{}

/// The sequence number is read back from a header's bytes, so `commit` may follow the committed header with
/// the next number. A write of a header slot changes neither the superblock nor the frames and directories
/// after the headers. The function does nothing: its contract is the law.
pub fn headers_spare_the_rest()
    ensures sequences { SequencesAreReported }
    ensures next { NextFollows }
    ensures sectors { HeadersSpareSectors }
    ensures frames { HeadersSpareFrames }
    ensures slots { HeadersSpareSlots }
    ensures directories { HeadersSpareDirectories }
{}

/// The saved states after a crash during `Log::commit`. If the crash leaves the old header, the image has the state
/// saved before. If it leaves the new header, the image has the state written for it. The function does nothing: its
/// contract is the law.
pub fn a_commit_leaves_either_state()
    ensures behind { FramesAreBehind }
    ensures old { OldIsDenoted }
    ensures new { NewIsDenoted }
{}
