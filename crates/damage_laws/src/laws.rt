//! The laws of damage. Each is the contract of a function that does nothing.
ghost use Rattle.damage_laws.specs.Changed.{OtherEntriesAreRefused, OtherUnitIsRefused, OtherWordsAreRefused};
ghost use Rattle.damage_laws.specs.Example.{ExampleIsGood};
ghost use Rattle.damage_laws.specs.Laws.{DamageChangesNothing, DamageElsewhereIsHarmless, DamageIsRefused};
ghost use Rattle.damage_laws.specs.Laws.{DamageIsHarmlessOrRefused};
ghost use Rattle.damage_laws.specs.Laws.{GatesAreNotRead, RefusedEncodesNone};

/// Take an image of version 3 that encodes a saved state. Damage to a burst of at most 64 bits makes it no image of
/// another state: it encodes the same state, or it is bad for one of the reasons 1 to 7. If it encodes any, the header
/// with its root is the same too. If the damage lies in a gate, that must have been whole: only a crash while it is
/// written leaves another.
pub fn damage_changes_nothing()
    ensures state { DamageIsHarmlessOrRefused }
    ensures header { DamageChangesNothing }
{}

/// Damage to a sector that is read (superblock, one of two headers, directory, cluster, page frame) makes the image
/// bad, by a reason that a changed sector tells. So it encodes no state. Damage elsewhere, also in a gate, changes
/// nothing.
pub fn damage_is_seen()
    ensures refused { DamageIsRefused }
    ensures none { RefusedEncodesNone }
    ensures elsewhere { DamageElsewhereIsHarmless }
    ensures gates { GatesAreNotRead }
{}

/// Take an image of version 3 that encodes a saved state. If one cluster, or the first sector of one page frame, holds
/// other bytes with another seal, as older ones, the image is bad, even if that seal is right. The same holds for a
/// sector of the directory with another seal, and for a page's words with other sums.
pub fn old_bytes_are_refused()
    ensures unit { OtherUnitIsRefused }
    ensures words { OtherWordsAreRefused }
    ensures entries { OtherEntriesAreRefused }
{}

/// There are such images: the laws aren't empty.
pub fn good_images_exist()
    ensures { ExampleIsGood }
{}
