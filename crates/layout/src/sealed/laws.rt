// Laws of the bytes, as contracts of functions that do nothing.
ghost use Rattle.layout.specs.sealed.GateLaws.{BurstsKeepNumbers, GatesHaveOneNumber, ClosedGatesHaveNone};
ghost use Rattle.layout.specs.sealed.GateLaws.{WrittenGatesHaveTheirNumber};
ghost use Rattle.layout.specs.sealed.Laws.{ClustersShowBursts, SectorsShowBursts, SpellOneSealedHeader};
ghost use Rattle.layout.specs.sealed.Laws.{SpellOnePageHeader, SpellOneSector, SuperblocksShowBursts, ZerosAreFree};
ghost use Rattle.layout.specs.sealed.RootLaws.{OneOldSectorIsSeen, OneOldUnitIsSeen, UnitsHaveNoOrder};

/// A gate has at most one number. A gate that was written has its number, and a closed one has none. A burst of at
/// most 64 bits doesn't change the number of an intact gate. The function does nothing: its contract is the law.
pub fn gates_are_majorities()
    ensures one { GatesHaveOneNumber }
    ensures written { WrittenGatesHaveTheirNumber }
    ensures closed { ClosedGatesHaveNone }
    ensures burst { BurstsKeepNumbers }
{}

/// Given bytes encode at most one value of each structure. Frames of zeros are those of free numbers. The function
/// does nothing: its contract is the law.
pub fn spell_one_sealed_value()
    ensures header { SpellOneSealedHeader }
    ensures page { SpellOnePageHeader }
    ensures directory { SpellOneSector }
    ensures zeros { ZerosAreFree }
{}

/// A burst of at most 64 bits makes no valid sector of a structure into another valid one, and no valid cluster into
/// another. The function does nothing: its contract is the law.
pub fn damage_is_seen()
    ensures sector { SectorsShowBursts }
    ensures superblock { SuperblocksShowBursts }
    ensures cluster { ClustersShowBursts }
{}

/// If the seal of one unit changes, the root changes. If the seal of one sector of a directory changes, the
/// directory's sums change. The order of units doesn't matter. The function does nothing: its contract is the law.
pub fn one_old_block_is_seen()
    ensures unit { OneOldUnitIsSeen }
    ensures sector { OneOldSectorIsSeen }
    ensures order { UnitsHaveNoOrder }
{}
