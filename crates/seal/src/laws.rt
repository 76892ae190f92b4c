// Laws of sums and seals, as contracts of functions that do nothing.
ghost use Rattle.seal.specs.Laws.{BodiesDecideSeals, BurstsBreakSeals, BurstsChangeSums, FewChangesChangeSums, SumsFit};
ghost use Rattle.seal.specs.Laws.{ZerosAreSealed};

/// If at most three of a row's 4-byte numbers change, or a burst of at most 64 bits does, the sums of the row
/// change. If a sealed row changes by such a burst, even in its seal, it isn't sealed any more. The function
/// does nothing: its contract is the law.
pub fn damage_is_seen()
    ensures numbers { FewChangesChangeSums }
    ensures burst { BurstsChangeSums }
    ensures sealed { BurstsBreakSeals }
{}

/// The sums of a row are below 2^60. A row of zeros is sealed. Sealed rows with the same body are the same. The
/// function does nothing: its contract is the law.
pub fn seals_are_sums()
    ensures size { SumsFit }
    ensures zeros { ZerosAreSealed }
    ensures body { BodiesDecideSeals }
{}
