// Laws of three header slots, as contracts of functions that do nothing.
ghost use Rattle.header_slots.specs.Closing.{OldThirdFirst, OtherThirdLast};
ghost use Rattle.header_slots.specs.Laws.{BrokenHeadersAreSeen, GateCommits, HeaderCommitsNothing, OneIsCommitted};
ghost use Rattle.header_slots.specs.Laws.{PublishedIsCommitted, RunsCommit};
ghost use Rattle.header_slots.specs.Wrong.{NeighboursAreNeeded, NextGateIsNeeded, NextGateShowsDamage, OneSyncIsTooFew};

/// A publish of header s + 1 writes the header, syncs, writes its gate, and syncs. A crash before the gate is written
/// leaves header s committed, a later crash header s or s + 1. After the last sync, header s + 1 is committed. So
/// after any number of publishes and crashes, the committed header is the first one or one of those published. No two
/// headers are committed.
///
/// The function does nothing: its contract is the law.
pub fn publishing_is_safe()
    ensures header { HeaderCommitsNothing }
    ensures gate { GateCommits }
    ensures end { PublishedIsCommitted }
    ensures one { OneIsCommitted }
    ensures runs { RunsCommit }
{}

/// If a header is no longer sound, or the header in the slot after the committed one changes in any way, the
/// same header stays committed, or none is. The function does nothing: its contract is the law.
pub fn damage_changes_nothing()
    ensures { BrokenHeadersAreSeen }
{}

/// Before a new image overwrites an old one, all gates are closed, each with a sync: first those of headers
/// that count, in rising order, then the others. A crash leaves the same header committed, or none. The
/// function does nothing: its contract is the law.
pub fn closing_is_safe()
    ensures older { OldThirdFirst }
    ensures other { OtherThirdLast }
{}

/// One sync for header and gate together isn't enough. If the rule ignored the neighbouring header or the
/// next gate, a torn or damaged header could be committed. The function does nothing: its contract is the
/// law, by counterexamples.
pub fn weaker_rules_fail()
    ensures sync { OneSyncIsTooFew }
    ensures neighbour { NeighboursAreNeeded }
    ensures next { NextGateIsNeeded }
    ensures damage { NextGateShowsDamage }
{}
