//! What an earlier accepted build left.
ghost use Rattle.pie_earlier_laws.specs.Left.{UnnamedWritesAreThere, ThereIsNotMissing};
ghost use Rattle.pie_earlier_laws.specs.Left.{AcceptedBuildsAreEarlier, AgreeingNeedNoNames, NamesJoin, MoreNamesServe};

/// What an old record wrote is there still, if what it wrote at named paths is. Rule: docs/MODEL.md.
pub fn unnamed_writes_are_there()
    ensures there { UnnamedWritesAreThere }
    ensures not_missing { ThereIsNotMissing }
{}

/// An accepted build is the earlier build of the next one; after a refused one, names of changes join those that are pending.
/// Rule: docs/MODEL.md.
pub fn bases_go_on()
    ensures accepted { AcceptedBuildsAreEarlier }
    ensures same { AgreeingNeedNoNames }
    ensures join { NamesJoin }
    ensures more { MoreNamesServe }
{}
