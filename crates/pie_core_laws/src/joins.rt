//! What the calls say that load an earlier build, and that compare a record with the one before it.
ghost use Rattle.pie_core_laws.specs.Joins.{LoadedTablesBegin, NamesBegin, NamesGrow, SameCodesAreSame, OtherCodesAreNot, SameNumbersAreOneShape};

/// The loaded rows of an earlier build are its tasks by their numbers; names join one after another. Rule: docs/MODEL.md.
pub fn earlier_builds_are_loaded()
    ensures tables { LoadedTablesBegin }
    ensures first { NamesBegin }
    ensures more { NamesGrow }
{}

/// Functions with one digest have the same code, and others haven't; the same required numbers and writes are one shape.
pub fn comparisons_decide()
    ensures same { SameCodesAreSame }
    ensures other { OtherCodesAreNot }
    ensures shape { SameNumbersAreOneShape }
{}
