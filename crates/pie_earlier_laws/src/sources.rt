//! What unnamed sources leave as it is.
ghost use Rattle.pie_earlier_laws.specs.Sources.{NamedStampsDecide};

/// Where outside the named paths the sources are as they were, an old record has the stamps of its sources as long as the named ones are those that
/// they would get now. Rule: docs/MODEL.md.
pub fn named_stamps_decide()
    ensures { NamedStampsDecide }
{}
