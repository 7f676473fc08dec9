//! What two builds meet.
ghost use Rattle.pie_earlier_laws.specs.Met.{TriedEvaluationsAreMet, OldEvaluationsAreMet};

/// What a task observes and writes is met, wherever its evaluation stands below a present root or an old live task now,
/// or in the old forest. Rule: docs/MODEL.md.
pub fn what_stands_is_met()
    ensures now { TriedEvaluationsAreMet }
    ensures then { OldEvaluationsAreMet }
{}
