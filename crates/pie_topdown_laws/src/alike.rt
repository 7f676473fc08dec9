//! How far the evaluation of a task now goes as the one of which there is a record.
ghost use Rattle.pie_topdown_laws.specs.CheckLaws.{EvaluationsBeginAlike};

/// The evaluation now begins with what an old record observed, as far as the stamps are those of now.
pub fn evaluations_begin_alike()
    ensures { EvaluationsBeginAlike }
{}
