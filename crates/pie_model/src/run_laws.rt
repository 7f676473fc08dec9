//! Running tasks: event by event each stays at the front of its evaluation, and its end is its evaluation's.

ghost use Rattle.pie_model.specs.inner.RunLaws.{RunsStart, RunsSeeNothing, RunsSeeContents, RunsList, RunsWrite, RequiredTasksStand, RunsAreAnswered};
ghost use Rattle.pie_model.specs.inner.RunLaws.{RecordsAnswerRequires};
ghost use Rattle.pie_model.specs.inner.EndLaws.{RunsEndDone, RunsEndFailed, RunsEndClashing, RunsEndTooBig, RunsEndAsRequired, AnsweredRunsEndPlain, RunsEndInCycle};
ghost use Rattle.pie_model.specs.inner.EndLaws.{EndedRunsAreAlone, OutcomesSink, EnteredTasksSink, EnteredTasksComeFirst};

/// A task starts at the front of its evaluation, and looks, listings and writes keep it there.
pub fn runs_go_on()
    ensures starts { RunsStart }
    ensures sees_nothing { RunsSeeNothing }
    ensures sees_contents { RunsSeeContents }
    ensures lists { RunsList }
    ensures writes { RunsWrite }
{}

/// A require: the required task stands in the evaluation, and its value lets the run go on.
pub fn requires_go_on()
    ensures stands { RequiredTasksStand }
    ensures answered { RunsAreAnswered }
{}

/// A require is answered from right records as the evaluation answers it.
pub fn records_answer_requires()
    ensures { RecordsAnswerRequires }
{}

/// How a run ends: its record is that of its evaluation.
pub fn runs_end()
    ensures done { RunsEndDone }
    ensures failed { RunsEndFailed }
    ensures clashing { RunsEndClashing }
    ensures too_big { RunsEndTooBig }
    ensures as_required { RunsEndAsRequired }
    ensures plain { AnsweredRunsEndPlain }
    ensures in_cycle { RunsEndInCycle }
    ensures alone { EndedRunsAreAlone }
{}

/// An outcome that is no value is the root's, and so is what was entered until then.
pub fn outcomes_sink()
    ensures outcome { OutcomesSink }
    ensures entered { EnteredTasksSink }
    ensures first { EnteredTasksComeFirst }
{}
