//! Answers that fit.
ghost use Rattle.pie_builder_laws.specs.Fits.{TypedHaveHeadings, NoAnswersFit, MoreAnswersFit, RequiredTasksAreKnown, OutputsFit, BuildersAnswersFit};

/// The answers that a builder gives fit what tasks ask for.
pub fn answers_fit()
    ensures none { NoAnswersFit }
    ensures more { MoreAnswersFit }
    ensures builders { BuildersAnswersFit }
{}

/// Tasks of a typed pipeline that are given such answers require tasks of the pipeline, and give outputs that fit.
pub fn tasks_are_known()
    ensures headings { TypedHaveHeadings }
    ensures known { RequiredTasksAreKnown }
    ensures outputs { OutputsFit }
{}
