//! The laws by which an answer of the parser is the grammar's.
ghost use Rattle.pie_grammar_laws.specs.inner.Answers.{AcceptedPipelinesAreShallow, ShallowPipelinesAreAccepted, ExpectedStops, TooDeepNests};

/// What the parser answers is said by the grammar alone: it refuses no pipeline whose brackets keep the limit, except when
/// out of memory, and accepts no other; and the place of a refusal is where the tokens stop to begin a pipeline, or where the first
/// bracket nests too deep. Rule: docs/LANGUAGE.md, "Grammar".
pub fn answers_are_by_the_grammar()
    ensures room { AcceptedPipelinesAreShallow }
    ensures accepted { ShallowPipelinesAreAccepted }
    ensures expected { ExpectedStops }
    ensures too_deep { TooDeepNests }
{}
