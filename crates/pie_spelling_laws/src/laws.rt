//! The laws on spellings, each on a function with an empty body.
ghost use Rattle.pie_spelling_laws.specs.Same.{SpansSayNothing, KindsDecide, SpellingsTellKinds, EachStandsInItsText};
ghost use Rattle.pie_spelling_laws.specs.Same.{EachReachesToTheNext, EqualSpellingsAreOneTree, EqualSpellingsMeanTheSame};

/// Where a function stands is no part of its meaning: functions that are equal but for their spans answer alike.
/// Rule: docs/LANGUAGE.md, "Evaluation".
pub fn spans_say_nothing()
    ensures { SpansSayNothing }
{}

/// The kinds of the tokens of a function, with their names, numbers and texts, decide its tree but for the spans.
/// Rule: docs/LANGUAGE.md, "Grammar".
pub fn kinds_decide_a_function()
    ensures { KindsDecide }
{}

/// Functions whose token spellings, joined by one space, are equal mean the same, whatever texts they stand in.
/// So a function may be known by a digest of its joined spellings.
pub fn equal_spellings_mean_the_same()
    ensures tokens { EachStandsInItsText }
    ensures reach { EachReachesToTheNext }
    ensures kinds { SpellingsTellKinds }
    ensures tree { EqualSpellingsAreOneTree }
    ensures answers { EqualSpellingsMeanTheSame }
{}
