//! Union edges, and the paths that tasks ask for.
ghost use Rattle.pie_earlier_laws.specs.Edges.{RecordedRequiresAreUnionEdges, AnsweredRequiresAreUnionEdges, NextRequiresAreUnionEdges};
ghost use Rattle.pie_earlier_laws.specs.Edges.{NextLooksAreObserved, NextListingsAreObserved};

/// What an old record or a right one requires, and what a running task has required and requires next, are union edges.
/// Rule: docs/MODEL.md.
pub fn requires_are_union_edges()
    ensures recorded { RecordedRequiresAreUnionEdges }
    ensures answered { AnsweredRequiresAreUnionEdges }
    ensures next { NextRequiresAreUnionEdges }
{}

/// The path that a running task looks at or lists next is observed in its evaluation.
pub fn next_paths_are_observed()
    ensures looks { NextLooksAreObserved }
    ensures lists { NextListingsAreObserved }
{}
