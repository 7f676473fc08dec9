//! Trees of evaluations: what ended with a value or by a fault does not depend on what stands above it.

ghost use Rattle.pie_model.specs.inner.TreeLaws.{PlainNodesAreAlone, PlainNodesAreOne, PlainTreesArePlain, PlainTreesMove, PlainTreesAreApart, ManyEntersTooMany};
ghost use Rattle.pie_model.specs.inner.TreeLaws.{TreesAreEntered, EnteredTreesAddNothing};

/// The first law: an evaluation that ended with a value or by a fault is the same wherever it stands.
pub fn plain_nodes_are_one()
    ensures alone { PlainNodesAreAlone }
    ensures one { PlainNodesAreOne }
    ensures plain { PlainTreesArePlain }
    ensures apart { PlainTreesAreApart }
{}

/// Its converse: what becomes of such a tree below other tasks and with other room.
pub fn plain_trees_move()
    ensures { PlainTreesMove }
{}

/// Too long a chain comes only of too many tasks.
pub fn too_long_a_chain_enters_too_many()
    ensures { ManyEntersTooMany }
{}

/// Each task is entered once, and a tree whose tasks were entered adds none.
pub fn entered_trees_add_nothing()
    ensures all { TreesAreEntered }
    ensures nothing { EnteredTreesAddNothing }
{}
