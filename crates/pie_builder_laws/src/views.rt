//! What required tasks show.
ghost use Rattle.pie_builder_laws.specs.Views.{ViewsAreTheModels, ViewsAreProvided, NumbersStay, GraphsGrow, GraphsChange};

/// What is seen by the rows of a graph is what the kept contents show.
pub fn views_are_the_models()
    ensures shown { ViewsAreTheModels }
    ensures provided { ViewsAreProvided }
{}

/// The graph of the records grows with the tasks, and changes with their records.
pub fn graphs_go_on()
    ensures numbers { NumbersStay }
    ensures grows { GraphsGrow }
    ensures changes { GraphsChange }
{}
