//! What is noted and told of required tasks.
ghost use Rattle.pie_builder_laws.specs.Requiring.{RequiresAreObserved, RequiresAreAnswered};

/// Requires are noted and answered as in the model.
pub fn requires_are_the_models()
    ensures observed { RequiresAreObserved }
    ensures answered { RequiresAreAnswered }
{}
