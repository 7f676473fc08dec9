//! What tasks do next.
ghost use Rattle.pie_builder_laws.specs.Events.{CodesAreFound, EventsAreTheModels, UnknownTasksFail};

/// What a task does next in the model is what its code evaluates to.
pub fn events_are_the_models()
    ensures known { EventsAreTheModels }
    ensures unknown { UnknownTasksFail }
{}

/// A task whose function has a number has its code there.
pub fn codes_are_found()
    ensures { CodesAreFound }
{}
