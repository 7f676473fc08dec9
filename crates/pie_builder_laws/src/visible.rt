//! What is visible at a path.
ghost use Rattle.pie_builder_laws.specs.Visible.{KindsAreTheModels, SourcesAreFiles, ReservedPathsAreEmpty, OwnWritesAreVisible, OthersWritesAreVisible};

/// The kinds of paths are those of the model.
pub fn kinds_are_the_models()
    ensures { KindsAreTheModels }
{}

/// What a task sees is the file, nothing, its own write, or what others provide.
pub fn what_is_visible()
    ensures sources { SourcesAreFiles }
    ensures kept { ReservedPathsAreEmpty }
    ensures own { OwnWritesAreVisible }
    ensures others { OthersWritesAreVisible }
{}
