//! Tasks by their canonical bytes.
ghost use Rattle.pie_builder_laws.specs.Names.{NamesAreAmong, OtherNamesAreNot, NamesAreDistinct, NeedsAreCalled};

/// A task is among others where its canonical bytes are among theirs.
pub fn names_are_bytes()
    ensures among { NamesAreAmong }
    ensures others { OtherNamesAreNot }
    ensures distinct { NamesAreDistinct }
{}

/// The tasks that observations require are those of the model.
pub fn needs_are_called()
    ensures { NeedsAreCalled }
{}
