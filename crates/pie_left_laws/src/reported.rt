//! What is written and removed.
ghost use Rattle.pie_left_laws.specs.Reported.{NewFilesAreOther, RemovalsAreStray};

/// An accepted build by what changed writes a file exactly where the directory hasn't what a clean build provides, and removes exactly what is there under
/// `out` and a clean build doesn't provide. Rule: docs/MODEL.md.
pub fn changes_are_reported()
    ensures wrote { NewFilesAreOther }
    ensures removed { RemovalsAreStray }
{}
