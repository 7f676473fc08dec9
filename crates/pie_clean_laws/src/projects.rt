//! The project of a directory.
ghost use Rattle.pie_clean_laws.specs.inner.Projects.{ProjectsAreOne};

/// Whatever a directory is said to have for a project is one. Rule: docs/LANGUAGE.md, "Grammar".
pub fn projects_are_one()
    ensures { ProjectsAreOne }
{}
