//! The manners of tasks, and listings that tell directories apart.
ghost use Rattle.pie_model.specs.Separate.{ListingsDiffer};
ghost use Rattle.pie_model_pipeline.specs.World.{world};
ghost use Rattle.pie_manner_laws.specs.Manners.{TasksHaveManners};
ghost use Rattle.pie_manner_laws.specs.Writes.{TasksWriteOnce};

/// Listings that keep the limit and have the same canonical bytes are equal. Rule: docs/MODEL.md.
pub fn listings_differ()
    ensures { ListingsDiffer world }
{}

/// A task never writes a path that it has looked at, whatever bytes stand for it and whatever it is answered. Rule: docs/MODEL.md.
pub fn tasks_have_manners()
    ensures { TasksHaveManners }
{}

/// A task never writes a path twice. Rule: docs/LANGUAGE.md, "Evaluation".
pub fn tasks_write_once()
    ensures { TasksWriteOnce }
{}
