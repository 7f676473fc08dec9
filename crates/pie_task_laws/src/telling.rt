//! What running tasks are told of paths.
ghost use Rattle.pie_task_laws.specs.Telling.{PresencesAreTold, ReadingsAreTold, LongReadingsEnd, DigestsAreTold, ListingsAreTold, WritesAreTold};

/// A running task that looks, lists or writes goes on as in the model, or fails with notes that are a right record. Rule: docs/MODEL.md.
pub fn running_tasks_are_told()
    ensures presences { PresencesAreTold }
    ensures readings { ReadingsAreTold }
    ensures long { LongReadingsEnd }
    ensures digests { DigestsAreTold }
    ensures listings { ListingsAreTold }
    ensures writes { WritesAreTold }
{}
