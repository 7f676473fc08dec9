//! A task that ends.
ghost use Rattle.pie_core_laws.specs.Finishing.{FinishesStayExact};

/// A task that ends with the record of its evaluation, and is told to those that it concerns, leaves an exact build exact. Rule: docs/MODEL.md.
pub fn finishes_stay_exact()
    ensures { FinishesStayExact }
{}
