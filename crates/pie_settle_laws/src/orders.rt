//! Rows and the order of their tasks.
ghost use Rattle.pie_settle_laws.specs.Orders.{OrderedRowsAreAcyclic};

/// Rows that agree with an order have no cycle.
pub fn ordered_rows_are_acyclic()
    ensures { OrderedRowsAreAcyclic }
{}
