//! The rows of the store.
ghost use Rattle.pie_step_laws.specs.Rows.{HeightsAreLevels, HeightsOfRows, RowsInOrder};

/// Records in the order of heights and tasks are the rows of the store.
pub fn rows_are_in_order()
    ensures heights { HeightsAreLevels }
    ensures rows { RowsInOrder }
    ensures by_rows { HeightsOfRows }
{}
