//! Rows of a store as records of the model.
ghost use Rattle.pie_earlier_laws.specs.Told.{RecordsTellRows, StoresTellRows};

/// Rows that can be stored are equal where they are one record of the model, and so are lists of them. Rule: docs/FORMATS.md, "Records".
pub fn records_tell_rows()
    ensures row { RecordsTellRows }
    ensures rows { StoresTellRows }
{}
