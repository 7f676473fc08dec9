//! The table of the model and its kept contents, from those by numbers.
ghost use Rattle.pie_builder_laws.specs.Tables.{RecordsAreByNumber, RecordsHaveNumbers, NoRecordsAtFirst, NewNamesHaveNoRecord, PutRecordsChange};
ghost use Rattle.pie_builder_laws.specs.Tables.{ContentsAreByNumber, NewNamesHaveNoContents, PutContentsChange};

/// The table has the record under each task's number, and changes with it.
pub fn records_are_by_number()
    ensures each { RecordsAreByNumber }
    ensures numbers { RecordsHaveNumbers }
    ensures none { NoRecordsAtFirst }
    ensures named { NewNamesHaveNoRecord }
    ensures put { PutRecordsChange }
{}

/// The kept contents are those under each task's number, and change with them.
pub fn contents_are_by_number()
    ensures each { ContentsAreByNumber }
    ensures named { NewNamesHaveNoContents }
    ensures put { PutContentsChange }
{}
