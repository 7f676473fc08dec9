//! Records and stamps: equal stamps give equal records.

ghost use Rattle.pie_model.specs.inner.RecordLaws.{EqualStampsGiveEqualRecords, RecordsAgreeWithThemselves, RecordsTellWhatTreesShow, ReachedTasksStand};

/// The second law: an old record with today's stamps is the record of today's evaluation.
pub fn equal_stamps_give_equal_records()
    ensures { EqualStampsGiveEqualRecords }
{}

/// A record that ended with a value has the stamps of its own sources.
pub fn records_agree_with_themselves()
    ensures { RecordsAgreeWithThemselves }
{}

/// What right records tell of a path is what the trees show there.
pub fn records_tell_what_trees_show()
    ensures told { RecordsTellWhatTreesShow }
    ensures reached { ReachedTasksStand }
{}
