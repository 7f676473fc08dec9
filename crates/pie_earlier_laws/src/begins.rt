//! The beginning of a build over what an earlier one left.
ghost use Rattle.pie_earlier_laws.specs.Begins.{EarlierRecordsBegin};

/// The records of an earlier accepted build are consistent at the beginning of the next one, where each task is busy whose function or
/// whose stamp of a named source differs. Rule: docs/MODEL.md.
pub fn earlier_records_begin()
    ensures { EarlierRecordsBegin }
{}
