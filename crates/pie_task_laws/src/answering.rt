//! Tasks that require others.
ghost use Rattle.pie_task_laws.specs.Answering.{CallersRunOn, CallersEnd, BigRequiresFail};

/// The newest task that waits runs on with the output of a settled one, or ends as that one did, with a right record; so does one that
/// requires a task past the limits. Rule: docs/MODEL.md.
pub fn requirers_are_answered()
    ensures answered { CallersRunOn }
    ensures ended { CallersEnd }
    ensures big { BigRequiresFail }
{}
