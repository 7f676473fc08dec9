//! A record that is checked: its task is a running task.
ghost use Rattle.pie_topdown_laws.specs.CheckLaws.{ChecksBegin, PlacesPass, PlacesPassByRecords, StampsByRecordsAreThoseNow, RequiredTasksBegin};
ghost use Rattle.pie_topdown_laws.specs.CheckLaws.{RequiredTasksClose, WaitingChecksStay, StandingRecordsAreRight, StandingRecordsEnd, ChecksGiveWay};
ghost use Rattle.pie_topdown_laws.specs.CheckLaws.{DifferencesAreReasons};

/// A record may be checked where its task may begin.
pub fn checks_begin()
    ensures { ChecksBegin }
{}

/// A check passes an observation that has the stamp of now, which right records tell.
pub fn places_pass()
    ensures passes { PlacesPass }
    ensures by_records { PlacesPassByRecords }
    ensures stamps { StampsByRecordsAreThoseNow }
{}

/// A task that a checked record requires next begins above the check, or closes a cycle; while others end the check waits.
pub fn checks_require()
    ensures begins { RequiredTasksBegin }
    ensures closes { RequiredTasksClose }
    ensures waits { WaitingChecksStay }
{}

/// A record that stands is right; where one doesn't, its task may run or another record be checked.
pub fn checks_end()
    ensures right { StandingRecordsAreRight }
    ensures ends { StandingRecordsEnd }
    ensures gives_way { ChecksGiveWay }
{}

/// Where a check doesn't pass, the task has a reason to run.
pub fn differences_are_reasons()
    ensures { DifferencesAreReasons }
{}
