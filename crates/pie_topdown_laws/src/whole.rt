//! What waits on the stack.
ghost use Rattle.pie_topdown_laws.specs.Whole.{EntriesStay, ChecksStay, RunsStay, NewTasksGoBeside, EndsGoBeside, ChecksGoOn};
ghost use Rattle.pie_topdown_laws.specs.Whole.{OwnStagesGoBeside, FetchesGoBeside};

/// What waits, is checked or runs stays while the build goes on beside it.
pub fn entries_stay()
    ensures waiting { EntriesStay }
    ensures checked { ChecksStay }
    ensures running { RunsStay }
    ensures back { ChecksGoOn }
{}

/// New tasks, ends of tasks, and contents that are staged are such steps.
pub fn builds_go_beside()
    ensures new { NewTasksGoBeside }
    ensures end { EndsGoBeside }
    ensures own { OwnStagesGoBeside }
    ensures fetched { FetchesGoBeside }
{}
