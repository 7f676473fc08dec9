//! The task that runs or is checked, and those that wait.
ghost use Rattle.pie_topdown_laws.specs.Stacks.{StacksBegin, StacksGrow, StacksGoOn, StacksFall, StacksGain, StacksStand, RequiredTasksStand};

/// A stack begins with a root, grows by a required task, goes on, and falls where a task ends.
pub fn stacks_change()
    ensures begin { StacksBegin }
    ensures grow { StacksGrow }
    ensures go_on { StacksGoOn }
    ensures fall { StacksFall }
    ensures gain { StacksGain }
{}

/// All that is entered stands in the evaluation of the root.
pub fn stacks_stand()
    ensures top { StacksStand }
    ensures required { RequiredTasksStand }
{}
