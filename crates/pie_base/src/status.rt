//! How a run of the program ends.
ghost use Rattle.std.specs.Prelude.{◌≡◌};
ghost use Rattle.pie_base.specs.inner.Status.{code_of};

/// The exit statuses of the program, in the order of their codes. Rule: docs/BUILDING.md, "Statuses".
#[derive(Clone, Copy, Debug, PartialEq, Eq)]
pub enum Status {
    /// 0: the command succeeded, and each build was accepted.
    Ok,
    /// 1: the build was refused.
    Refused,
    /// 2: the words are no command.
    Usage,
    /// 3: the input is too long or has a bad line.
    BadInput,
    /// 4: the pipeline or the roots are refused.
    Pipeline,
    /// 5: a call on the files failed.
    Files,
    /// 6: a call on the input failed.
    Input,
    /// 7: a call on the output failed.
    Output,
    /// 8: no memory was to be had.
    Memory,
}

impl Status {
    /// The number that the process ends with.
    pub fn code(&self) -> u8
        ensures { result ≡ code_of self.now }
    {
        match self {
            Status::Ok => 0,
            Status::Refused => 1,
            Status::Usage => 2,
            Status::BadInput => 3,
            Status::Pipeline => 4,
            Status::Files => 5,
            Status::Input => 6,
            Status::Output => 7,
            Status::Memory => 8,
        }
    }
}
