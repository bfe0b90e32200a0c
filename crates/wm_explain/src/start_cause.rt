//! Why the program of a trigger couldn't be started. Definitions: specs/StartCauses. Tests: leaf_tests/src/logs.rt.
ghost use Rattle.std.specs.Prelude.{◌≡◌};
ghost use Rattle.wm_explain.specs.StartCauses.{start_cause_text};

/// Why a program couldn't be started.
#[derive(Clone, Copy, Debug, PartialEq, Eq)]
pub enum StartCause {
    /// No such file is there, or none of its folder.
    NoFile,
    /// There is no right to it, or it isn't marked as a program.
    NoPermission,
    /// The system can't run such a file.
    NoProgram,
    /// Its arguments and its environment are too long together.
    TooLong,
    /// No further process may be started.
    NoProcess,
    /// Memory ran out.
    NoMemory,
    /// Another one.
    Refused,
}

impl StartCause {
    /// What is said of it.
    pub fn text(self) -> &'static str
        ensures { result.now ≡ start_cause_text self }
    {
        match self {
            StartCause::NoFile => "no such file",
            StartCause::NoPermission => "no permission",
            StartCause::NoProgram => "the system can't run such a file",
            StartCause::TooLong => "its arguments are too long together",
            StartCause::NoProcess => "too many processes run",
            StartCause::NoMemory => "memory ran out",
            StartCause::Refused => "the system refused to start it",
        }
    }
}
