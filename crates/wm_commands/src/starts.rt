//! What to do if a program ended at its start, by the last line that it printed. Definitions: specs/Starts.
//! Tests: commands_tests/src/starts.rt.
ghost use Rattle.std.specs.Prelude.{◌≡◌};
ghost use Rattle.wm_commands.specs.Starts.{is_named_alone, start_fault};

/// What the last line of a program says that ended at its start.
#[derive(Clone, Copy, Debug, PartialEq, Eq)]
pub enum StartFault {
    /// `inotifywait` isn't there, and what to do then isn't said.
    NoInotifywait,
    /// The system refused a file or the disk.
    DeviceFailed,
    /// The state file is none of watchmand.
    ForeignState,
    /// No cause.
    Unexplained,
    /// What is wrong, and what to do then.
    Explained,
}

/// Whether a line says no more than which program printed it, and a refusal.
fn is_named_alone(line: &[u8]) -> bool
    ensures { result ≡ is_named_alone line.now }
{
    line.is_empty() || line.starts_with(b"watchmand: ") || line.starts_with(b"wmfeed: ")
}

/// What the last line of a program says that ended at its start.
fn fault_of(line: &[u8]) -> StartFault
    ensures { result ≡ start_fault line.now }
{
    if line.ends_with(b"inotifywait couldn't be started") {
        StartFault::NoInotifywait
    } else if line.ends_with(b"install inotify-tools, or put it on the PATH") {
        StartFault::Explained
    } else if line.ends_with(b"13 DeviceFailed") {
        StartFault::DeviceFailed
    } else if line.ends_with(b"this is no state file of watchmand") {
        StartFault::ForeignState
    } else if is_named_alone(line) {
        StartFault::Unexplained
    } else {
        StartFault::Explained
    }
}

impl StartFault {
    /// What the last line of a program says that ended at its start.
    pub fn of(last: &str) -> StartFault
        ensures { result ≡ start_fault last.now }
    {
        fault_of(last.as_bytes())
    }

    /// What stands behind that line: what to do, unless the line says it.
    pub fn advice(self) -> &'static str {
        match self {
            StartFault::NoInotifywait => ": install inotify-tools",
            StartFault::DeviceFailed =>
                ": look at the disk, and at the rights of the file 'state' beside the log",
            StartFault::ForeignState => ": move it away, and 'wm up' makes a new one",
            StartFault::Unexplained => "; it didn't start",
            StartFault::Explained => "",
        }
    }
}
