//! What a look at a server's socket found, and what `wm up` does then. Definitions: specs/Presences.
//! Tests: commands_tests/src/presences.rt.
ghost use Rattle.std.specs.Prelude.{◌≡◌};
ghost use Rattle.wm_commands.specs.Presences.{absent_step, start_step, up_step};

/// What a look at a server's socket found.
#[derive(Clone, Copy, Debug, PartialEq, Eq)]
pub enum Presence {
    /// A server answered a request.
    Answered,
    /// A connection was taken, and no answer came: what took it is about to end.
    Silent,
    /// Nothing takes a connection.
    Absent,
}

/// Which process serves a socket, by what the system says of its processes.
#[derive(Clone, Copy, Debug, PartialEq, Eq)]
pub enum ServerProcess {
    /// None does.
    Missing,
    /// One that `wm up` started, and that made its socket.
    Own,
    /// Another one.
    Foreign,
}

/// What `wm up` does once it looked for a server.
#[derive(Clone, Copy, Debug, PartialEq, Eq)]
pub enum UpStep {
    /// The server that is there is kept.
    Keep,
    /// It looks again.
    LookAgain,
    /// It starts a server.
    Start,
    /// It ends the server that has lost its socket, and starts another.
    Replace,
    /// It says that a server has lost its socket.
    Tell,
}

/// What `wm up` does if nothing takes a connection. A server that runs all the same has lost its socket, or is about to make it.
fn absent_step(process: ServerProcess, is_late: bool) -> UpStep
    ensures { result ≡ absent_step process is_late }
{
    match (process, is_late) {
        (ServerProcess::Missing, _) => UpStep::Start,
        (ServerProcess::Own, _) => UpStep::Replace,
        (ServerProcess::Foreign, true) => UpStep::Tell,
        (ServerProcess::Foreign, false) => UpStep::LookAgain,
    }
}

/// What `wm up` does after a look. A server is kept only if it answered; one that is silent is looked at again until it is late.
pub fn up_step(presence: Presence, process: ServerProcess, is_late: bool) -> UpStep
    ensures { result ≡ up_step presence process is_late }
{
    match presence {
        Presence::Answered => UpStep::Keep,
        Presence::Absent => absent_step(process, is_late),
        Presence::Silent => {
            if is_late {
                UpStep::Start
            } else {
                UpStep::LookAgain
            }
        }
    }
}

/// What a look at a server that `wm up` started says.
#[derive(Clone, Copy, Debug, PartialEq, Eq)]
pub enum StartStep {
    /// It answers.
    Started,
    /// It ended at its start.
    Ended,
    /// It runs, and didn't answer in time.
    Late,
    /// It is looked at again.
    Await,
}

/// What a look at a server says that was started: what was found, whether its program has ended, and whether it is late.
pub fn start_step(presence: Presence, has_ended: bool, is_late: bool) -> StartStep
    ensures { result ≡ start_step presence has_ended is_late }
{
    match presence {
        Presence::Answered => StartStep::Started,
        Presence::Silent | Presence::Absent => {
            if has_ended {
                StartStep::Ended
            } else if is_late {
                StartStep::Late
            } else {
                StartStep::Await
            }
        }
    }
}
