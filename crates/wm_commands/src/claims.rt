//! For which server the files of a state folder are. Definitions: specs/Claims. Tests: commands_tests/src/presences.rt.
ghost use Rattle.std.specs.Prelude.{◌≡◌};
ghost use Rattle.wm_commands.specs.Claims.{claim_of};

/// For which server a process runs that `wm up` started from a state folder.
#[derive(Clone, Copy, Debug, PartialEq, Eq)]
pub enum Claim {
    /// None runs.
    Free,
    /// For the server at the socket that is asked for.
    Ours,
    /// For the server at another socket.
    Theirs,
}

impl Claim {
    /// For which server a process runs, by whether one runs, and whether its socket is the one that is asked for.
    pub fn of(is_running: bool, is_same_socket: bool) -> Claim
        ensures { result ≡ claim_of is_running is_same_socket }
    {
        match (is_running, is_same_socket) {
            (false, _) => Claim::Free,
            (true, true) => Claim::Ours,
            (true, false) => Claim::Theirs,
        }
    }
}
