//! How a command was met, and whether that is a change.
//! Definitions: specs/Registry.antt. Tests: registry_tests/src/registries.rt.
ghost use Rattle.std.specs.Prelude.{◌≡◌};
ghost use Rattle.wm_registry.specs.Registry.{is_change as is_change_lem};

use wm_disk::Refusal;

/// How a command was met.
#[derive(Clone, Copy, Debug, PartialEq, Eq)]
pub enum Reply {
    /// It changed the registry: it is accepted.
    Changed,
    /// It put a trigger in the place of another of its name: it is accepted.
    Replaced,
    /// It changes nothing.
    Unchanged,
    /// It was refused, and changed nothing.
    Refused(Refusal),
}

impl Reply {
    /// Whether the command was accepted: it changed the registry.
    pub fn is_change(self) -> bool
        ensures { result ≡ is_change_lem self }
    {
        match self {
            Reply::Changed | Reply::Replaced => true,
            Reply::Unchanged | Reply::Refused(_) => false,
        }
    }
}
