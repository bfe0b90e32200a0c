//! What is asked right before a program is started, and told right after.
//! Tests: registry_tests/src/trigger_runs/permits.rt.
ghost use Rattle.std.specs.Prelude.{IfSome};

/// The permit of one start. A starter asks it once everything is prepared, and tells it as soon as the start was tried, so
/// that it is held for the start alone and not until the program ends.
pub trait Permit {
    /// That a start was permitted. No bound lets a starter drop it: it ends by `end` alone.
    type Given;

    /// That a start which was permitted is over.
    type Ended: Drop;

    /// Whether this permit has given it.
    ghost shows_given: { Self → Self.Given → Type 0 };

    /// Whether a start that this permit had given is over.
    ghost shows_ended: { Self → Self.Ended → Type 0 };

    /// That the program may be started now. After `None` nothing is started.
    fn begin(&self) -> Option<Self::Given>
        ensures { IfSome result (shows_given self.now) };

    /// The start that was permitted is over: the program runs, or it couldn't be started.
    fn end(&self, given: Self::Given) -> Self::Ended
        requires { shows_given self.now given }
        ensures { shows_ended self.now result };
}
