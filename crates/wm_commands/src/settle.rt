//! When a change has settled. Definitions: specs/CommandRuns. Tests: commands_tests/src/runs.rt.
ghost use Rattle.std.specs.Prelude.{◌≡◌, Some};
ghost use Rattle.wm_commands.specs.CommandRuns.{has_settled};

/// The last change that was seen, and how long it has to be alone.
#[derive(Clone, Copy, Debug, PartialEq, Eq)]
pub struct Settle {
    /// For how many milliseconds nothing may change.
    pub millis: u64,
    /// When the last change was seen, in milliseconds since the program began.
    pub last: Option<u64>,
}

impl Settle {
    /// A change was seen at this time.
    pub fn change(&mut self, now: u64)
        ensures last { self.new.last ≡ Some now }
        ensures millis { self.new.millis ≡ self.old.millis }
    {
        self.last = Some(now);
    }

    /// Whether the last change has settled. `false` if there was none.
    pub fn is_settled(self, now: u64) -> bool
        ensures { result ≡ has_settled self.millis self.last now }
    {
        match self.last {
            Some(last) => self.millis <= now.saturating_sub(last),
            None => false,
        }
    }
}
